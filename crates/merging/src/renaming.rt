//! Moments, renamed.

ghost use Rattle.std.specs.Prelude.{◌≡◌, ◌≤◌, length};
ghost use Rattle.rmi_view.specs.Seen as replied;
ghost use Rattle.rmi_view.specs.Seen.{command_seen, reply_seen};
ghost use Rattle.merging.specs.SeenEvents.{happened_seen, moment_seen, HasFewWords};
ghost use Rattle.merging.specs.Names.{called_words};
ghost use Rattle.merging.specs.Renamed.{renamed_command, renamed_moment, renamed_reply, renamed_slot};
ghost use Rattle.merging.specs.Table.{IsHappened};

use crate::names::{MOST_NAMES, Names};
use crate::roles::{Role, answer_roles, command_roles, role_at};
use crate::{HappenedRef, MomentRef};
use rmi_view::{CommandRef, ReplyRef};
use rmm_spec::FunctionId;

/// What happened, with each word as it is called on a machine of so many granules. The CPU's last call before was of that function.
/// The words lie in the buffer.
pub fn renamed_slot<'w>(
    names: &Names,
    granules: u64,
    words: &'w mut [u64; 10],
    last: Option<FunctionId>,
    slot: HappenedRef<'_>,
) -> HappenedRef<'w>
    requires granules { granules ≤ MOST_NAMES }
    requires few { HasFewWords (moment_seen slot.moment) }
    ensures seen { happened_seen result ≡ renamed_slot names.now granules last (happened_seen slot.entry) }
    ensures few { HasFewWords (moment_seen result.moment) }
    ensures happened { IsHappened (happened_seen slot.entry) → IsHappened (happened_seen result) }
{
    let _fact = names.len();
    let moment = renamed_moment(names, granules, words, last, slot.moment);
    HappenedRef {
        line: slot.line,
        cpu: slot.cpu,
        moment,
    }
}

fn renamed_moment<'w>(
    names: &Names,
    granules: u64,
    words: &'w mut [u64; 10],
    last: Option<FunctionId>,
    moment: MomentRef<'_>,
) -> MomentRef<'w>
    requires granules { granules ≤ MOST_NAMES }
    requires few { HasFewWords (moment_seen moment) }
    ensures seen { moment_seen result ≡ renamed_moment names.now granules last (moment_seen moment.entry) }
    ensures few { HasFewWords (moment_seen result) }
{
    match moment {
        MomentRef::Call(command) => MomentRef::Call(renamed_command(
            names, granules, words, command,
        )),
        MomentRef::Commit(reply) => {
            MomentRef::Commit(renamed_reply(names, granules, words, last, reply))
        }
        MomentRef::Return(reply) => {
            MomentRef::Return(renamed_reply(names, granules, words, last, reply))
        }
    }
}

fn renamed_command<'w>(
    names: &Names,
    granules: u64,
    words: &'w mut [u64; 10],
    command: CommandRef<'_>,
) -> CommandRef<'w>
    requires granules { granules ≤ MOST_NAMES }
    requires few { length command.words.now ≤ 10 }
    ensures seen { command_seen result ≡ renamed_command names.now granules (command_seen command.entry) }
    ensures few { length result.words.now ≤ 10 }
{
    CommandRef {
        function: command.function,
        words: called_words(
            names,
            granules,
            words,
            command_roles(command.function),
            command.words,
        ),
    }
}

fn renamed_reply<'w>(
    names: &Names,
    granules: u64,
    words: &'w mut [u64; 10],
    last: Option<FunctionId>,
    reply: ReplyRef<'_>,
) -> ReplyRef<'w>
    requires granules { granules ≤ MOST_NAMES }
    requires few { replied.HasFewWords (reply_seen reply) }
    ensures seen { reply_seen result ≡ renamed_reply names.now granules last (reply_seen reply.entry) }
    ensures few { replied.HasFewWords (reply_seen result) }
{
    match reply {
        ReplyRef::Ok(given) => {
            let roles = answer_roles(last, given);
            ReplyRef::Ok(called_words(names, granules, words, roles, given))
        }
        ReplyRef::Err(status, index) => ReplyRef::Err(status, index),
        ReplyRef::Misplaced => ReplyRef::Misplaced,
    }
}

// Words with these roles, each as it is called.
fn called_words<'w>(
    names: &Names,
    granules: u64,
    words: &'w mut [u64; 10],
    roles: &[Role],
    given: &[u64],
) -> &'w [u64]
    requires granules { granules ≤ MOST_NAMES }
    requires few { length given.now ≤ 10 }
    ensures called { result.now ≡ called_words names.now granules roles.now 0 given.now }
    ensures few { length result.now ≤ 10 }
{
    for place in 0..given.len() {
        words[place] = names.called(granules, role_at(roles, place), given[place]);
    }
    &words[..given.len()]
}
