//! The lines of both texts.

ghost use Rattle.std.specs.Prelude.{◌≡◌, ◌+◌, ◌<◌, ◌≤◌, [], ◌∷◌, ◌++◌, if◌then◌else◌, length, vec_len, vec_capacity, OnOk, OnErr};
ghost use Rattle.rmi_codec.specs.Head.{head_text};
ghost use Rattle.rmi_codec.specs.Spaced.{spaced};
ghost use Rattle.rmi_view.specs.Seen as replied;
ghost use Rattle.rmi_view.specs.Seen.{command_seen, reply_seen};
ghost use Rattle.merging.specs.SeenEvents.{happened_seen, moment_seen, HasFewWords};
ghost use Rattle.rmm_spec.specs.CertificateText.{line_parts};
ghost use Rattle.rmm_spec.specs.CommandText.{reply_text};
ghost use Rattle.rmm_spec.specs.HistoryText.{event_parts, config_parts, mark};
ghost use Rattle.rmm_spec.specs.Text.{decimal, line_text};
ghost use Rattle.rmm_spec.specs.declared.event.Event.TheVariants as event;
ghost use Rattle.rmm_spec.specs.declared.line.Line.TheVariants as line;
ghost use Rattle.merging.specs.Merge.{moment_text};
ghost use Rattle.merging.specs.Seen.{stand_seen};

use crate::cpu::Cpu;
use crate::{HappenedRef, MomentRef};
use history::Config;
use rmi_view::{CommandRef, ReplyRef};
use rmm_spec::Version;
use std::alloc::AllocError;
use text_writers::{push_command, push_head, push_numbers, push_reply};

/// Appends the first line of a history. Memory is refused only where the buffer has no room for it; so in all functions here.
pub fn push_header(out: &mut Vec<u8>, config: Config) -> Result<(), AllocError>
    ensures ok { OnOk result (out.new.items ≡ out.old.items ++ (line_text (config_parts config) ++ 10 ∷ [])) }
    ensures full { OnErr result (vec_capacity out.old < vec_len out.old + length (line_text (config_parts config) ++ 10 ∷ [])) }
    ensures capacity { vec_capacity out.old ≤ vec_capacity out.new }
{
    out.extend_from_slice(mark_of(config.version()))?;
    push_sizes(out, config)
}

// The word that a history of this version begins with.
fn mark_of(version: Version) -> &'static [u8]
    ensures { result.now ≡ mark version }
{
    match version {
        Version::One => b"rmh1",
        Version::Two => b"rmh2",
        Version::Large => b"rml1",
    }
}

#[tactic(auto, using(std::proofs::lemmas::Grind::common_steps, text_writers::proofs::WriteLaws::writing))]
fn push_sizes(out: &mut Vec<u8>, config: Config) -> Result<(), AllocError>
    ensures ok { OnOk result (out.new.items ≡ out.old.items ++ (spaced (decimal config.granules ∷ decimal config.cpus ∷ []) ++ 10 ∷ [])) }
    ensures full { OnErr result (vec_capacity out.old
        < vec_len out.old + length (spaced (decimal config.granules ∷ decimal config.cpus ∷ []) ++ 10 ∷ [])) }
    ensures capacity { vec_capacity out.old ≤ vec_capacity out.new }
{
    push_numbers(out, config.granules(), u64::from(config.cpus()))?;
    out.push(b'\n')?;
    Ok(())
}

/// Appends the line of a moment of a CPU, which returns so often in all: that of a commit is the certificate's, any other the history's.
pub fn push_moment(
    out: &mut Vec<u8>,
    cpu: &Cpu,
    returns: u32,
    slot: HappenedRef<'_>,
) -> Result<(), AllocError>
    requires { HasFewWords (moment_seen slot.moment) }
    ensures ok { OnOk result (out.new.items ≡ out.old.items ++ moment_text returns (stand_seen cpu.now) (happened_seen slot.entry)) }
    ensures full { OnErr result
        (vec_capacity out.old < vec_len out.old + length (moment_text returns (stand_seen cpu.now) (happened_seen slot.entry))) }
    ensures capacity { vec_capacity out.old ≤ vec_capacity out.new }
{
    let number = cpu.calls.saturating_sub(1);
    match slot.moment {
        MomentRef::Call(command) => push_call(out, slot.cpu, cpu.calls, command),
        MomentRef::Commit(reply) => push_commit(
            out,
            slot.cpu,
            number,
            cpu.returns < returns,
            reply,
        ),
        MomentRef::Return(reply) => push_return(out, slot.cpu, number, reply),
    }
}

#[tactic(auto, using(std::proofs::lemmas::Grind::common_steps, crate::proofs::LineLaws::line_texts))]
fn push_call(
    out: &mut Vec<u8>,
    cpu: u8,
    number: u32,
    command: CommandRef<'_>,
) -> Result<(), AllocError>
    requires { length command.words.now ≤ 10 }
    ensures ok { OnOk result (out.new.items
        ≡ out.old.items ++ (line_text (event_parts (event.Called cpu number (command_seen command.entry))) ++ 10 ∷ [])) }
    ensures full { OnErr result (vec_capacity out.old
        < vec_len out.old + length (line_text (event_parts (event.Called cpu number (command_seen command.entry))) ++ 10 ∷ [])) }
    ensures capacity { vec_capacity out.old ≤ vec_capacity out.new }
{
    push_head(out, b'c', cpu, number)?;
    out.push(b' ')?;
    push_command(out, &command.to_command())?;
    out.push(b'\n')?;
    Ok(())
}

#[tactic(auto, using(crate::proofs::LineLaws::line_texts))]
fn push_return(
    out: &mut Vec<u8>,
    cpu: u8,
    number: u32,
    reply: ReplyRef<'_>,
) -> Result<(), AllocError>
    requires { replied.HasFewWords (reply_seen reply) }
    ensures ok { OnOk result (out.new.items
        ≡ out.old.items ++ (line_text (event_parts (event.Returned cpu number (reply_seen reply.entry))) ++ 10 ∷ [])) }
    ensures full { OnErr result (vec_capacity out.old
        < vec_len out.old + length (line_text (event_parts (event.Returned cpu number (reply_seen reply.entry))) ++ 10 ∷ [])) }
    ensures capacity { vec_capacity out.old ≤ vec_capacity out.new }
{
    push_answer(out, b'r', cpu, number, reply)
}

// Appends the line of a commit: its call is kept, or it is unfinished with that reply.
#[tactic(auto, using(crate::proofs::LineLaws::line_texts))]
fn push_commit(
    out: &mut Vec<u8>,
    cpu: u8,
    number: u32,
    is_kept: bool,
    reply: ReplyRef<'_>,
) -> Result<(), AllocError>
    requires { replied.HasFewWords (reply_seen reply) }
    ensures ok { OnOk result (out.new.items ≡ out.old.items
        ++ (line_text (line_parts (if is_kept then line.Keep cpu number else line.Unfinished cpu number (reply_seen reply.entry))) ++ 10 ∷ [])) }
    ensures full { OnErr result (vec_capacity out.old < vec_len out.old
        + length (line_text (line_parts (if is_kept then line.Keep cpu number else line.Unfinished cpu number (reply_seen reply.entry)))
        ++ 10 ∷ [])) }
    ensures capacity { vec_capacity out.old ≤ vec_capacity out.new }
{
    if is_kept {
        return push_kept(out, cpu, number);
    }
    push_answer(out, b'u', cpu, number, reply)
}

#[tactic(auto, using(std::proofs::lemmas::Grind::common_steps, crate::proofs::LineLaws::line_texts))]
fn push_kept(out: &mut Vec<u8>, cpu: u8, number: u32) -> Result<(), AllocError>
    ensures ok { OnOk result (out.new.items ≡ out.old.items ++ (line_text (line_parts (line.Keep cpu number)) ++ 10 ∷ [])) }
    ensures full { OnErr result (vec_capacity out.old < vec_len out.old + length (line_text (line_parts (line.Keep cpu number)) ++ 10 ∷ [])) }
    ensures capacity { vec_capacity out.old ≤ vec_capacity out.new }
{
    push_head(out, b'k', cpu, number)?;
    out.push(b'\n')?;
    Ok(())
}

// Appends a line that ends in a reply.
#[tactic(auto, using(std::proofs::lemmas::Grind::common_steps))]
fn push_answer(
    out: &mut Vec<u8>,
    letter: u8,
    cpu: u8,
    number: u32,
    reply: ReplyRef<'_>,
) -> Result<(), AllocError>
    requires { replied.HasFewWords (reply_seen reply) }
    ensures ok { OnOk result
        (out.new.items ≡ out.old.items ++ ((head_text letter cpu number ++ 32 ∷ reply_text (reply_seen reply.entry)) ++ 10 ∷ [])) }
    ensures full { OnErr result (vec_capacity out.old
        < vec_len out.old + length ((head_text letter cpu number ++ 32 ∷ reply_text (reply_seen reply.entry)) ++ 10 ∷ [])) }
    ensures capacity { vec_capacity out.old ≤ vec_capacity out.new }
{
    push_head(out, letter, cpu, number)?;
    out.push(b' ')?;
    push_reply(out, &reply.to_reply())?;
    out.push(b'\n')?;
    Ok(())
}
