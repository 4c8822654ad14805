//! Whether a reply is given where its CPU is, inside of a REC or outside: the replies to the CPU's calls before say it. So does what the reply says.

ghost use Rattle.std.specs.Prelude.{◌≡◌, [], IsTrue};
ghost use Rattle.rmi_view.specs.Callers.{class_from};
ghost use Rattle.rmi_view.specs.Seen.{reply_seen};
ghost use Rattle.verdict_laws.specs.Order.{LeadsNowhere};
ghost use Rattle.verdict_laws.specs.Parts.{first_part};
ghost use Rattle.verdict_laws.specs.Placing as laws;

use crate::last_return::last_return;
use crate::replying::may_answer;
use crate::standing::standing_before;
use command_words::{Caller, caller_of};
use history::History;
use rmi_view::ReplyRef;
use rmm_spec::Call;
use verdict_laws::{ExitReason, Standing, nowhere_out_of_place};

/// Whether the last of the first events, so many, is a return whose reply isn't given where its CPU is.
pub fn is_out_of_place(history: &History, count: u32) -> bool
    ensures { IsTrue result → LeadsNowhere (first_part count history.now.recorded) [] }
{
    let _fact = history.well_formed();
    let _law = nowhere_out_of_place();
    let Some(last) = last_return(history, count) else {
        return false;
    };
    if count as usize > history.len() {
        return false;
    }
    match standing_before(history, count, last.cpu, last.number) {
        Some(standing) => !may_be_replied(&last.call, standing, last.reply),
        None => false,
    }
}

/// Whether a reply may be given where the CPU is: a call is misplaced just where it isn't given, and else it is replied what such a call is in some
/// state, and an exit why the REC leaves.
fn may_be_replied(call: &Call, standing: Standing, reply: ReplyRef<'_>) -> bool
    ensures { result ≡ laws.may_be_replied call.now standing (reply_seen reply.entry) }
{
    let is_given = is_given(caller_of(call), standing);
    match reply {
        ReplyRef::Misplaced => !is_given,
        given => is_given && may_answer(call, given) && says_why(call, standing, given),
    }
}

/// Whether who gives such calls does so where the CPU is.
fn is_given(caller: Caller, standing: Standing) -> bool
    ensures { result ≡ laws.is_given (class_from caller) standing }
{
    match standing {
        Standing::Outside => matches!(caller, Caller::Host),
        Standing::Inside { reason, .. } => match caller {
            Caller::Host => false,
            Caller::Realm => matches!(reason, ExitReason::Interrupt),
            Caller::Rec => true,
        },
    }
}

/// Whether an exit that is carried out reports why the REC leaves, if it is one.
#[tactic(auto, unfolding(verdict_laws::specs::Placing::says_why))]
fn says_why(call: &Call, standing: Standing, reply: ReplyRef<'_>) -> bool
    ensures { result ≡ laws.says_why call.now standing (reply_seen reply.entry) }
{
    match call {
        Call::Exit => match (standing, reply) {
            (Standing::Inside { reason, .. }, ReplyRef::Ok(words)) => reports(reason, words),
            _ => true,
        },
        _ => true,
    }
}

/// Whether the words of an exit report the reason.
fn reports(reason: ExitReason, words: &[u64]) -> bool
    ensures { result ≡ laws.reports reason words.now }
{
    match reason {
        ExitReason::Interrupt => are_words(words, 1, 0, 0, 0),
        ExitReason::Psci { function } => are_words(words, 3, function, 0, 0),
        ExitReason::RipasChange { base, top, ripas } => are_words(words, 4, base, top, ripas),
        ExitReason::HostCall { imm } => are_words(words, 5, imm, 0, 0),
    }
}

/// Whether these are the four words.
fn are_words(words: &[u64], kind: u64, first: u64, second: u64, third: u64) -> bool
    ensures { result ≡ laws.are_words words.now kind first second third }
{
    words.len() == 4
        && words[0] == kind
        && words[1] == first
        && words[2] == second
        && words[3] == third
}
