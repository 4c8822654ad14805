//! The line of a call that is tried next.

ghost use Rattle.std.specs.Prelude.{◌≡◌, ◌+◌, ◌^◌, ◌<◌, ℕ, List, [], ◌∷◌, Some, None, IfSome};
ghost use Rattle.rmm_spec.specs.declared.command.Command.{Command};
ghost use Rattle.rmm_spec.specs.declared.line.Line.{Line};
ghost use Rattle.rmm_spec.specs.declared.reply.Reply.{Reply};
ghost use Rattle.rmm_spec.specs.declared.line.Line.TheVariants as line;
ghost use Rattle.rmm_spec.specs.HistoryText.{History as Recorded};
ghost use Rattle.rmm_spec.specs.CommandText.{IsReply};
ghost use Rattle.rmm_spec.specs.Rows.{ok};
ghost use Rattle.rmm_spec.specs.State.{State};
ghost use Rattle.history.specs.Calls.{ArePlacesOf};
ghost use Rattle.spec_machine.specs.View.{state_of};
ghost use Rattle.finding.specs.Attempt.{IsAnswered, IsTriedNext, MayTry};
ghost use Rattle.finding.specs.Choice.{rank_of};

use crate::choice::{Choice, rank};
use crate::ends::next_end;
use crate::left::Left;
use arrayvec::ArrayVec;
use history::History;
use rmi_codec::reply_has_text;
use rmm_spec::{Accepted, Line, Refusal, Reply};
use spec_machine::Machine;

/// A line of a call that hasn't returned, and what is tried behind it.
#[derive(Drop)]
pub(crate) struct Attempt {
    pub(crate) line: Line,
    pub(crate) left: Left,
}

/// The next line for a call that can come next and hasn't returned, and what is tried behind it. Where its stretch may have several ends,
/// those below `above` are left.
pub(crate) fn next_attempt(
    history: &History,
    machine: &Machine,
    choice: Choice,
    above: Option<u64>,
) -> Option<Attempt>
    requires places { ArePlacesOf history.now.recorded.events choice.cpu choice.number choice.places }
    requires pending { choice.places.returned ≡ None }
    ensures tried { (lines : List Line)
        → MayTry history.now.recorded lines (state_of machine.now) choice above → IsTriedNext history.now.recorded lines choice result }
    ensures line { IfSome result (λ attempt. (claimed : Reply) × (attempt.line ≡ line.Unfinished choice.cpu choice.number claimed)) }
{
    let Some(command) = history.command_at(choice.places.called as usize) else {
        unreachable!()
    };
    let command = command.to_command();
    claim(choice, machine.outcome(choice.cpu, &command), above)
}

/// The line of a call that hasn't returned, by what the specification answers it.
fn claim(choice: Choice, outcome: Result<Accepted, Refusal>, above: Option<u64>) -> Option<Attempt>
    requires { rank_of choice < 2 ^ 31 }
    ensures tried { (history : Recorded) (lines : List Line) (state : State) (command : Command) → IsAnswered history choice state command outcome
        → MayTry history lines state choice above → IsTriedNext history lines choice result }
    ensures line { IfSome result (λ attempt. (claimed : Reply) × (attempt.line ≡ line.Unfinished choice.cpu choice.number claimed)) }
{
    match outcome {
        Err(refusal) => Some(only_claim(choice, refusal.reply())),
        Ok(Accepted::Done { words, .. }) => Some(only_claim(choice, Reply::Ok(words))),
        Ok(Accepted::Reaches(stretch)) => {
            let top = next_end(&stretch, above)?;
            Some(one_end(choice, top))
        }
    }
}

/// The one line of a call that hasn't returned, with the one reply that it can be given.
fn only_claim(choice: Choice, reply: Reply) -> Attempt
    requires { rank_of choice < 2 ^ 31 }
    ensures line { result.line ≡ line.Unfinished choice.cpu choice.number reply }
    ensures from { result.left.from ≡ rank_of choice + 1 }
    ensures above { result.left.above ≡ None }
    ensures has_text { IsReply reply }
{
    let _fact = reply_has_text(&reply);
    Attempt {
        line: Line::Unfinished {
            cpu: choice.cpu,
            number: choice.number,
            reply,
        },
        left: Left {
            from: rank(&choice) + 1,
            above: None,
        },
    }
}

/// The line of a call that hasn't returned, with an end of its stretch.
fn one_end(choice: Choice, top: u64) -> Attempt
    ensures line { result.line ≡ line.Unfinished choice.cpu choice.number (ok (top ∷ [])) }
    ensures from { result.left.from ≡ rank_of choice }
    ensures above { result.left.above ≡ Some top }
    ensures has_text { IsReply (ok (top ∷ [])) }
{
    let mut words = ArrayVec::new();
    words.push(top);
    let reply = Reply::Ok(words);
    let _fact = reply_has_text(&reply);
    Attempt {
        line: Line::Unfinished {
            cpu: choice.cpu,
            number: choice.number,
            reply,
        },
        left: Left {
            from: rank(&choice),
            above: Some(top),
        },
    }
}
