//! The lines that may stand behind an order, one after another.

ghost use Rattle.std.specs.Prelude.{◌≡◌, ◌+◌, ◌^◌, ◌<◌, ℕ, true, None, Some};
ghost use Rattle.finding.specs.Begun.{IsBegun, IsNextLine, IsSoon};
ghost use Rattle.finding.specs.Choice.{IsLeast, IsNextCall, rank_of};
ghost use Rattle.finding.specs.Group.{is_inside};
ghost use Rattle.finding.specs.Only.{IsFirstGroup};

use crate::attempt::{Attempt, next_attempt};
use crate::begun::Begun;
use crate::choice::{Choice, cpus_of, rank};
use crate::group::Group;
use crate::left::Left;
use history::History;
use rmm_spec::Line;

/// What is tried behind an order.
#[derive(Drop)]
pub(crate) enum NextLine {
    /// Nothing is left.
    None,
    /// No line of a call, and this is left behind it.
    Passed(Left),
    /// A line of a call, and this is left behind it.
    Line {
        choice: Choice,
        line: Line,
        left: Left,
    },
}

/// The next line, of what is left of the group's calls.
pub(crate) fn next_line(history: &History, begun: &Begun, group: Group, left: Left) -> NextLine
    requires begun { IsBegun history.now.recorded begun.now }
    requires group { IsFirstGroup history.now.recorded begun.now group }
    ensures { IsNextLine history.now.recorded begun.now (is_inside group) left result }
{
    let Some(choice) = begun.front.first_at(history, left.from) else {
        return NextLine::None;
    };
    if rank(&group.first) < choice.places.called {
        return NextLine::Passed(behind(choice));
    }
    let _fact = cpus_of(history);
    if !group.has(choice.cpu) {
        return NextLine::Passed(behind(choice));
    }
    match choice.places.returned {
        Some(_) => NextLine::Line {
            choice,
            line: Line::Keep {
                cpu: choice.cpu,
                number: choice.number,
            },
            left: behind(choice),
        },
        None => pending_line(history, begun, group, choice, left),
    }
}

/// The next line of a call that hasn't returned.
fn pending_line(
    history: &History,
    begun: &Begun,
    group: Group,
    choice: Choice,
    left: Left,
) -> NextLine
    requires begun { IsBegun history.now.recorded begun.now }
    requires next { IsNextCall history.now.recorded begun.now.front.counts left.from choice }
    requires least { IsLeast history.now.recorded.events begun.now.front.counts left.from history.now.recorded.config.cpus (rank_of choice) }
    requires pending { choice.places.returned ≡ None }
    requires soon { IsSoon history.now.recorded begun.now choice }
    requires inside { is_inside group choice.cpu ≡ true }
    ensures { IsNextLine history.now.recorded begun.now (is_inside group) left result }
{
    let above = above_for(choice, left);
    match next_attempt(history, &begun.machine, choice, above) {
        None => NextLine::Passed(behind(choice)),
        Some(Attempt { line, left }) => NextLine::Line { choice, line, left },
    }
}

/// The calls that are tried after this one.
fn behind(choice: Choice) -> Left
    requires { rank_of choice < 2 ^ 31 }
    ensures from { result.from ≡ rank_of choice + 1 }
    ensures above { result.above ≡ None }
{
    Left {
        from: rank(&choice) + 1,
        above: None,
    }
}

/// The ends that are left to try for a call.
fn above_for(choice: Choice, left: Left) -> Option<u64>
    ensures { (above : ℕ) → result ≡ Some above → (left.above ≡ Some above) × (rank_of choice ≡ left.from) }
{
    if rank(&choice) == left.from {
        left.above
    } else {
        None
    }
}
