//! How often each condition of each command refused, counted.

ghost use Rattle.std.specs.Prelude.{◌≡◌, IfOk};
ghost use Rattle.run_steps.specs.Counts.{AreCountsOf};
ghost use Rattle.run_steps.specs.Places.{condition_in, condition_of};

use crate::condition_counts::ConditionCounts;
use crate::places::{place_count, place_of};
use crate::replay::{machine_of, take_line};
use certificate::Certificate;
use history::History;
use rmm_spec::{Accepted, Condition, Refusal};
use std::alloc::{AllocError, Global};

/// Counts what the specification answers to the lines, up to the first one whose reply the machine doesn't give.
pub fn count_conditions(
    alloc: Global,
    history: &History,
    certificate: &Certificate,
) -> Result<ConditionCounts, AllocError>
    ensures { IfOk result (AreCountsOf history.now.recorded certificate.now.lines) }
{
    let mut machine = machine_of(alloc, history)?;
    let mut counts = vec![in alloc; 0; place_count()]?;
    for i in 0..certificate.len() {
        let Some(taken) = take_line(&mut machine, history, certificate.line(i))? else {
            return Ok(ConditionCounts {
                replayed: i as u64,
                counts,
            });
        };
        let place = place_of(
            taken.call.call.command.function,
            condition_in(&taken.outcome),
        );
        counts[place] += 1;
    }
    Ok(ConditionCounts {
        replayed: certificate.len() as u64,
        counts,
    })
}

// The condition for which a command is refused, if it is.
fn condition_in(answer: &Result<Accepted, Refusal>) -> Option<Condition>
    ensures { result ≡ condition_in answer.now }
{
    match answer {
        Ok(_) => None,
        Err(refusal) => Some(condition_of(*refusal)),
    }
}

fn condition_of(refusal: Refusal) -> Condition
    ensures { result ≡ condition_of refusal }
{
    match refusal {
        Refusal::Misplaced(condition)
        | Refusal::Input(condition)
        | Refusal::Realm(condition, _)
        | Refusal::Rec(condition)
        | Refusal::Rtt(condition, _) => condition,
    }
}
