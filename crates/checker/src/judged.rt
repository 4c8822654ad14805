//! The verdict on an order that was read, with the machine that it was replayed on.

ghost use Rattle.std.specs.Prelude.{IfOk};
ghost use Rattle.rmm_spec.specs.Judgement.{JudgesOrder};
ghost use Rattle.spec_machine.specs.View.{state_of};
ghost use Rattle.checker.specs.Judged.{IsLeftBy};

use crate::order::judge_order;
use crate::replay::Replay;
use certificate::Certificate;
use history::History;
use rmm_spec::Verdict;
use spec_machine::Machine;
use std::alloc::{AllocError, Global};

/// A verdict on an order, and the machine as the lines before the first fault leave it, or all lines where there is none.
#[derive(Drop)]
pub struct JudgedOrder {
    pub verdict: Verdict,
    pub machine: Machine,
}

/// The verdict on a history and a certificate that were read, as `check` reports it of their texts.
pub fn judged_order(
    alloc: Global,
    history: &History,
    certificate: &Certificate,
) -> Result<JudgedOrder, AllocError>
    ensures judged { IfOk result (λ judged. JudgesOrder judged.verdict history.now.recorded certificate.now.lines) }
    ensures left { IfOk result (λ judged. IsLeftBy judged.verdict history.now.recorded certificate.now.lines (state_of judged.machine)) }
{
    let mut replay = Replay::new(alloc, history)?;
    let verdict = judge_order(&mut replay, history, certificate)?;
    let Replay { machine, .. } = replay;
    Ok(JudgedOrder { verdict, machine })
}
