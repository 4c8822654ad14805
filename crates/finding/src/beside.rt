//! Calls that change a REC alone, beside calls that work on tables or lend granules.

ghost use Rattle.std.specs.Prelude.{◌≡◌, ℕ, Some, false, IsTrue};
ghost use Rattle.rmm_spec.specs.declared.reply.Reply.{Reply};
ghost use Rattle.verdict_laws.specs.Beside as spec;
ghost use Rattle.verdict_laws.specs.Beside.{AreBeside, entered};
ghost use Rattle.verdict_laws.specs.Separate.{works_on};
ghost use Rattle.finding.specs.Next.{IsReplyOf};

use crate::next_call::NextCall;
use crate::separate::{work_of, works_on};
use rmm_spec::Call;

/// Whether the one enters a REC, leaves one or asks something there, and the other works, but not on the REC's granule.
pub(crate) fn are_beside(entry: &NextCall<'_>, work: &NextCall<'_>) -> bool
    ensures { IsTrue result → (answered : Reply) → IsReplyOf work.now answered → AreBeside entry.now.call work.now.call answered }
{
    if !is_entry(&entry.call) {
        return false;
    }
    if !is_work(&work.call) {
        return false;
    }
    match entered(&entry.call) {
        Some(rec) => works_elsewhere(work, rec),
        None => true,
    }
}

/// Whether a call is known not to work on the granule.
fn works_elsewhere(work: &NextCall<'_>, granule: u64) -> bool
    ensures { IsTrue result → (answered : Reply) → IsReplyOf work.now answered → works_on work.now.call answered granule ≡ false }
{
    match work_of(work) {
        Some(work) => !works_on(&work, granule),
        None => false,
    }
}

/// Whether a call enters a REC, or leaves the one in which its CPU is, or asks something of the host there.
#[tactic(auto, unfolding(verdict_laws::specs::Beside::is_entry))]
fn is_entry(call: &Call) -> bool
    ensures { result ≡ spec.is_entry call.now }
{
    matches!(
        call,
        Call::RecEnter { .. }
            | Call::Exit
            | Call::IpaStateSet { .. }
            | Call::HostCall { .. }
            | Call::CpuOff
    )
}

/// The granule of the REC that a call enters, where it does.
#[tactic(auto, unfolding(verdict_laws::specs::Beside::entered))]
fn entered(call: &Call) -> Option<u64>
    ensures { result ≡ entered call.now }
{
    match call {
        Call::RecEnter { rec } => Some(*rec),
        _ => None,
    }
}

/// Whether a call works on a realm's tables, or lends a granule or takes it back, and changes the state of no realm.
#[tactic(auto, unfolding(verdict_laws::specs::Beside::is_work))]
fn is_work(call: &Call) -> bool
    ensures { result ≡ spec.is_work call.now }
{
    matches!(
        call,
        Call::GranuleDelegate { .. }
            | Call::GranuleUndelegate { .. }
            | Call::DataCreate { .. }
            | Call::DataCreateUnknown { .. }
            | Call::DataDestroy { .. }
            | Call::RttCreate { .. }
            | Call::RttRemove { .. }
            | Call::RttMapUnprotected { .. }
            | Call::RttReadEntry { .. }
            | Call::RttUnmapUnprotected { .. }
            | Call::RttInitRipas { .. }
    )
}
