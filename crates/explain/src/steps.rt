//! The other steps that a refused line is about.

ghost use Rattle.std.specs.Prelude.{◌≡◌, ◌≤◌, ◌<◌, true, length, take, IfOk, IfSome};
ghost use Rattle.rmm_spec.specs.FirstFault.{Passes};
ghost use Rattle.spec_machine.specs.View.{state_of};
ghost use Rattle.explain.specs.Late.{IsLateOf};
ghost use Rattle.explain.specs.Put.{IsPut, IsPutTest};
ghost use Rattle.explain.specs.Told.{IsTold};
ghost use Rattle.explain.specs.Watch.{IsSince, is_so};

use crate::deciding::Decision;
use crate::late::late_commit;
use crate::since::since_of;
use crate::watch::{Watch, sample_of};
use certificate::Certificate;
use command_rows::Sight;
use history::History;
use reasons::{
    Deciding, EarlierStep, EntryKind, Fact, LateCommit, NamedCall, Since, Test, WalkTest,
};
use rmm_spec::Tag;
use spec_machine::Machine;
use std::alloc::{AllocError, Global};

/// Since which step it is so, which step put there what is named, and which later one would change it.
#[derive(Drop)]
pub(crate) struct Steps {
    pub(crate) since: Since,
    pub(crate) put: Option<EarlierStep>,
    pub(crate) late: Option<LateCommit>,
}

/// Those steps, of what is so before the failing line.
pub(crate) fn steps_of(
    alloc: Global,
    history: &History,
    certificate: &Certificate,
    machine: &Machine,
    index: usize,
    call: &NamedCall,
    decision: &Decision,
) -> Result<Steps, AllocError>
    requires within { index < length certificate.now.lines }
    requires left { Passes history.now.recorded (take index certificate.now.lines) (state_of machine.now) }
    requires told { IsTold history.now.recorded.events call.now }
    requires so { is_so (state_of machine.now) decision.now.watch ≡ true }
    ensures since { IfOk result (λ steps. IsSince history.now.recorded certificate.now.lines index decision.now.watch steps.since) }
    ensures put { IfOk result (λ steps. IfSome steps.put (IsPut history.now.recorded certificate.now.lines index decision.now.deciding)) }
    ensures late { IfOk result (λ steps.
        IsLateOf history.now.recorded.events certificate.now.lines index call.now decision.now.watch (state_of machine.now) steps.late) }
{
    let since = since_of(alloc, history, certificate, index, &decision.watch)?;
    let put = put_by(
        alloc,
        history,
        certificate,
        machine,
        index,
        decision.deciding,
        &since,
    )?;
    let late = late_step(history, certificate, machine, index, call, &decision.watch)?;
    Ok(Steps { since, put, late })
}

// The later step with which the condition would hold.
fn late_step(
    history: &History,
    certificate: &Certificate,
    machine: &Machine,
    index: usize,
    call: &NamedCall,
    watch: &Watch,
) -> Result<Option<LateCommit>, AllocError>
    requires within { index < length certificate.now.lines }
    requires told { IsTold history.now.recorded.events call.now }
    requires so { is_so (state_of machine.now) watch.now ≡ true }
    ensures { IfOk result (IsLateOf history.now.recorded.events certificate.now.lines index call.now watch.now (state_of machine.now)) }
{
    match watch {
        Watch::Condition(test, _) => late_commit(history, certificate, index, machine, call, *test),
        Watch::Accepted(..) | Watch::Read(_) => Ok(None),
    }
}

// The step that put there what a fact names, one of several, where it is another step.
fn put_by(
    alloc: Global,
    history: &History,
    certificate: &Certificate,
    machine: &Machine,
    index: usize,
    deciding: Deciding,
    since: &Since,
) -> Result<Option<EarlierStep>, AllocError>
    requires within { index ≤ length certificate.now.lines }
    requires left { Passes history.now.recorded (take index certificate.now.lines) (state_of machine.now) }
    ensures { IfOk result (λ found. IfSome found (IsPut history.now.recorded certificate.now.lines index deciding)) }
{
    let Some(test) = put_test(machine, deciding) else {
        return Ok(None);
    };
    let watch = Watch::Condition(test, false);
    if !is_so_now(machine, &watch) {
        return Ok(None);
    }
    match since_of(alloc, history, certificate, index, &watch)? {
        Since::Turned(put) => Ok(if_other(put, since)),
        Since::Never { .. } => Ok(None),
    }
}

// Whether it is so in the machine's state.
fn is_so_now(machine: &Machine, watch: &Watch) -> bool
    ensures { result ≡ is_so (state_of machine.now) watch.now }
{
    sample_of(machine, watch).is_so
}

// A step, if it isn't the one at which it turned.
fn if_other(step: EarlierStep, since: &Since) -> Option<EarlierStep>
    ensures { IfSome result (λ other. other ≡ step) }
{
    if is_at(since, step.step) {
        None
    } else {
        Some(step)
    }
}

// Whether it turned at the step.
fn is_at(since: &Since, step: u64) -> bool {
    match since {
        Since::Turned(earlier) => earlier.step == step,
        Since::Never { .. } => false,
    }
}

// The test that fails since what a fact names is there: the granule of a REC isn't delegated, and an entry is in use.
fn put_test(machine: &Machine, deciding: Deciding) -> Option<Test>
    ensures { IfSome result (IsPutTest deciding) }
{
    match deciding {
        Deciding::Condition(Fact::RecLeft { rec, .. }) => Some(Test::Tagged {
            granule: rec,
            tag: Tag::Delegated,
        }),
        Deciding::Condition(Fact::InUse { rd, ipa, read }) => {
            let realm = machine.realm(rd)?;
            let asked = match read.state {
                0 => return None,
                1 if ipa < realm.protected_end() => WalkTest::Is(EntryKind::Unassigned),
                1 => WalkTest::Is(EntryKind::UnassignedNs),
                _ => WalkTest::NoTable,
            };
            Some(Test::OfWalk {
                rd,
                ipa,
                level: read.level.min(3) as u8,
                asked,
            })
        }
        _ => None,
    }
}
