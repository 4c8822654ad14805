//! Since which step what is watched is so.

ghost use Rattle.std.specs.Prelude.{◌≡◌, ◌+◌, ◌<◌, ◌≤◌, true, length, take, IfNone, IfOk, IfSome};
ghost use Rattle.rmm_spec.specs.FirstFault.{Passes};
ghost use Rattle.rmm_spec.specs.State.{State};
ghost use Rattle.explain.specs.Track as spec;
ghost use Rattle.explain.specs.Track.{IsTrack};
ghost use Rattle.explain.specs.Watch.{IsEarlier, IsSince, is_so};

use crate::earlier::called_by;
use crate::named_call::named_call;
use crate::replay::take_line;
use crate::track::{Track, no_track, track_with};
use crate::watch::{Watch, sample_of};
use certificate::Certificate;
use history::History;
use reasons::{EarlierStep, Since};
use spec_machine::Machine;
use std::alloc::{AllocError, Global};

/// Since which step before the index it is so, as it is after all lines before it.
pub(crate) fn since_of(
    alloc: Global,
    history: &History,
    certificate: &Certificate,
    index: usize,
    watch: &Watch,
) -> Result<Since, AllocError>
    requires within { index ≤ length certificate.now.lines }
    requires now { (last : State) × Passes history.now.recorded (take index certificate.now.lines) last × (is_so last watch.now ≡ true) }
    ensures { IfOk result (IsSince history.now.recorded certificate.now.lines index watch.now) }
{
    let _fact = certificate.len();
    let mut machine = Machine::new(alloc, history.config())?;
    let mut track = no_track();
    for i in 0..index {
        track = track_with(track, i, sample_of(&machine, watch));
        take_line(&mut machine, history, certificate, i)?;
    }
    let track = track_with(track, index, sample_of(&machine, watch));
    Ok(since_from(history, certificate, index, watch, &track))
}

// What was kept, as steps with their calls.
fn since_from(
    history: &History,
    certificate: &Certificate,
    index: usize,
    watch: &Watch,
    track: &Track,
) -> Since
    requires within { index ≤ length certificate.now.lines }
    requires now { (last : State) × Passes history.now.recorded (take index certificate.now.lines) last × (is_so last watch.now ≡ true) }
    requires track { IsTrack history.now.recorded certificate.now.lines watch.now (index + 1) track.now }
    ensures { IsSince history.now.recorded certificate.now.lines index watch.now result }
{
    let _fact = history.well_formed();
    let made = step_if_any(history, certificate, index, track.turn.since);
    let set = step_if_any(history, certificate, index, track.kept.set);
    since_told(made, set, track.turn.was_there)
}

fn since_told(made: Option<EarlierStep>, set: Option<EarlierStep>, was_there: bool) -> Since
    ensures { result ≡ spec.since_told made set was_there }
{
    match made {
        None => Since::Never { made: None, set },
        Some(made) => {
            if was_there {
                Since::Turned(made)
            } else {
                Since::Never {
                    made: Some(made),
                    set,
                }
            }
        }
    }
}

// The step after which so many lines were taken, with its call, where there is one.
fn step_if_any(
    history: &History,
    certificate: &Certificate,
    index: usize,
    count: usize,
) -> Option<EarlierStep>
    requires within { index ≤ length certificate.now.lines }
    requires before { count ≤ index }
    requires passing { (last : State) × Passes history.now.recorded (take index certificate.now.lines) last }
    ensures some { IfSome result (λ earlier. (earlier.step ≡ count) × IsEarlier history.now.recorded certificate.now.lines (index + 1) earlier) }
    ensures none { IfNone result (count ≡ 0) }
{
    if count == 0 {
        None
    } else {
        Some(step_before(history, certificate, index, count))
    }
}

// That step, with its call.
fn step_before(
    history: &History,
    certificate: &Certificate,
    index: usize,
    count: usize,
) -> EarlierStep
    requires within { index ≤ length certificate.now.lines }
    requires some { 0 < count }
    requires before { count ≤ index }
    requires passing { (last : State) × Passes history.now.recorded (take index certificate.now.lines) last }
    ensures step { result.step ≡ count }
    ensures earlier { IsEarlier history.now.recorded certificate.now.lines (index + 1) result }
{
    let (cpu, number) = called_by(certificate.line(count - 1));
    EarlierStep {
        step: count as u64,
        call: named_call(history, cpu, number),
    }
}
