//! The slice of a history's first events on which the last of them depends.

ghost use Rattle.std.specs.Prelude.{◌≡◌, ◌≤◌, ◌++◌, [], ◌∷◌, length, IfOk, IfSome, IsTrue};
ghost use Rattle.rmm_spec.specs.HistoryText.{IsHistory};
ghost use Rattle.verdict_laws.specs.Order.{LeadsNowhere};
ghost use Rattle.verdict_laws.specs.Parts.{first_part};
ghost use Rattle.verdict_laws.specs.Slices as laws;
ghost use Rattle.slicing.specs.Plans.{number_at};

use crate::cut::is_cut;
use crate::keeping::{Depth, plan_for};
use crate::plan::Plan;
use arrayvec::ArrayVec;
use history::History;
use rmm_spec::{Command, Event, FunctionId, Reply};
use std::alloc::{AllocError, Global};
use verdict_laws::nowhere_in_a_slice;

/// The slice on which the last of the first events depends, so many. None where no calls were found that make one, or there are fewer events.
pub fn slice_of(
    alloc: Global,
    history: &History,
    count: u32,
    depth: Depth,
) -> Result<Option<History>, AllocError>
    ensures { IfOk result (λ slice. IfSome slice (λ s.
        LeadsNowhere s.recorded [] → LeadsNowhere (first_part count history.now.recorded) [])) }
{
    let _fact = history.well_formed();
    let _law = nowhere_in_a_slice();
    if count as usize > history.len() {
        return Ok(None);
    }
    let Some(plan) = plan_for(alloc, history, count, depth)? else {
        return Ok(None);
    };
    if !is_cut(history, count, &plan) {
        return Ok(None);
    }
    sliced(alloc, history, count, &plan)
}

/// The slice that the plan cuts out. None where a history has no room for it.
fn sliced(
    alloc: Global,
    history: &History,
    count: u32,
    plan: &Plan,
) -> Result<Option<History>, AllocError>
    requires { count ≤ length history.now.recorded.events }
    ensures { IfOk result (λ slice. IfSome slice (λ s. IsHistory s.recorded
        × laws.IsSlice (first_part count history.now.recorded) s.recorded (number_at plan.now) plan.now.lent.items)) }
{
    let Some(mut slice) = with_lent(alloc, history, plan)? else {
        return Ok(None);
    };
    'places: for place in plan.from..count {
        let Some(number) = plan.number_at(place) else {
            continue 'places;
        };
        let event = with_number(number, history.event(place as usize));
        if !slice.fits(&event) || !slice.has_room() {
            return Ok(None);
        }
        slice.push(event)?;
    }
    let _fact = slice.well_formed();
    Ok(Some(slice))
}

/// The history in which each granule of the plan is lent, one after another.
fn with_lent(alloc: Global, history: &History, plan: &Plan) -> Result<Option<History>, AllocError>
    ensures { IfOk result (λ lent. IfSome lent (λ l. l.recorded ≡ record {
      config = history.now.recorded.config;
      events = laws.lending_events 0 plan.now.lent.items;
    })) }
{
    let mut lent = History::new(alloc, history.config());
    'granules: for index in 0..plan.lent.len() {
        let (Ok(number), Some(granule)) = (u32::try_from(index), plan.lent.get(index)) else {
            return Ok(None);
        };
        if !push_lending(&mut lent, number, *granule)? {
            return Ok(None);
        }
    }
    Ok(Some(lent))
}

/// Records that CPU 0 lends a granule, where that fits.
fn push_lending(lent: &mut History, number: u32, granule: u64) -> Result<bool, AllocError>
    ensures { IfOk result (λ fits. IsTrue fits → lent.new.recorded ≡ record lent.old.recorded {
      events = lent.old.recorded.events ++ laws.lending_events number (granule ∷ []);
    }) }
{
    let called = Event::Called {
        cpu: 0,
        number,
        command: delegation_of(granule),
    };
    if !lent.fits(&called) || !lent.has_room() {
        return Ok(false);
    }
    lent.push(called)?;
    let returned = Event::Returned {
        cpu: 0,
        number,
        reply: Reply::Ok(ArrayVec::new()),
    };
    if !lent.fits(&returned) || !lent.has_room() {
        return Ok(false);
    }
    lent.push(returned)?;
    Ok(true)
}

/// The command by which a granule is lent.
fn delegation_of(granule: u64) -> Command
    ensures { result ≡ laws.delegation granule }
{
    let mut words = ArrayVec::new();
    words.push(granule);
    Command {
        function: FunctionId::GranuleDelegate,
        words,
    }
}

/// The event with another number of its call.
fn with_number(number: u32, event: Event) -> Event
    ensures { result ≡ laws.with_number number event }
{
    match event {
        Event::Called { cpu, command, .. } => Event::Called {
            cpu,
            number,
            command,
        },
        Event::Returned { cpu, reply, .. } => Event::Returned { cpu, number, reply },
    }
}
