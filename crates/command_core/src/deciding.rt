//! What is answered to a command where what is held settles it.

ghost use Rattle.std.specs.Prelude.{◌≡◌, false, IsTrue, Ok, Some, option_map, option_copied};
ghost use Rattle.rmm_spec.specs.declared.accepted.Accepted.TheVariants.{Reaches};
ghost use Rattle.rmm_spec.specs.Call.{call_of};
ghost use Rattle.command_core.specs.Changed.{hold_of, AnswersOwnShape, CanChange, CanMake, CanMakeAnswer, Decides, IsFurthest, given_of};
ghost use Rattle.command_core.specs.Decided as spec;
ghost use Rattle.command_core.specs.Foreseen.{side_or_unlisted, unlisted, IsDecision, change_of};
ghost use Rattle.command_core.specs.Pairs.{pair_cells};
ghost use Rattle.command_core.specs.Seen.{place_of};
ghost use Rattle.command_core.specs.Settled.{is_settled};
ghost use Rattle.command_core.specs.Sides.{side_of};
ghost use Rattle.command_core.specs.Unshaped.{is_unshaped};

use crate::held_pairs::HeldPairs;
use crate::held_sight::HeldSight;
use crate::making::can_make;
use crate::unshaped::is_unshaped;
use arrayvec::ArrayVec;
use command_rows::{answer_inside, answer_outside, reached_change};
use granule_cells::{CpuPlace, Side};
use memory_map::Config;
use rmm_spec::{Accepted, Call, Change, Command, Condition, Refusal, Reply, Stretch};

/// The reply and the change of a command that what is held settles. Together they are a step of the machine, whatever
/// the cells are that aren't held; a refusal changes nothing, and a stretch is set as far as it may be. The change is made by `apply`, with the room
/// that `room` takes.
pub fn decide(
    config: &Config,
    command: &Command,
    cpu: u8,
    place: &CpuPlace,
    held: &HeldPairs,
    side: &Side,
) -> (Reply, Change)
    requires settled { IsTrue (is_settled config.now (call_of command.now) (place_of place.now) (pair_cells held.now)) }
    ensures given { result.0 ≡ given_of (spec.answer_on config.now cpu command.now
        (hold_of (pair_cells held.now) (side_of side.now) (place_of place.now))) }
    ensures change { result.1 ≡ change_of (spec.answer_on config.now cpu command.now
        (hold_of (pair_cells held.now) (side_of side.now) (place_of place.now))) }
    ensures decides { Decides config.now cpu command.now
        (hold_of (pair_cells held.now) (side_of side.now) (place_of place.now)) result.0 result.1 }
    ensures furthest { IsFurthest config.now cpu command.now
        (hold_of (pair_cells held.now) (side_of side.now) (place_of place.now)) result.0 }
    ensures can { CanChange cpu (hold_of (pair_cells held.now) (side_of side.now) (place_of place.now)) result.1 }
    ensures makes { CanMake (hold_of (pair_cells held.now) (side_of side.now) (place_of place.now)) result.1 }
    ensures misplaced { IsTrue (is_unshaped config.now (call_of command.now) (place_of place.now) (pair_cells held.now))
        → (result.0 ≡ Reply.Misplaced) × (result.1 ≡ Change.Unchanged) }
{
    match settled_answer(config, &command.call(), cpu, place, held, Some(side)) {
        Ok(Accepted::Done { words, change }) => (Reply::Ok(words), change),
        Ok(Accepted::Reaches(_)) => unreachable!(),
        Err(refusal) => (refusal.reply(), Change::Unchanged),
    }
}

/// What `decide` decides, as one answer: a refusal, or what is done.
pub fn answer(
    config: &Config,
    command: &Command,
    cpu: u8,
    place: &CpuPlace,
    held: &HeldPairs,
    side: &Side,
) -> Result<Accepted, Refusal>
    requires settled { IsTrue (is_settled config.now (call_of command.now) (place_of place.now) (pair_cells held.now)) }
    ensures exact { result ≡ spec.settled_answer config.now cpu (call_of command.now) (pair_cells held.now) (side_of side.now) (place_of place.now) }
    ensures decides { IsDecision config.now cpu command.now
        (hold_of (pair_cells held.now) (side_of side.now) (place_of place.now)) (given_of result) (change_of result) }
{
    settled_answer(config, &command.call(), cpu, place, held, Some(side))
}

/// The answer of a side table that lists nothing, while the side table isn't at hand. `bears_out` tells whether that answers so too.
pub fn foresee(
    config: &Config,
    command: &Command,
    cpu: u8,
    place: &CpuPlace,
    held: &HeldPairs,
) -> Result<Accepted, Refusal>
    requires settled { IsTrue (is_settled config.now (call_of command.now) (place_of place.now) (pair_cells held.now)) }
    ensures foreseen { result ≡ spec.settled_answer config.now cpu (call_of command.now) (pair_cells held.now) unlisted (place_of place.now) }
{
    settled_answer(config, &command.call(), cpu, place, held, None)
}

// The answer of what is settled, by the side table or by one that lists nothing.
#[tactic(auto, unfolding(crate::specs::Decided::settled_answer))]
fn settled_answer<'a>(
    config: &'a Config,
    call: &Call,
    cpu: u8,
    place: &CpuPlace,
    held: &'a HeldPairs,
    side: Option<&'a Side>,
) -> Result<Accepted, Refusal>
    requires { IsTrue (is_settled config.now call.now (place_of place.now) (pair_cells held.now)) }
    ensures answer { result ≡ spec.settled_answer config.now cpu call.now (pair_cells held.now)
        (side_or_unlisted (option_map side_of (option_copied side.entry))) (place_of place.now) }
    ensures makes { CanMakeAnswer (hold_of (pair_cells held.now)
        (side_or_unlisted (option_map side_of (option_copied side.entry))) (place_of place.now)) result }
{
    let sight = HeldSight { config, held, side };
    if is_unshaped(&sight, call, place) {
        return Err(Refusal::Misplaced(Condition::OwnShape));
    }
    let answer = rows_answer(&sight, call, cpu, place);
    made_answer(&sight, config.granules(), answer)
}

// What the command's rows answer in the state that the held cells tell of.
fn rows_answer(
    sight: &HeldSight<'_>,
    call: &Call,
    cpu: u8,
    place: &CpuPlace,
) -> Result<Accepted, Refusal>
    requires settled { IsTrue (is_settled sight.now.config.now call.now (place_of place.now) (pair_cells sight.now.held.now)) }
    requires shaped { is_unshaped sight.now.config.now call.now (place_of place.now) (pair_cells sight.now.held.now) ≡ false }
    ensures { result ≡ spec.rows_answer sight.now.config.now cpu call.now (pair_cells sight.now.held.now)
        (option_map side_of (option_copied sight.now.side)) (place_of place.now) }
{
    match *place {
        CpuPlace::Outside => answer_outside(sight, cpu, call),
        CpuPlace::Inside { rec, .. } => answer_inside(sight, rec.address(), call),
    }
}

// The answer, where its change can be made of what is held. A stretch is set as far as its rows allow. An answer is large, so it is
// handed on as it came.
fn made_answer(
    sight: &HeldSight<'_>,
    granules: u64,
    answer: Result<Accepted, Refusal>,
) -> Result<Accepted, Refusal>
    requires granules { granules ≡ sight.now.config.now.granules }
    requires shaped { AnswersOwnShape answer }
    ensures { result ≡ spec.made_answer sight.now.config.now (pair_cells sight.now.held.now)
        (side_or_unlisted (option_map side_of (option_copied sight.now.side))) answer }
{
    match &answer {
        Ok(Accepted::Done { change, .. }) => {
            if !can_make(sight.config, granules, sight.held, sight.side, change) {
                return Err(Refusal::Misplaced(Condition::OwnShape));
            }
        }
        Ok(Accepted::Reaches(stretch)) => return reached_answer(sight, granules, stretch),
        Err(_) => {}
    }
    answer
}

// The answer that sets a stretch as far as its rows allow, where that can be made of what is held.
#[inline(never)]
fn reached_answer(
    sight: &HeldSight<'_>,
    granules: u64,
    stretch: &Stretch,
) -> Result<Accepted, Refusal>
    requires { granules ≡ sight.now.config.now.granules }
    ensures { result ≡ spec.made_answer sight.now.config.now (pair_cells sight.now.held.now)
        (side_or_unlisted (option_map side_of (option_copied sight.now.side))) (Ok (Reaches stretch.now)) }
{
    let top = sight.furthest(stretch);
    let change = reached_change(stretch, top);
    if !can_make(sight.config, granules, sight.held, sight.side, &change) {
        return Err(Refusal::Misplaced(Condition::OwnShape));
    }
    let mut words = ArrayVec::new();
    words.push(top);
    Ok(Accepted::Done { words, change })
}
