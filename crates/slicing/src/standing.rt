//! Where a CPU is before one of its calls: the replies to its calls before say it.

ghost use Rattle.std.specs.Prelude.{◌≡◌, ◌+◌, ◌≤◌, length, IfSome, IsTrue};
ghost use Rattle.slicing.specs.Calls.{IsCallOf, events_to};
ghost use Rattle.verdict_laws.specs.Placing as laws;
ghost use Rattle.verdict_laws.specs.Placing.{Leaves, StandsBefore};

use crate::call_at::{CallAt, call_at};
use history::History;
use rmi_view::ReplyRef;
use rmm_spec::Call;
use verdict_laws::{ExitReason, Standing};

/// The functions of PSCI by which a REC turns itself or its realm off.
const CPU_OFF: u64 = 0x8400_0002;

const SYSTEM_OFF: u64 = 0x8400_0008;

/// Where the CPU makes the call of that number, as the first events show it, so many. None where one of its calls before didn't return.
pub(crate) fn standing_before(
    history: &History,
    count: u32,
    cpu: u8,
    number: u32,
) -> Option<Standing>
    requires { count ≤ length history.now.recorded.events }
    ensures { IfSome result (StandsBefore (events_to count history.now.recorded.events) cpu number) }
{
    let (from, mut standing) = last_moved(history, count, cpu, number);
    for earlier in from..number {
        standing = standing_after(history, count, cpu, earlier, standing)?;
    }
    Some(standing)
}

/// The number of the CPU's call after the last that moved it, up to the one of a number, or the first, and where it is before that.
fn last_moved(history: &History, count: u32, cpu: u8, number: u32) -> (u32, Standing)
    requires { count ≤ length history.now.recorded.events }
    ensures within { result.0 ≤ number }
    ensures stands { StandsBefore (events_to count history.now.recorded.events) cpu result.0 result.1 }
{
    for back in 0..number {
        let earlier = number - back - 1;
        if let Some(standing) = moved_to(history, count, cpu, earlier) {
            return (earlier + 1, standing);
        }
    }
    (0, Standing::Outside)
}

/// Where the CPU's call of that number moves it, if that enters a REC or leaves it, and is carried out.
fn moved_to(history: &History, count: u32, cpu: u8, number: u32) -> Option<Standing>
    requires { count ≤ length history.now.recorded.events }
    ensures { IfSome result (StandsBefore (events_to count history.now.recorded.events) cpu (number + 1)) }
{
    let call = call_of(history, count, cpu, number)?;
    if !moves(&call.call) {
        return None;
    }
    match call.answer?.reply {
        ReplyRef::Ok(_) => Some(stands_after(&call.call, Standing::Outside)),
        ReplyRef::Err(..) | ReplyRef::Misplaced => None,
    }
}

/// Where it is after the call of that number, by where it was before.
fn standing_after(
    history: &History,
    count: u32,
    cpu: u8,
    number: u32,
    before: Standing,
) -> Option<Standing>
    requires { count ≤ length history.now.recorded.events }
    ensures { IfSome result (Leaves (events_to count history.now.recorded.events) cpu number before) }
{
    let call = call_of(history, count, cpu, number)?;
    match call.answer?.reply {
        ReplyRef::Ok(_) => Some(stands_after(&call.call, before)),
        ReplyRef::Err(..) | ReplyRef::Misplaced => Some(before),
    }
}

/// The CPU's call of that number.
fn call_of(history: &History, count: u32, cpu: u8, number: u32) -> Option<CallAt<'_>>
    requires { count ≤ length history.now.recorded.events }
    ensures { IfSome result (IsCallOf (events_to count history.now.recorded.events) cpu number) }
{
    let place = history.places_of(cpu, number)?.called;
    if place >= count {
        return None;
    }
    let call = call_at(history, count, place)?;
    if call.cpu != cpu || call.number != number {
        return None;
    }
    Some(call)
}

/// Whether a call that is carried out leaves its CPU where it does wherever that was before.
#[tactic(auto, unfolding(verdict_laws::specs::Placing::moves))]
fn moves(call: &Call) -> bool
    ensures { result ≡ laws.moves call.now }
{
    matches!(call, Call::RecEnter { .. } | Call::Exit)
}

/// Where it is after a call that is carried out, by where it was before.
#[tactic(auto, unfolding(verdict_laws::specs::Placing::stands_after, rmm_spec::specs::Function::number_of))]
fn stands_after(call: &Call, before: Standing) -> Standing
    ensures { result ≡ laws.stands_after call.now before }
{
    match call {
        Call::RecEnter { rec } => Standing::Inside {
            rec: *rec,
            reason: ExitReason::Interrupt,
        },
        Call::IpaStateSet { base, top, ripas } => {
            let ripas = if *ripas == 0 { 0 } else { 1 };
            let (base, top) = (*base, *top);
            waits(ExitReason::RipasChange { base, top, ripas }, before)
        }
        Call::HostCall { imm } => waits(ExitReason::HostCall { imm: *imm }, before),
        Call::CpuOff => waits(ExitReason::Psci { function: CPU_OFF }, before),
        Call::SystemOff => waits(
            ExitReason::Psci {
                function: SYSTEM_OFF,
            },
            before,
        ),
        Call::Exit => Standing::Outside,
        _ => before,
    }
}

/// Where the CPU is once its REC waits to leave for the reason.
fn waits(reason: ExitReason, before: Standing) -> Standing
    ensures { result ≡ laws.waits reason before }
{
    match before {
        Standing::Outside => Standing::Outside,
        Standing::Inside { rec, .. } => Standing::Inside { rec, reason },
    }
}
