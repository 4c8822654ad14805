//! Which calls can come next, and in which order they are tried.

ghost use Rattle.std.specs.Prelude.{◌≡◌, ◌≤◌, ◌<◌, ◌^◌};
ghost use Rattle.history.specs.Calls.{ArePlacesOf};
ghost use Rattle.finding.specs.Choice.{IsNextOf, rank_of};

use history::{History, Places};
use rmi_view::ReplyRef;
use rmm_spec::FunctionId;

/// Calls that haven't returned are tried behind all places of returns.
pub(crate) const PENDING: u32 = 1_000_000;

/// A CPU's first call that doesn't stand in an order.
#[derive(Clone, Copy)]
pub(crate) struct Choice {
    pub(crate) cpu: u8,
    pub(crate) number: u32,
    pub(crate) places: Places,
    // whether it has returned with a refusal
    pub(crate) refusal: bool,
    // whether it has returned, and only looks or extends a measurement
    pub(crate) looks: bool,
}

/// When a call is tried: in the order of the returns, and behind them, by its CPU, where it hasn't returned.
pub(crate) fn rank(choice: &Choice) -> u32
    ensures rank { result ≡ rank_of choice.now }
    ensures small { result < 2 ^ 32 }
{
    match choice.places.returned {
        Some(returned) => returned,
        None => PENDING + choice.cpu as u32,
    }
}

/// How many CPUs the history's machine has.
pub(crate) fn cpus_of(history: &History) -> u8
    ensures count { result ≡ history.now.recorded.config.cpus }
    ensures few { result ≤ 8 }
{
    let config = history.config();
    config.cpus()
}

/// The next call of a CPU.
pub(crate) fn next_of(history: &History, counts: &[u32; 8], cpu: u8) -> Option<Choice>
    requires { cpu < history.now.recorded.config.cpus }
    ensures { IsNextOf history.now.recorded counts.now cpu result }
{
    let _fact = cpus_of(history);
    let number = counts[cpu as usize];
    let Some(places) = history.places_of(cpu, number) else {
        return None;
    };
    Some(Choice {
        cpu,
        number,
        places,
        refusal: is_refusal(history, cpu, number, places),
        looks: has_looked(history, cpu, number, places),
    })
}

/// Whether a call that is in these places has returned, and only looks or extends a measurement.
fn has_looked(history: &History, cpu: u8, number: u32, places: Places) -> bool
    requires { ArePlacesOf history.now.recorded.events cpu number places }
{
    if places.returned.is_none() {
        return false;
    }
    let Some(command) = history.command_at(places.called as usize) else {
        return false;
    };
    matches!(
        command.function,
        FunctionId::RttReadEntry
            | FunctionId::MeasurementRead
            | FunctionId::MeasurementExtend
            | FunctionId::RealmConfig
            | FunctionId::IpaStateGet
    )
}

/// Whether a call that is in these places has returned with a refusal.
fn is_refusal(history: &History, cpu: u8, number: u32, places: Places) -> bool
    requires { ArePlacesOf history.now.recorded.events cpu number places }
{
    let Some(returned) = places.returned else {
        return false;
    };
    match history.reply_at(returned as usize) {
        Some(ReplyRef::Ok(_)) | None => false,
        Some(_) => true,
    }
}
