//! Who gives a command, and why it isn't given where its CPU is.

ghost use Rattle.std.specs.Prelude.{◌≡◌};
ghost use Rattle.rmm_spec.specs.Step as step;
ghost use Rattle.rmm_spec.specs.Step.Terms as spec;
ghost use Rattle.rmi_view.specs.Callers.{class_from};

use rmm_spec::{Call, Condition};

/// A realm's host, a realm from inside a REC, or a REC that leaves to its host.
#[derive(Clone, Copy)]
pub enum Caller {
    Host,
    Realm,
    Rec,
}

/// Who gives the command.
#[inline(always)]
#[tactic(auto, unfolding(rmm_spec::specs::Step::Terms::class_of))]
pub fn caller_of(call: &Call) -> Caller
    ensures { class_from result ≡ spec.class_of call.now }
{
    match call {
        Call::MeasurementRead { .. }
        | Call::MeasurementExtend { .. }
        | Call::IpaStateSet { .. }
        | Call::IpaStateGet { .. }
        | Call::HostCall { .. }
        | Call::RealmConfig
        | Call::CpuOff
        | Call::SystemOff => Caller::Realm,
        Call::Exit => Caller::Rec,
        _ => Caller::Host,
    }
}

/// The condition that fails where a command of the caller isn't placed, by whether its CPU is inside of a REC.
pub fn misplacement(is_inside: bool, caller: Caller) -> Condition
    ensures { result ≡ step.misplacement is_inside (class_from caller) }
{
    match caller {
        Caller::Host => Condition::OwnOutside,
        Caller::Realm if is_inside => Condition::OwnPending,
        Caller::Realm | Caller::Rec => Condition::OwnInside,
    }
}
