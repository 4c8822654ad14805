//! The commands of a CPU that is inside a REC.

ghost use Rattle.std.specs.Prelude.{◌≡◌, ℕ, List, Some, IfOk, IfSome, IsTrue, is_some};
ghost use Rattle.rmm_spec.specs.declared.call.Call.TheVariants.{IpaStateGet, MeasurementExtend};
ghost use Rattle.rmm_spec.specs.Call.{call_of};
ghost use Rattle.rmm_spec.specs.State.{State};
ghost use Rattle.rmm_spec.specs.Lookup.{is_inside, rec_inside, realm_at, rec_at};
ghost use Rattle.rmm_spec.specs.Step.{Step, outcome};
ghost use Rattle.rmm_spec.specs.Step.RealmCall.{answer_to_realm};
ghost use Rattle.rmm_spec.specs.Update.{with_realm, with_rec};
ghost use Rattle.rec_steps.specs.Answers.{answer_at, extension_at, is_refusal, is_read, is_walk, IsRipasRead, IsStep};
ghost use Rattle.rec_steps.specs.Held.{IsHeld};

use crate::ipa_state::{ipa_state_get, ipa_state_set};
use crate::leaving::{answer_to_exit, cpu_off, host_call, system_off};
use crate::measurement::{Extension, extension_of, measurement_extend, measurement_read};
use crate::realm_config::config_of;
use crate::step::RecStep;
use realm_desc::{Realm, Rec};
use rmi_view::{caller_of, misplacement};
use rmm_spec::{Call, Command, Condition, Refusal, Reply, Ripas};

/// The address whose entry a CPU inside the REC reads by its call, if it reads one. The RIPAS of that entry is then to be handed in.
#[inline(always)]
pub fn walked_address(realm: &Realm, rec: &Rec, call: &Call) -> Option<u64>
    ensures walks { is_some result ≡ is_walk realm.now rec.now call.now }
    ensures read { IfSome result (λ ipa. call.now ≡ IpaStateGet ipa) }
{
    match call {
        Call::IpaStateGet { ipa } if rec.can_call() && realm.protects(*ipa) => Some(*ipa),
        _ => None,
    }
}

/// Whether the command of a CPU inside the REC reads an entry.
pub fn walks(realm: &Realm, rec: &Rec, command: &Command) -> bool
    ensures { result ≡ is_walk realm.now rec.now (call_of command.now) }
{
    walked_address(realm, rec, &command.call()).is_some()
}

/// What is answered to a command of a CPU inside the REC. Where the command reads an entry, the RIPAS is that entry's.
pub fn answer_inside(
    realm: &Realm,
    rec: &Rec,
    call: &Call,
    ripas: Option<Ripas>,
) -> Result<RecStep, Refusal>
    requires { IsTrue (is_walk realm.now rec.now call.now) → IsTrue (is_some ripas) }
    ensures answer { (s : State) (cpu : ℕ) → IsTrue (is_inside s cpu) → IsHeld s (rec_inside s cpu) realm.now rec.now
        → IfSome ripas (IsRipasRead s rec.now.owner call.now)
        → answer_at rec.now.owner (rec_inside s cpu) result ≡ outcome s cpu call.now }
    ensures fits { IfOk result IsStep }
{
    if let Call::Exit = call {
        return Ok(answer_to_exit(rec));
    }
    if !rec.can_call() {
        return Err(Refusal::Misplaced(misplacement(true, caller_of(call))));
    }
    answer_to_call(realm, call, ripas)
}

/// What is answered to a CPU inside the REC that asks for an extension of a measurement: the extension, which then is all
/// that is done, or the refusal.
pub fn extension_inside(rec: &Rec, index: u64, size: u64) -> Result<Extension, Refusal>
    ensures { (s : State) (cpu : ℕ) (values : List ℕ) → IsTrue (is_inside s cpu) → s.rec (rec_inside s cpu) ≡ Some rec.now
        → extension_at rec.now.owner values result ≡ outcome s cpu (MeasurementExtend index size values) }
{
    if !rec.can_call() {
        return Err(Refusal::Misplaced(Condition::OwnPending));
    }
    extension_of(index, size)
}

/// What is answered to a realm's call of a REC that doesn't wait to leave. Where the call reads an entry, the RIPAS is that
/// entry's.
#[tactic(auto, unfolding(rmm_spec::specs::Step::RealmCall::answer_to_realm))]
pub fn answer_to_call(realm: &Realm, call: &Call, ripas: Option<Ripas>) -> Result<RecStep, Refusal>
    requires { IsTrue (is_read realm.now call.now) → IsTrue (is_some ripas) }
    ensures answer { (s : State) (address : ℕ) → realm_at s (rec_at s address).owner ≡ realm.now
        → IfSome ripas (IsRipasRead s (rec_at s address).owner call.now)
        → answer_at (rec_at s address).owner address result ≡ answer_to_realm s address call.now }
    ensures fits { IfOk result IsStep }
{
    match call {
        Call::MeasurementRead { index } => measurement_read(realm, *index),
        Call::MeasurementExtend {
            index,
            size,
            values,
        } => measurement_extend(*index, *size, values),
        Call::RealmConfig => config_of(realm),
        Call::IpaStateSet { base, top, ripas } => ipa_state_set(realm, *base, *top, *ripas),
        Call::IpaStateGet { ipa } => ipa_state_get(realm, *ipa, ripas),
        Call::HostCall { imm } => host_call(*imm),
        Call::CpuOff => cpu_off(),
        Call::SystemOff => system_off(),
        _ => Err(Refusal::Misplaced(Condition::OwnOutside)),
    }
}

/// The REC that the CPU is inside gives a command. Where the command reads an entry, the RIPAS is that entry's.
pub fn realm_call(
    realm: &mut Realm,
    rec: &mut Rec,
    command: &Command,
    ripas: Option<Ripas>,
) -> Reply
    requires { IsTrue (is_walk realm.old rec.old (call_of command.now)) → IsTrue (is_some ripas) }
    ensures step { (s : State) (cpu : ℕ) → IsTrue (is_inside s cpu) → IsHeld s (rec_inside s cpu) realm.old rec.old
        → IfSome ripas (IsRipasRead s rec.old.owner (call_of command.now))
        → Step s cpu command.now result (with_rec (with_realm s rec.old.owner realm.new) (rec_inside s cpu) rec.new) }
    ensures refused_realm { IsTrue (is_refusal result) → realm.new ≡ realm.old }
    ensures refused_rec { IsTrue (is_refusal result) → rec.new ≡ rec.old }
{
    match answer_inside(realm, rec, &command.call(), ripas) {
        Ok(step) => step.apply(realm, rec),
        Err(refusal) => refusal.reply(),
    }
}
