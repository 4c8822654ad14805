//! What is answered to a CPU that is inside a REC: the calls of a realm, and the exit to its host.

ghost use Rattle.std.specs.Prelude.{◌≡◌, IfSome, IsTrue, is_some};
ghost use Rattle.rmm_spec.specs.declared.tag.Tag.TheVariants as tag;
ghost use Rattle.rmm_spec.specs.Lookup as look;
ghost use Rattle.rmm_spec.specs.State.{RealmRecord};
ghost use Rattle.rmm_spec.specs.Step.RealmCall as spec;
ghost use Rattle.rec_steps.specs.Answers.{is_read, IsRipasRead};
ghost use Rattle.command_rows.specs.Answers.{IsInside, inside_answer, realm_answer};

use crate::reply::accepted_at;
use crate::sight::Sight;
use command_words::{Caller, caller_of};
use memory_map::entry_ripas;
use realm_desc::Rec;
use rec_steps::{answer_to_call, answer_to_exit};
use rmm_spec::{Accepted, Call, Condition, Refusal, Ripas};

/// What a call is answered in the state of the sight, given from inside of the REC.
#[tactic(auto, unfolding(crate::specs::Answers::IsInside, crate::specs::Answers::inside_answer))]
#[inline(never)]
pub fn answer_inside<S: Sight>(sight: &S, rec: u64, call: &Call) -> Result<Accepted, Refusal>
    requires inside { IsInside (S.state sight.now) rec call.now }
    ensures { result ≡ inside_answer (S.state sight.now) rec call.now }
{
    match caller_of(call) {
        Caller::Host => Err(Refusal::Misplaced(Condition::OwnOutside)),
        Caller::Realm => realm_called(sight, rec, call),
        Caller::Rec => left(sight, rec),
    }
}

// A realm calls from the REC, which may wait to leave.
fn realm_called<S: Sight>(sight: &S, address: u64, call: &Call) -> Result<Accepted, Refusal>
    requires rec { IsTrue (look.has_tag (S.state sight.now) address tag.Rec) }
    requires realm { IsTrue (look.has_tag (S.state sight.now) (look.rec_at (S.state sight.now) address).owner tag.Rd) }
    ensures { result ≡ realm_answer (S.state sight.now) address call.now }
{
    let rec = rec_at(sight, address);
    if !rec.can_call() {
        return Err(Refusal::Misplaced(Condition::OwnPending));
    }
    let rd = owner(&rec);
    let Some(realm) = sight.realm(rd) else {
        unreachable!()
    };
    let ripas = ripas_read(sight, rd, call);
    accepted_at(rd, address, answer_to_call(&realm, call, ripas))
}

// The REC leaves to its host.
fn left<S: Sight>(sight: &S, address: u64) -> Result<Accepted, Refusal>
    requires { IsTrue (look.has_tag (S.state sight.now) address tag.Rec) }
    ensures { result ≡ spec.rec_exit (S.state sight.now) address }
{
    let rec = rec_at(sight, address);
    accepted_at(owner(&rec), address, Ok(answer_to_exit(&rec)))
}

// The REC of its own granule.
#[tactic(auto, unfolding(rmm_spec::specs::Lookup::rec_at))]
fn rec_at<S: Sight>(sight: &S, address: u64) -> Rec
    requires { IsTrue (look.has_tag (S.state sight.now) address tag.Rec) }
    ensures { result ≡ look.rec_at (S.state sight.now) address }
{
    let Some(rec) = sight.rec(address) else {
        unreachable!()
    };
    rec
}

// The RIPAS of the entry that a realm's call reads, where it reads one.
fn ripas_read<S: Sight>(sight: &S, rd: u64, call: &Call) -> Option<Ripas>
    ensures read { IfSome result (IsRipasRead (S.state sight.now) rd call.now) }
    ensures some { (realm : RealmRecord) → IsTrue (is_read realm call.now) → IsTrue (is_some result) }
{
    match call {
        Call::IpaStateGet { ipa } => Some(entry_ripas(sight.walk(rd, *ipa, 3).entry)),
        _ => None,
    }
}

/// The realm that a REC belongs to, by the address of its descriptor.
#[tactic(auto, unfolding(realm_desc::specs::View::rec_record))]
pub(crate) fn owner(rec: &Rec) -> u64
    ensures { result ≡ rec.now.owner }
{
    rec.owner.address()
}
