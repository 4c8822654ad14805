//! The steps of a CPU that is inside a REC, decided over the records where they lie, so that no realm is copied.

ghost use Rattle.std.specs.Prelude.{◌≡◌};

use crate::machine::Machine;
use crate::reply::{is_done, is_ok, is_refusal};
use command_rows::Sight;
use granule_cells::CpuPlace;
use memory_map::{Pa, entry_ripas};
use realm_desc::{Realm, Rec};
use rec_steps::{RecStep, answer_inside, extension_inside, walked_address};
use rmi_view::{CommandRef, ReplyRef};
use rmm_spec::{Call, RealmChange, RealmUpdate, RecChange, Refusal, Ripas};

impl Machine {
    ghost use Rattle.std.specs.Prelude.{◌≡◌, Some, IfSome, IsTrue, is_some};
    ghost use Rattle.rmm_spec.specs.Applicable.{CanApply};
    ghost use Rattle.rmm_spec.specs.Call.{call_of};
    ghost use Rattle.rmm_spec.specs.Change.{changed};
    ghost use Rattle.rmm_spec.specs.Lookup.{is_inside, rec_inside};
    ghost use Rattle.rmm_spec.specs.State.{State, RealmRecord, RecRecord};
    ghost use Rattle.rmm_spec.specs.Step.{outcome};
    ghost use Rattle.rec_steps.specs.Answers.{answer_at, change_at, is_walk, IsRipasRead};
    ghost use Rattle.rmi_view.specs.Seen.{command_seen, reply_seen};
    ghost use Rattle.spec_machine.specs.Offers.{TakesReply};
    ghost use Rattle.spec_machine.specs.View.{state_of};

    /// Takes one step of the CPU, which is inside the REC. An extension of a measurement is made as it is decided, since the
    /// step that it is takes longer to hand over than to make.
    #[inline(never)]
    pub(crate) fn offer_inside(
        &mut self,
        cpu: u8,
        address: Pa,
        call: &Call,
        command: CommandRef<'_>,
        reply: ReplyRef<'_>,
    ) -> bool
        requires inside { IsTrue (is_inside (state_of self.old) cpu) }
        requires at { address ≡ rec_inside (state_of self.old) cpu }
        requires call { call.now ≡ call_of (command_seen command) }
        ensures { TakesReply (outcome (state_of self.old) cpu (call_of (command_seen command.entry)))
            (state_of self.old) (reply_seen reply.entry) result (state_of self.new) }
    {
        let Call::MeasurementExtend {
            index,
            size,
            values,
        } = call
        else {
            return self.step_inside(cpu, address, call, command, reply);
        };
        let rec = self.rec_here(cpu, address);
        let Ok(extension) = extension_inside(rec, *index, *size) else {
            return self.step_inside(cpu, address, call, command, reply);
        };
        if !is_done(reply) {
            return false;
        }
        let update = RealmUpdate::MeasurementExtended {
            index: extension.index,
            size: extension.size,
            values: *values,
        };
        let rd = owner(rec);
        self.update_records(Some(RealmChange { rd, update }), None);
        true
    }

    // Takes one step of the CPU, by what the records answer.
    #[inline(never)]
    fn step_inside(
        &mut self,
        cpu: u8,
        address: Pa,
        call: &Call,
        command: CommandRef<'_>,
        reply: ReplyRef<'_>,
    ) -> bool
        requires inside { IsTrue (is_inside (state_of self.old) cpu) }
        requires at { address ≡ rec_inside (state_of self.old) cpu }
        requires call { call.now ≡ call_of (command_seen command) }
        ensures { TakesReply (outcome (state_of self.old) cpu (call_of (command_seen command.entry)))
            (state_of self.old) (reply_seen reply.entry) result (state_of self.new) }
    {
        let rec = self.rec_here(cpu, address);
        let rd = owner(rec);
        let answer = self.answer_here(cpu, rec, call);
        match &answer {
            Err(refusal) => is_refusal(reply, *refusal),
            Ok(step) => {
                if !is_ok(reply, &step.words) {
                    return false;
                }
                self.update(rd, address.address(), step);
                true
            }
        }
    }

    // Makes what the step changes of the realm and the REC at these addresses.
    fn update(&mut self, rd: u64, rec: u64, step: &RecStep)
        requires { CanApply (state_of self.old) (change_at rd rec step.now.realm step.now.rec) }
        ensures { state_of self.new ≡ changed (state_of self.old) (change_at rd rec step.now.realm step.now.rec) }
    {
        match (step.realm, step.rec) {
            (None, None) => {}
            (realm, update) => self.update_records(
                realm.map(|update| RealmChange { rd, update }),
                update.map(|update| RecChange { rec, update }),
            ),
        }
    }

    /// The REC that the CPU is inside, where it is inside one.
    pub(crate) fn rec_inside(&self, cpu: u8) -> Option<Pa>
        ensures is { is_some result ≡ is_inside (state_of self.now) cpu }
        ensures at { IfSome result (λ rec. rec ≡ rec_inside (state_of self.now) cpu) }
    {
        match self.granules.places.of(cpu) {
            CpuPlace::Inside { rec, .. } => Some(rec),
            CpuPlace::Outside => None,
        }
    }

    // The REC that the CPU is inside.
    fn rec_here(&self, cpu: u8, address: Pa) -> &Rec
        requires inside { IsTrue (is_inside (state_of self.now) cpu) }
        requires at { address ≡ rec_inside (state_of self.now) cpu }
        ensures { (state_of self.now).rec (rec_inside (state_of self.now) cpu) ≡ Some result.now }
    {
        let Some(rec) = self.rec_in(address.address()) else {
            unreachable!()
        };
        rec
    }

    // What the records of the REC that the CPU is inside and of its realm answer.
    fn answer_here(&self, cpu: u8, rec: &Rec, call: &Call) -> Result<RecStep, Refusal>
        requires inside { IsTrue (is_inside (state_of self.now) cpu) }
        requires held { (state_of self.now).rec (rec_inside (state_of self.now) cpu) ≡ Some rec.now }
        ensures { answer_at rec.now.owner (rec_inside (state_of self.now) cpu) result ≡ outcome (state_of self.now) cpu call.now }
    {
        let rd = owner(rec);
        let Some(realm) = self.realm_in(rd) else {
            unreachable!()
        };
        let ripas = self.ripas_read(realm, rec, call);
        answer_inside(realm, rec, call, ripas)
    }

    // The RIPAS of the entry that the call reads, where it reads one.
    fn ripas_read(&self, realm: &Realm, rec: &Rec, call: &Call) -> Option<Ripas>
        ensures read { IfSome result (IsRipasRead (state_of self.now) rec.now.owner call.now) }
        ensures some { IsTrue (is_walk realm.now rec.now call.now) → IsTrue (is_some result) }
    {
        match walked_address(realm, rec, call) {
            Some(ipa) => Some(entry_ripas(self.walk(owner(rec), ipa, 3).entry)),
            None => None,
        }
    }
}

// A REC's realm, by the address of its descriptor.
#[tactic(auto, unfolding(realm_desc::specs::View::rec_record))]
fn owner(rec: &Rec) -> u64
    ensures { result ≡ rec.now.owner }
{
    rec.owner.address()
}
