//! What is answered to a CPU that is outside of RECs: the commands of a host.

ghost use Rattle.std.specs.Prelude.{◌≡◌};
ghost use Rattle.command_rows.specs.Answers.{IsOwned, outside_answer};

use crate::data::{DataCreate, data_create, data_create_unknown, data_destroy};
use crate::granule::{granule_delegate, granule_undelegate};
use crate::realm::{RealmCreate, realm_activate, realm_create, realm_destroy};
use crate::rec::{RecCreate, rec_create, rec_destroy, rec_enter};
use crate::ripas::{rtt_init_ripas, rtt_set_ripas};
use crate::sight::Sight;
use crate::table::{rtt_create, rtt_read_entry, rtt_remove};
use crate::unprotected::{rtt_map_unprotected, rtt_unmap_unprotected};
use rmm_spec::{Accepted, Call, Condition, Refusal};

/// What a call of the CPU is answered in the state of the sight.
#[tactic(auto, unfolding(crate::specs::Answers::outside_answer, rmm_spec::specs::Step::answer_of, rmm_spec::specs::Call::class_of))]
pub fn answer_outside<S: Sight>(sight: &S, cpu: u8, call: &Call) -> Result<Accepted, Refusal>
    requires owned { IsOwned (S.state sight.now) call.now }
    ensures { result ≡ outside_answer (S.uses_vmid sight.now) (S.has_recs sight.now) (S.state sight.now) cpu call.now }
{
    match *call {
        Call::GranuleDelegate { granule } => granule_delegate(sight, granule),
        Call::GranuleUndelegate { granule } => granule_undelegate(sight, granule),
        Call::RealmActivate { rd } => realm_activate(sight, rd),
        Call::RealmCreate {
            rd,
            root,
            width,
            level,
            vmid,
            algo,
        } => realm_create(
            sight,
            RealmCreate {
                rd,
                root,
                width,
                level,
                vmid,
                algo,
            },
        ),
        Call::RealmDestroy { rd } => realm_destroy(sight, rd),
        Call::RecCreate {
            rd,
            rec,
            mpidr,
            flags,
            aux0,
            aux1,
        } => rec_create(
            sight,
            RecCreate {
                rd,
                rec,
                mpidr,
                flags,
                aux0,
                aux1,
            },
        ),
        Call::RecDestroy { rec } => rec_destroy(sight, rec),
        Call::RecEnter { rec } => rec_enter(sight, cpu, rec),
        Call::DataCreate {
            rd,
            granule,
            ipa,
            source,
            flags,
            digest,
        } => data_create(
            sight,
            DataCreate {
                rd,
                granule,
                ipa,
                source,
                flags,
                digest,
            },
        ),
        Call::DataCreateUnknown { rd, granule, ipa } => data_create_unknown(
            sight, rd, granule, ipa,
        ),
        Call::DataDestroy { rd, ipa } => data_destroy(sight, rd, ipa),
        Call::RttCreate {
            rd,
            rtt,
            ipa,
            level,
        } => rtt_create(sight, rd, rtt, ipa, level),
        Call::RttRemove {
            removal,
            rd,
            ipa,
            level,
        } => rtt_remove(sight, removal, rd, ipa, level),
        Call::RttMapUnprotected { rd, ipa, page } => rtt_map_unprotected(sight, rd, ipa, page),
        Call::RttReadEntry { rd, ipa, level } => rtt_read_entry(sight, rd, ipa, level),
        Call::RttUnmapUnprotected { rd, ipa } => rtt_unmap_unprotected(sight, rd, ipa),
        Call::RttInitRipas { rd, base, top } => rtt_init_ripas(sight, rd, base, top),
        Call::RttSetRipas { rd, rec, base, top } => rtt_set_ripas(sight, rd, rec, base, top),
        _ => Err(Refusal::Misplaced(Condition::OwnInside)),
    }
}
