//! A realm's record and a REC's as they are made, and what becomes of them, where that may be: it always is in accepted steps.

ghost use Rattle.std.specs.Prelude.{IsTrue};
ghost use Rattle.rmm_spec.specs.Applicable.{IsRealmUpdate};
ghost use Rattle.realm_desc.specs.Updates.{IsRecUpdate};

use memory_map::Pa;
use realm_desc::{HashAlgorithm, Realm, Rec, Space};
use rmm_spec::{RealmUpdate, RecUpdate};

/// A realm that was just made.
pub(crate) fn new_realm(root: u64, width: u8, level: u8, vmid: u8, algo: u8) -> Option<Realm> {
    let space = Space::of(u64::from(width), u64::from(level))?;
    let algorithm = HashAlgorithm::of(u64::from(algo))?;
    Some(Realm::new(Pa::new(root), space, vmid, algorithm))
}

/// A REC that was just made.
pub(crate) fn new_rec(rd: u64, index: u8, flags: u64, aux0: u64, aux1: u64) -> Option<Rec> {
    if aux0 == aux1 {
        return None;
    }
    let made = Rec::new(Pa::new(rd), index, flags, Pa::new(aux0), Pa::new(aux1));
    Some(made)
}

/// What becomes of a realm's record.
pub(crate) fn realm_updated(update: RealmUpdate, realm: &Realm) -> Option<Realm> {
    let mut updated = *realm;
    if let RealmUpdate::RecCounted { mpidr, flags } = update {
        if !updated.takes_index(u64::from(mpidr)) {
            return None;
        }
        updated.count_rec(mpidr, flags);
        return Some(updated);
    }
    if !can_update_realm(update) {
        return None;
    }
    updated.update(update);
    Some(updated)
}

/// What becomes of a REC's record.
pub(crate) fn rec_updated(update: RecUpdate, rec: &Rec) -> Option<Rec> {
    let mut updated = *rec;
    if !can_update_rec(&updated, update) {
        return None;
    }
    updated.update(update);
    Some(updated)
}

// Whether a realm can be updated so.
fn can_update_realm(update: RealmUpdate) -> bool
    ensures { IsTrue result → IsRealmUpdate update }
{
    match update {
        RealmUpdate::MeasurementExtended {
            index: 1..=4,
            size: 0..=0x40,
            ..
        } => true,
        RealmUpdate::RecCounted { .. } | RealmUpdate::MeasurementExtended { .. } => false,
        RealmUpdate::Activated
        | RealmUpdate::TurnedOff
        | RealmUpdate::PageMeasured { .. }
        | RealmUpdate::StretchMeasured { .. } => true,
    }
}

// Whether the REC can be updated so.
#[tactic(auto, unfolding(realm_desc::specs::View::rec_record))]
fn can_update_rec(rec: &Rec, update: RecUpdate) -> bool
    ensures { IsTrue result → IsRecUpdate rec.now update }
{
    match update {
        RecUpdate::RequestMoved { .. } => rec.request.is_some(),
        _ => true,
    }
}
