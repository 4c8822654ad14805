//! A realm in the cell of its granule.

use realm_desc::Realm;
use rmm_spec::RealmUpdate;
use std::alloc::{AllocError, Global};
use std::marker::Model;

/// A realm's descriptor (DEN0137, RD). It lies on the heap, so that the cells of other granules need no room for one.
#[derive(Drop)]
pub struct Descriptor {
    realm: Box<Realm>,
}

impl Model for Descriptor {
    ghost use Rattle.rmm_spec.specs.State.{RealmRecord};

    ghost Value = { RealmRecord };

    ghost view = { λ d. d.realm.value };
}

impl Descriptor {
    ghost use Rattle.std.specs.Prelude.{◌≡◌, ◌==◌, ◌&&◌, nat_lt, IfOk, IsTrue};
    ghost use Rattle.rmm_spec.specs.declared.change.RealmUpdate.TheVariants.{RecCounted};
    ghost use Rattle.rmm_spec.specs.Applicable.{IsRealmUpdate};
    ghost use Rattle.rmm_spec.specs.Change.{realm_updated};

    /// The descriptor of a realm.
    pub fn new(alloc: Global, realm: Realm) -> Result<Descriptor, AllocError>
        ensures { IfOk result (λ descriptor. descriptor ≡ realm) }
    {
        match Box::new(alloc, realm) {
            Ok(realm) => Ok(Descriptor { realm }),
            Err(_) => Err(AllocError),
        }
    }

    /// The realm as it is now.
    pub fn realm(&self) -> &Realm
        ensures { result.now ≡ self.now }
    {
        &self.realm
    }

    /// Updates the realm where it lies, in any way but that it counts a REC.
    pub fn update(&mut self, update: RealmUpdate)
        requires { IsRealmUpdate update }
        ensures { self.new ≡ realm_updated update self.old }
    {
        self.realm.update(update);
    }

    /// Counts and measures one REC more.
    pub fn count_rec(&mut self, index: u8, flags: u64)
        requires { IsTrue (index == self.old.next_index && nat_lt index 8) }
        ensures { self.new ≡ realm_updated (RecCounted index flags) self.old }
    {
        self.realm.count_rec(index, flags);
    }
}
