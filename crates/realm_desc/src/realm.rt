//! A realm, and what the commands on realms and RECs do to it.

ghost use Rattle.std.specs.Prelude.{◌≡◌, ◌==◌, ◌&&◌, nat_lt, IsTrue};
ghost use Rattle.rmm_spec.specs.declared.change.RealmUpdate.TheVariants.{Activated, TurnedOff, RecCounted};
ghost use Rattle.rmm_spec.specs.Lookup as spec;
ghost use Rattle.rmm_spec.specs.Change.{new_realm, realm_updated};
ghost use Rattle.rmm_spec.specs.Step.Terms.{is_space};
ghost use Rattle.rmm_spec.specs.Walk.{full, half, is_protected};
ghost use Rattle.realm_desc.specs.View.{width_of, level_of, algorithm_number};

use crate::hash_algorithm::HashAlgorithm;
use crate::space::Space;
use crate::{Rem, Rim, begin, extend_words};
use memory_map::{GRANULE_BYTES, Pa};
use rmm_spec::{FunctionId, RealmState};
use std::marker::Model;

/// How many RECs a realm can have in all.
pub const RECS: u64 = 8;

/// A realm, as its descriptor says (DEN0137, RD).
#[tactic(auto, unfolding(crate::specs::View::realm_record, crate::specs::View::realm_fields))]
#[derive(Clone, Copy)]
pub struct Realm {
    pub state: RealmState,
    pub space: Space,
    pub vmid: u8,
    pub algorithm: HashAlgorithm,
    /// Where the root of its translation tables lies.
    pub root: Pa,
    /// The index that its next REC has.
    pub next_index: u8,
    pub rim: Rim,
    pub rems: [Rem; 4],
}

impl Model for Realm {
    ghost use Rattle.rmm_spec.specs.State.{RealmRecord};

    ghost Value = { RealmRecord };

    ghost use Rattle.realm_desc.specs.View.{realm_record, realm_fields, realm_fields-realm_record};

    ghost view = { realm_record };

    ghost inverse = { realm_fields };

    ghost inverse_ok = { λ a h. realm_fields-realm_record a };
}

#[tactic(auto, unfolding(crate::specs::View::realm_record))]
impl Realm {
    /// A realm that was just made, with no REC yet.
    pub fn new(root: Pa, space: Space, vmid: u8, algorithm: HashAlgorithm) -> Self
        ensures { result ≡ new_realm root (width_of space) (level_of space) vmid (algorithm_number algorithm) }
    {
        Realm {
            state: RealmState::New,
            space,
            vmid,
            algorithm,
            root,
            next_index: 0,
            rim: begin(
                u64::from(space.width()),
                u64::from(space.start_level()),
                u64::from(algorithm.number()),
            ),
            rems: [Rem::start(u64::from(algorithm.number())); 4],
        }
    }

    /// A realm that was just made, from the words of the command that makes it.
    pub fn from_words(root: u64, width: u8, level: u8, vmid: u8, algo: u8) -> Self
        requires space { IsTrue (is_space width level) }
        requires algo { IsTrue (spec.is_hash algo) }
        ensures { result ≡ new_realm root width level vmid algo }
    {
        let Some(space) = Space::of(u64::from(width), u64::from(level)) else {
            unreachable!()
        };
        let Some(algorithm) = HashAlgorithm::of(u64::from(algo)) else {
            unreachable!()
        };
        Realm::new(Pa::new(root), space, vmid, algorithm)
    }

    /// Whether it may still be built, and may not run.
    pub fn is_new(&self) -> bool
        ensures { result ≡ spec.is_new self.now }
    {
        self.state == RealmState::New
    }

    /// Whether it was turned off.
    pub fn is_system_off(&self) -> bool
        ensures { result ≡ spec.is_system_off self.now }
    {
        self.state == RealmState::SystemOff
    }

    /// Lets it run, and be built no further.
    #[tactic(auto, unfolding(crate::specs::View::realm_record, rmm_spec::specs::Change::realm_updated))]
    pub fn activate(&mut self)
        ensures { self.new ≡ realm_updated Activated self.old }
    {
        self.state = RealmState::Active;
    }

    /// Turns it off: none of its RECs may be entered again.
    #[tactic(auto, unfolding(crate::specs::View::realm_record, rmm_spec::specs::Change::realm_updated))]
    pub fn turn_off(&mut self)
        ensures { self.new ≡ realm_updated TurnedOff self.old }
    {
        self.state = RealmState::SystemOff;
    }

    /// The level of its root.
    pub fn start_level(&self) -> u8
        ensures { result ≡ self.now.start_level }
    {
        self.space.start_level()
    }

    /// Where its address space ends.
    pub fn space_end(&self) -> u64
        ensures { result ≡ full self.now }
    {
        match self.space {
            Space::Bits39 => 1 << 39,
            Space::Bits48 => 1 << 48,
        }
    }

    /// Where the protected half of its address space ends.
    pub fn protected_end(&self) -> u64
        ensures { result ≡ half self.now }
    {
        match self.space {
            Space::Bits39 => 1 << 38,
            Space::Bits48 => 1 << 47,
        }
    }

    /// Whether a page of its protected half begins there.
    #[tactic(auto, using(std::proofs::lemmas::Bool::Decides::nat_tests))]
    pub fn protects(&self, ipa: u64) -> bool
        ensures { result ≡ is_protected self.now ipa }
    {
        ipa % GRANULE_BYTES == 0 && ipa < self.protected_end()
    }

    /// Whether its next REC has this index: indexes rise by one and stay below 8.
    pub fn takes_index(&self, index: u64) -> bool
        ensures { result ≡ (index == self.now.next_index && nat_lt index 8) }
    {
        self.is_next_index(index) && index < RECS
    }

    /// Whether it is the next REC's index.
    pub fn is_next_index(&self, index: u64) -> bool
        ensures { result ≡ (index == self.now.next_index) }
    {
        index == u64::from(self.next_index)
    }

    /// Counts and measures one REC more.
    #[tactic(auto, unfolding(crate::specs::View::realm_record, rmm_spec::specs::Change::realm_updated, rmm_spec::specs::Function::number_of))]
    pub fn count_rec(&mut self, index: u8, flags: u64)
        requires { IsTrue (index == self.old.next_index && nat_lt index 8) }
        ensures { self.new ≡ realm_updated (RecCounted index flags) self.old }
    {
        self.next_index += 1;
        let function = FunctionId::RecCreate.number();
        self.rim = extend_words(&self.rim, &[function, u64::from(index), flags]);
    }
}
