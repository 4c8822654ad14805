//! The granule locks of a machine.

ghost use Rattle.std.specs.Prelude.{◌≡◌, vec_len, IsTrue, IfOk, None};
ghost use Rattle.std.specs.List.{All};
ghost use Rattle.rmm_spec.specs.Lookup.{is_granule};
ghost use Rattle.rmm_spec.specs.Cell.{put};
ghost use Rattle.world.specs.Granules.{holder_of};
ghost use Rattle.world.specs.Kept.{freed_all};

use crate::cells::place;
use memory_map::{Config, Pa};
use std::alloc::{AllocError, Global};

/// The CPU that holds the lock of each granule, in the order of their addresses.
#[derive(Drop)]
pub(crate) struct Locks {
    pub(crate) holders: Vec<Option<u8>>,
}

#[tactic(auto, unfolding(crate::specs::Granules::holder_of))]
impl Locks {
    /// Nobody holds a lock.
    pub(crate) fn new(alloc: Global, config: &Config) -> Result<Locks, AllocError>
        ensures size { IfOk result (λ locks. vec_len locks.holders ≡ config.now.granules) }
        ensures free { IfOk result (λ locks. holder_of locks ≡ (λ _. None)) }
    {
        let granules = config.granules() as usize;
        let holders = vec![in alloc; None; granules]?;
        Ok(Locks { holders })
    }

    /// Who holds a granule's lock.
    pub(crate) fn holder(&self, pa: Pa) -> Option<u8>
        requires { IsTrue (is_granule (vec_len self.now.holders) pa) }
        ensures { result ≡ holder_of self.now pa }
    {
        self.holders[place(pa)]
    }

    /// Gives a granule's lock to a CPU, or to nobody.
    pub(crate) fn set(&mut self, pa: Pa, holder: Option<u8>)
        requires { IsTrue (is_granule (vec_len self.old.holders) pa) }
        ensures size { vec_len self.new.holders ≡ vec_len self.old.holders }
        ensures holders { holder_of self.new ≡ put (holder_of self.old) pa holder }
    {
        self.holders[place(pa)] = holder;
    }

    /// Frees these locks.
    pub(crate) fn free_all(&mut self, taken: &[Pa])
        requires { All (λ pa. IsTrue (is_granule (vec_len self.old.holders) pa)) taken.now }
        ensures size { vec_len self.new.holders ≡ vec_len self.old.holders }
        ensures holders { holder_of self.new ≡ freed_all taken.now (holder_of self.old) }
    {
        for pa in taken {
            self.set(*pa, None);
        }
    }
}
