//! Where each CPU is.

ghost use Rattle.std.specs.Prelude.{◌≡◌, vec_len};

use granule_cells::CpuPlace;
use std::alloc::{AllocError, Global};

/// How many CPUs a number of one byte tells apart.
pub(crate) const CPUS: usize = 256;

/// At each CPU's number its place.
#[derive(Drop)]
pub struct Places {
    pub(crate) places: Vec<CpuPlace>,
    ghost cpus: { vec_len places ≡ 256 },
}

impl Places {
    ghost use Rattle.std.specs.Prelude.{◌≡◌, IfOk};
    ghost use Rattle.rmm_spec.specs.Cell.{put};
    ghost use Rattle.rmm_spec.specs.Shape as shape;
    ghost use Rattle.rmm_laws.specs.Whole.{places_left};
    ghost use Rattle.granule_cells.specs.Seen.{place_of};
    ghost use Rattle.spec_machine.specs.Whole.{places_of};

    /// Every CPU is outside.
    pub(crate) fn new(alloc: Global) -> Result<Places, AllocError>
        ensures { IfOk result (λ p. places_of p ≡ (λ _. shape.Outside)) }
    {
        let places = vec![in alloc; CpuPlace::Outside; CPUS]?;
        Ok(Places { places })
    }

    /// The CPU's place.
    pub(crate) fn of(&self, cpu: u8) -> CpuPlace
        ensures { place_of result ≡ places_of self.now cpu }
    {
        self.places[usize::from(cpu)]
    }

    /// The CPU is at another place.
    pub(crate) fn set(&mut self, cpu: u8, place: CpuPlace)
        ensures { places_of self.new ≡ put (places_of self.old) cpu (place_of place) }
    {
        self.places[usize::from(cpu)] = place;
    }

    /// The CPU is outside, where it is one.
    pub(crate) fn leave(&mut self, cpu: Option<u8>)
        ensures { places_of self.new ≡ places_left (places_of self.old) cpu }
    {
        if let Some(cpu) = cpu {
            self.set(cpu, CpuPlace::Outside);
        }
    }
}
