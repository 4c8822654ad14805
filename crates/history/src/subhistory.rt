//! The events of each CPU.

ghost use Rattle.std.specs.Prelude.{◌≡◌, ℕ, ◌+◌, ◌<◌, ◌≤◌, ◌↔◌, [], ◌∷◌, ◌++◌, length, slice_index, slice_index_or, IsTrue, IsOk, IfOk, OnOk, MatchOption};
ghost use Rattle.rmm_spec.specs.HistoryText.{rank};
ghost use Rattle.history.specs.EventRef.{event_seen};
ghost use Rattle.history.specs.Room.{spare};
ghost use Rattle.history.specs.declared.subhistory.Subhistory.{Subhistory};

use crate::event_ref::EventRef;
use std::alloc::{AllocError, Global};

/// The places of a CPU's events. Calls and returns take turns, so that call n stands at 2n and its return behind it.
#[derive(Drop)]
pub struct Subhistory {
    pub places: Vec<u32>,
}

impl Subhistory {
    /// No event yet.
    pub fn new(alloc: Global) -> Subhistory
        ensures { result.places.items ≡ [] }
    {
        Subhistory {
            places: Vec::new(alloc),
        }
    }

    /// Whether an event of this CPU is its next.
    pub fn takes(&self, event: EventRef<'_>) -> bool
        ensures { IsTrue result ↔ (rank (event_seen event.entry) ≡ length self.now.places.items) }
    {
        let rank = match event {
            EventRef::Called { number, .. } => 2 * number as usize,
            EventRef::Returned { number, .. } => 2 * number as usize + 1,
        };
        rank == self.places.len()
    }

    /// Makes room for one more event.
    pub fn make_room(&mut self) -> Result<(), AllocError>
        ensures kept { self.new.places.items ≡ self.old.places.items }
        ensures ok { OnOk result (1 ≤ spare self.new.places) }
        ensures succeeds { 1 ≤ spare self.old.places → IsOk result }
        ensures grows { spare self.old.places ≤ spare self.new.places }
    {
        self.places.reserve(1)
    }

    /// Enters the place of the next event, for which there is room.
    pub fn enter(&mut self, place: u32)
        requires { 1 ≤ spare self.old.places }
        ensures entered { self.new.places.items ≡ self.old.places.items ++ place ∷ [] }
        ensures left { spare self.old.places ≤ spare self.new.places + 1 }
    {
        self.places.push_reserved(place);
    }

    /// The rank of the event at a place.
    pub fn rank_of(&self, place: u32) -> usize
        requires rising { (i j : ℕ) → i ≤ j → j < length self.now.places.items
            → slice_index self.now.places.items i ≤ slice_index self.now.places.items j }
        requires found { (ranked : ℕ) × (ranked < length self.now.places.items) × (slice_index self.now.places.items ranked ≡ place) }
        ensures within { result < length self.now.places.items }
        ensures place { slice_index self.now.places.items result ≡ place }
    {
        match self.places.binary_search(&place) {
            Ok(rank) => rank,
            Err(_) => unreachable!(),
        }
    }

    /// The place of a call.
    pub fn called(&self, number: u32) -> Option<u32>
        ensures { let rank = number + number in MatchOption result (length self.now.places.items ≤ rank)
            (λ place. (rank < length self.now.places.items) × (place ≡ slice_index self.now.places.items rank)) }
    {
        self.places.get(2 * number as usize).copied()
    }

    /// The place of a call's return.
    pub fn returned(&self, number: u32) -> Option<u32>
        ensures { let rank = number + number + 1 in MatchOption result (length self.now.places.items ≤ rank)
            (λ place. (rank < length self.now.places.items) × (place ≡ slice_index self.now.places.items rank)) }
    {
        self.places.get(2 * number as usize + 1).copied()
    }
}

/// Makes room for one more event at each subhistory.
pub fn make_room_at(subhistories: &mut [Subhistory; 8]) -> Result<(), AllocError>
    ensures counted { length subhistories.new ≡ 8 }
    ensures kept { (cpu : ℕ) (other : Subhistory) → cpu < 8
        → (slice_index_or subhistories.new cpu other).places.items ≡ (slice_index_or subhistories.old cpu other).places.items }
    ensures ok { OnOk result ((cpu : ℕ) (other : Subhistory) → cpu < 8 → 1 ≤ spare (slice_index_or subhistories.new cpu other).places) }
    ensures succeeds { ((cpu : ℕ) (other : Subhistory) → cpu < 8 → 1 ≤ spare (slice_index_or subhistories.old cpu other).places) → IsOk result }
    ensures grows { (cpu : ℕ) (other : Subhistory) → cpu < 8
        → spare (slice_index_or subhistories.old cpu other).places ≤ spare (slice_index_or subhistories.new cpu other).places }
{
    for cpu in 0..subhistories.len() {
        subhistories[cpu].make_room()?;
    }
    Ok(())
}

/// Subhistories with the same places.
pub fn copies(alloc: Global, subhistories: &[Subhistory; 8]) -> Result<[Subhistory; 8], AllocError>
    ensures counted { IfOk result (λ again. length again ≡ 8) }
    ensures same { IfOk result (λ again. (cpu : ℕ) (other : Subhistory) → cpu < 8
        → (slice_index_or again cpu other).places.items ≡ (slice_index_or subhistories.now cpu other).places.items) }
{
    let mut again = std::array::from_fn(|_cpu| Subhistory::new(alloc));
    for cpu in 0..again.len() {
        again[cpu].places = subhistories[cpu].places.to_vec(alloc)?;
    }
    Ok(again)
}
