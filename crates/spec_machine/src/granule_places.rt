//! Where in one list the items of granules stand of which something was kept, so that granules that nothing touched take no room. Granules go by
//! their numbers, from 0 on.

use std::alloc::{AllocError, Global};

/// How many granules have a place from the start.
const NEAR: usize = 4096;

/// How many granules get one together.
const BLOCK: usize = 512;

/// The place of each granule that has one. The first granules' places are their numbers; each other block of granules gets the next
/// places where the first of its granules gets one.
#[derive(Drop)]
pub(crate) struct GranulePlaces {
    pub(crate) granules: usize,
    pub(crate) near: usize,
    // of each other block, which of those that have places it is, counted from 1, or 0
    pub(crate) starts: Vec<u32>,
    // how many have places
    pub(crate) made: u32,
    ghost many: { granules ≤ 1048576 },
    ghost first: { near ≤ granules },
    ghost all: { granules ≤ near + 512 * length starts.items },
    ghost short: { length starts.items ≤ 4096 },
    ghost apart: { (a b : ℕ) → 0 < slice_index_or starts.items a 0 → slice_index_or starts.items a 0 ≡ slice_index_or starts.items b 0 → a ≡ b },
    ghost below: { (a : ℕ) → slice_index_or starts.items a 0 ≤ made },
    ghost left: { made + unmade starts.items ≡ length starts.items },
}

ghost use Rattle.std.specs.Prelude.{◌≡◌, ℕ, ◌+◌, ◌*◌, ◌≤◌, ◌<◌, IfOk, length, replicate, slice_index_or};
ghost use Rattle.spec_machine.specs.Unmade.{unmade};

#[tactic(auto, unfolding(crate::specs::GranulePlace::count_in, crate::specs::GranulePlace::room_in))]
impl GranulePlaces {
    ghost use Rattle.std.specs.Prelude.{◌≡◌, ◌<◌, ◌≤◌, IfOk, None, Some, slice_index_or};
    ghost use Rattle.spec_machine.specs.GranulePlace.{place_in, count_in, room_in, IsFurther};

    /// The places of so many granules.
    pub(crate) fn new(alloc: Global, granules: usize) -> Result<GranulePlaces, AllocError>
        requires { granules ≤ 1048576 }
        ensures granules { IfOk result (λ places. places.granules ≡ granules) }
        ensures count { IfOk result (λ places. count_in places ≤ room_in places) }
    {
        let near = first_of(granules);
        let starts = none_made(alloc, (granules - near + BLOCK - 1) / BLOCK)?;
        Ok(GranulePlaces {
            granules,
            near,
            starts,
            made: 0,
        })
    }

    /// How many granules, the first ones, have their numbers for places.
    #[inline(always)]
    pub(crate) fn near(&self) -> usize
        ensures { (number : ℕ) → number < result → place_in self.now number ≡ Some number }
    {
        self.near
    }

    /// The place of a granule, where it has one.
    #[inline(always)]
    pub(crate) fn place(&self, number: usize) -> Option<usize>
        ensures { result ≡ place_in self.now number }
    {
        if number < self.near {
            Some(number)
        } else {
            self.far_place(number)
        }
    }

    // The same of a granule that isn't among the first.
    #[cold]
    #[inline(never)]
    fn far_place(&self, number: usize) -> Option<usize>
        requires { self.now.near ≤ number }
        ensures { result ≡ place_in self.now number }
    {
        if number >= self.granules {
            return None;
        }
        let far = number - self.near;
        let start = self.start(far / BLOCK);
        if start == 0 {
            return None;
        }
        Some(self.near + BLOCK * (start as usize - 1) + far % BLOCK)
    }

    // Which of the blocks that have places a block is, counted from 1, or 0.
    fn start(&self, block: usize) -> u32
        ensures is { result ≡ slice_index_or self.now.starts.items block 0 }
        ensures below { result ≤ self.now.made }
    {
        match self.starts.get(block) {
            Some(start) => *start,
            None => 0,
        }
    }

    /// How many granules there are.
    pub(crate) fn granules(&self) -> usize
        ensures { result ≡ self.now.granules }
    {
        self.granules
    }

    /// How many places there are, with those of granules that got theirs together with another.
    pub(crate) fn count(&self) -> usize
        ensures count { result ≡ count_in self.now }
        ensures most { result ≤ room_in self.now }
    {
        self.near + BLOCK * self.made as usize
    }

    /// How many places there are where every granule has one.
    pub(crate) fn room(&self) -> usize
        ensures { result ≡ room_in self.now }
    {
        self.near + BLOCK * self.starts.len()
    }

    /// Gives a granule without a place one, with its block.
    pub(crate) fn make(&mut self, number: usize) -> usize
        requires none { place_in self.old number ≡ None }
        requires within { number < self.old.granules }
        ensures place { place_in self.new number ≡ Some result }
        ensures further { IsFurther self.old self.new }
    {
        let far = number - self.near;
        let place = self.near + BLOCK * self.made as usize + far % BLOCK;
        self.made += 1;
        self.starts[far / BLOCK] = self.made;
        place
    }

    /// The same places once more.
    pub(crate) fn copy(&self, alloc: Global) -> Result<GranulePlaces, AllocError>
        ensures places { IfOk result (λ places. place_in places ≡ place_in self.now) }
        ensures count { IfOk result (λ places. count_in places ≡ count_in self.now) }
        ensures room { IfOk result (λ places. room_in places ≡ room_in self.now) }
        ensures granules { IfOk result (λ places. places.granules ≡ self.now.granules) }
    {
        let starts = copied(alloc, self.starts.as_slice())?;
        Ok(GranulePlaces {
            granules: self.granules,
            near: self.near,
            starts,
            made: self.made,
        })
    }
}

// How many of so many granules have a place from the start.
fn first_of(granules: usize) -> usize
    ensures few { result ≤ 4096 }
    ensures within { result ≤ granules }
{
    if granules < NEAR { granules } else { NEAR }
}

// So many blocks without places.
fn none_made(alloc: Global, blocks: usize) -> Result<Vec<u32>, AllocError>
    ensures { IfOk result (λ starts. starts.items ≡ replicate blocks 0) }
{
    vec![in alloc; 0; blocks]
}

fn copied(alloc: Global, starts: &[u32]) -> Result<Vec<u32>, AllocError>
    ensures { IfOk result (λ copy. copy.items ≡ starts.now) }
{
    let mut copy = vec![in alloc; 0; starts.len()]?;
    copy.copy_from_slice(starts);
    Ok(copy)
}
