//! What is kept of no granule.

ghost use Rattle.std.specs.Prelude.{◌≡◌, ◌<◌, ◌≤◌, ◌-◌, ◌/◌, ◌++◌, IsTrue, length, replicate, vec_len, vec_capacity};
ghost use Rattle.rmm_spec.specs.Lookup.{is_granule};
ghost use Rattle.granule_cells.specs.declared.side.TheConstants.{GRANULES};

use memory_map::{GRANULE_BYTES, MOST_GRANULES, Pa};
use std::alloc::{AllocError, Global};

/// How many VMIDs there are.
const VMIDS: usize = 256;

/// How many granules a machine has at most.
const GRANULES: usize = MOST_GRANULES as usize;

/// The realm that has each VMID, and how many RECs belong to each realm, for a machine of any size.
#[derive(Drop)]
pub struct Side {
    // at each VMID the descriptor of the realm that has it
    vmids: Vec<Option<Pa>>,
    // at each granule how many RECs belong to the realm there, up to the last that had any; room for the others is taken, and not touched
    rec_counts: Vec<u32>,
    ghost vmids_whole: { vec_len vmids ≡ 256 },
    ghost counts_few: { vec_len rec_counts ≤ GRANULES },
    ghost counts_room: { GRANULES ≤ vec_capacity rec_counts },
}

#[tactic(auto, unfolding(crate::specs::Sides::side_of))]
impl Side {
    ghost use Rattle.std.specs.Prelude.{◌≡◌, ◌≤◌, ◌+◌, ◌-◌, ℕ, IfOk, IsTrue, None, Some};
    ghost use Rattle.granule_cells.specs.Sides.{side_of, with_vmid, with_count};

    /// No VMID is used, and no realm has a REC.
    pub fn new(alloc: Global) -> Result<Side, AllocError>
        ensures unused { IfOk result (λ side. (vmid : ℕ) → (side_of side).vmids vmid ≡ None) }
        ensures none { IfOk result (λ side. (rd : ℕ) → (side_of side).rec_counts rd ≡ 0) }
    {
        let vmids = vec![in alloc; None; VMIDS]?;
        let rec_counts = Vec::with_capacity(alloc, GRANULES)?;
        Ok(Side { vmids, rec_counts })
    }

    /// The same table once more.
    pub fn copy(&self, alloc: Global) -> Result<Side, AllocError>
        ensures { IfOk result (λ side. side_of side ≡ side_of self.now) }
    {
        let mut vmids = vec![in alloc; None; VMIDS]?;
        vmids.copy_from_slice(self.vmids.as_slice());
        let mut rec_counts = Vec::with_capacity(alloc, GRANULES)?;
        rec_counts.extend_from_slice(self.rec_counts.as_slice())?;
        Ok(Side { vmids, rec_counts })
    }

    /// The realm that has the VMID, by the address of its descriptor.
    pub fn realm_with(&self, vmid: u8) -> Option<Pa>
        ensures { result ≡ (side_of self.now).vmids vmid }
    {
        match self.vmids.get(usize::from(vmid)) {
            Some(realm) => *realm,
            None => None,
        }
    }

    /// How many RECs belong to the realm.
    pub fn rec_count(&self, rd: Pa) -> u64
        ensures { result ≡ (side_of self.now).rec_counts rd }
    {
        u64::from(self.counted(rd))
    }

    /// The same, in as many bits as it is kept.
    pub fn counted(&self, rd: Pa) -> u32
        ensures { result ≡ (side_of self.now).rec_counts rd }
    {
        let address = rd.address();
        if address % GRANULE_BYTES != 0 {
            return 0;
        }
        match self.rec_counts.get((address / GRANULE_BYTES) as usize) {
            Some(count) => *count,
            None => 0,
        }
    }

    /// Gives a VMID to a realm, or frees it.
    pub fn set_vmid(&mut self, vmid: u8, realm: Option<Pa>)
        ensures { side_of self.new ≡ with_vmid (side_of self.old) vmid realm }
    {
        self.vmids[usize::from(vmid)] = realm;
    }

    /// The realm has one REC more.
    pub fn count_rec(&mut self, rd: Pa)
        requires granule { IsTrue (is_granule GRANULES rd) }
        requires limit { (side_of self.old).rec_counts rd ≤ GRANULES }
        ensures { side_of self.new ≡ with_count (side_of self.old) rd ((side_of self.old).rec_counts rd + 1) }
    {
        let count = self.counted(rd);
        self.set_count(rd, count + 1);
    }

    /// The realm has one REC less, where it has any.
    pub fn uncount_rec(&mut self, rd: Pa)
        ensures { side_of self.new ≡ with_count (side_of self.old) rd ((side_of self.old).rec_counts rd - 1) }
    {
        let count = self.counted(rd);
        if count > 0 {
            self.set_count(rd, count - 1);
        }
    }

    /// So many RECs belong to the realm.
    pub fn set_count(&mut self, rd: Pa, count: u32)
        requires { IsTrue (is_granule GRANULES rd) }
        ensures { side_of self.new ≡ with_count (side_of self.old) rd count }
    {
        let place = place_of(rd);
        self.reach(place);
        self.rec_counts[place] = count;
    }

    // Counts none at the granules up to a place that weren't counted yet.
    fn reach(&mut self, place: usize)
        requires { place < GRANULES }
        ensures kept { side_of self.new ≡ side_of self.old }
        ensures reached { place < vec_len self.new.rec_counts }
    {
        if place < self.rec_counts.len() {
            return;
        }
        lengthen(&mut self.rec_counts, place + 1);
    }
}

// Counts none at further granules, for which there is room.
fn lengthen(counts: &mut Vec<u32>, len: usize)
    requires more { vec_len counts.old ≤ len }
    requires room { len ≤ vec_capacity counts.old }
    ensures items { counts.new.items ≡ counts.old.items ++ replicate (len - length counts.old.items) 0 }
    ensures len { vec_len counts.new ≡ len }
    ensures capacity { vec_capacity counts.old ≤ vec_capacity counts.new }
{
    let Ok(()) = counts.resize(len, 0) else {
        unreachable!()
    };
}

// Where what is kept of a granule stands.
#[tactic(auto, using(crate::proofs::SideTable::place_within))]
fn place_of(granule: Pa) -> usize
    requires { IsTrue (is_granule GRANULES granule) }
    ensures place { result ≡ granule / 4096 }
    ensures within { result < GRANULES }
{
    (granule.address() / GRANULE_BYTES) as usize
}
