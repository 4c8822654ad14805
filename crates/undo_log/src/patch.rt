//! Changes of a machine that can be taken back.

use granule_cells::Cell;
use memory_map::Pa;
use spec_machine::Places;

/// What is put in a place of a machine.
#[derive(Drop)]
pub(crate) enum Replaced {
    Cell { granule: u64, cell: Cell },
    // the realm that has the VMID
    Vmid { vmid: u8, realm: Option<Pa> },
    // how many RECs belong to the realm
    RecCount { rd: Pa, count: u32 },
    Places(Places),
}

/// What is put in places of a machine in place of what is there, the first one last.
#[derive(Drop)]
pub struct Patch {
    pub(crate) items: Vec<Replaced>,
}
