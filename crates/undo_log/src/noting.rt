//! What a change is about to replace, noted before it, so that it can be taken back.

ghost use Rattle.std.specs.Prelude.{◌≡◌, flat_map};
ghost use Rattle.granule_cells.specs.Changes as spec;
ghost use Rattle.granule_cells.specs.Changes.{table_at};
ghost use Rattle.undo_log.specs.Noted as noted;

use crate::copies::copied_view;
use crate::patch::{Patch, Replaced};
use granule_cells::CellStore;
use memory_map::Pa;
use rmm_spec::Change;
use spec_machine::Machine;
use std::alloc::AllocError;

impl Patch {
    ghost use Rattle.std.specs.Prelude.{◌≡◌, flat_map, IfSome, IsTrue, OnOk};
    ghost use Rattle.rmm_spec.specs.Cell.{realms_of, recs_of};
    ghost use Rattle.granule_cells.specs.Changes.{table_at};
    ghost use Rattle.undo_log.specs.Noted.{has_cell, has_count, has_places, has_vmid, HasBeside, HasCells, IsNoted, LeadsAsBefore};
    ghost use Rattle.undo_log.specs.Patches.{standing_of};
    ghost use Rattle.spec_machine.specs.Whole.{cells_of};

    /// Notes what the change is about to replace, where the table whose entries it changes lies at an address.
    pub(crate) fn note(
        &mut self,
        machine: &Machine,
        change: &Change,
        at: Option<u64>,
    ) -> Result<(), AllocError>
        ensures { OnOk result (IsNoted (standing_of machine.now) at change.now self.old self.new) }
    {
        self.note_cells(machine, &granules_changed(change, at))?;
        self.note_beside(machine, change)?;
        Ok(())
    }

    // Notes the cells of granules.
    fn note_cells(&mut self, machine: &Machine, granules: &[Option<u64>]) -> Result<(), AllocError>
        ensures kept { OnOk result (LeadsAsBefore (standing_of machine.now) self.old self.new) }
        ensures cells { OnOk result (HasCells (flat_map table_at granules.now) self.new.items.items) }
    {
        for granule in granules {
            self.note_cell(machine, *granule)?;
        }
        Ok(())
    }

    // Notes the cell of a granule, unless one is noted already.
    fn note_cell(&mut self, machine: &Machine, granule: Option<u64>) -> Result<(), AllocError>
        ensures kept { OnOk result (LeadsAsBefore (standing_of machine.now) self.old self.new) }
        ensures cell { OnOk result (IfSome granule (λ g. IsTrue (has_cell g self.new.items.items))) }
    {
        let Some(granule) = granule else {
            return Ok(());
        };
        if self.has_cell(granule) {
            return Ok(());
        }
        let cell = copied_view(machine.granules.alloc, machine.granules.list.cell(granule))?;
        self.items.push(Replaced::Cell { granule, cell })?;
        Ok(())
    }

    // Notes what the change replaces beside the cells.
    fn note_beside(&mut self, machine: &Machine, change: &Change) -> Result<(), AllocError>
        ensures kept { OnOk result (LeadsAsBefore (standing_of machine.now) self.old self.new) }
        ensures beside { OnOk result (HasBeside (standing_of machine.now) change.now self.new.items.items) }
    {
        match change {
            Change::RealmMade { vmid, .. } => self.note_vmid(machine, *vmid),
            Change::RealmDestroyed { rd, .. } => self.note_vmid_of(machine, *rd),
            Change::RecMade { rd, .. } => self.note_count(machine, Pa::new(*rd)),
            Change::RecDestroyed { rec, .. } => self.note_count_of(machine, *rec),
            Change::RecordsChanged { rec: Some(_), .. }
            | Change::EntriesChanged { rec: Some(_), .. } => self.note_places(machine),
            _ => Ok(()),
        }
    }

    // Notes the realm that has a VMID, unless that is noted already.
    fn note_vmid(&mut self, machine: &Machine, vmid: u8) -> Result<(), AllocError>
        ensures kept { OnOk result (LeadsAsBefore (standing_of machine.now) self.old self.new) }
        ensures vmid { OnOk result (IsTrue (has_vmid vmid self.new.items.items)) }
    {
        if self.has_vmid(vmid) {
            return Ok(());
        }
        let realm = machine.granules.side.realm_with(vmid);
        self.items.push(Replaced::Vmid { vmid, realm })?;
        Ok(())
    }

    // The same of the VMID of the realm that is there.
    #[tactic(auto, unfolding(realm_desc::specs::View::realm_record))]
    fn note_vmid_of(&mut self, machine: &Machine, rd: u64) -> Result<(), AllocError>
        ensures kept { OnOk result (LeadsAsBefore (standing_of machine.now) self.old self.new) }
        ensures vmid { OnOk result (IfSome (realms_of (cells_of machine.now.granules.list) rd)
            (λ realm. IsTrue (has_vmid realm.vmid self.new.items.items))) }
    {
        match machine.granules.list.realm_in(rd) {
            Some(realm) => self.note_vmid(machine, realm.vmid),
            None => Ok(()),
        }
    }

    // Notes how many RECs belong to a realm, unless that is noted already.
    fn note_count(&mut self, machine: &Machine, rd: Pa) -> Result<(), AllocError>
        ensures kept { OnOk result (LeadsAsBefore (standing_of machine.now) self.old self.new) }
        ensures count { OnOk result (IsTrue (has_count rd self.new.items.items)) }
    {
        if self.has_count(rd) {
            return Ok(());
        }
        let count = machine.granules.side.counted(rd);
        self.items.push(Replaced::RecCount { rd, count })?;
        Ok(())
    }

    // The same of the realm of the REC that is there.
    #[tactic(auto, unfolding(realm_desc::specs::View::rec_record))]
    fn note_count_of(&mut self, machine: &Machine, rec: u64) -> Result<(), AllocError>
        ensures kept { OnOk result (LeadsAsBefore (standing_of machine.now) self.old self.new) }
        ensures count { OnOk result (IfSome (recs_of (cells_of machine.now.granules.list) rec)
            (λ it. IsTrue (has_count it.owner self.new.items.items))) }
    {
        match machine.granules.list.rec_in(rec) {
            Some(it) => self.note_count(machine, it.owner),
            None => Ok(()),
        }
    }

    // Notes the CPUs' places, unless they are noted already.
    fn note_places(&mut self, machine: &Machine) -> Result<(), AllocError>
        ensures kept { OnOk result (LeadsAsBefore (standing_of machine.now) self.old self.new) }
        ensures places { OnOk result (IsTrue (has_places self.new.items.items)) }
    {
        if self.has_places() {
            return Ok(());
        }
        let places = machine.granules.places.copy(machine.granules.alloc)?;
        self.items.push(Replaced::Places(places))?;
        Ok(())
    }
}

impl Patch {
    ghost use Rattle.std.specs.Prelude.{◌≡◌};
    ghost use Rattle.undo_log.specs.Noted.{has_cell, has_count, has_places, has_vmid};

    // Whether it has a cell of the granule.
    fn has_cell(&self, granule: u64) -> bool
        ensures { result ≡ has_cell granule self.now.items.items }
    {
        self.items.iter().any(|item| is_cell_of(item, granule))
    }

    // Whether it has the realm of the VMID.
    fn has_vmid(&self, vmid: u8) -> bool
        ensures { result ≡ has_vmid vmid self.now.items.items }
    {
        self.items.iter().any(|item| is_vmid(item, vmid))
    }

    // Whether it has the count of the realm's RECs.
    fn has_count(&self, rd: Pa) -> bool
        ensures { result ≡ has_count rd self.now.items.items }
    {
        self.items.iter().any(|item| is_count_of(item, rd))
    }

    // Whether it has the CPUs' places.
    fn has_places(&self) -> bool
        ensures { result ≡ has_places self.now.items.items }
    {
        self.items
            .iter()
            .any(|item| matches!(item, Replaced::Places(_)))
    }
}

// Whether it is a cell of the granule.
fn is_cell_of(item: &Replaced, granule: u64) -> bool
    ensures { result ≡ noted.is_cell_of granule item.now }
{
    matches!(item, Replaced::Cell { granule: other, .. } if granule == *other)
}

// Whether it is the realm of the VMID.
fn is_vmid(item: &Replaced, vmid: u8) -> bool
    ensures { result ≡ noted.is_vmid vmid item.now }
{
    matches!(item, Replaced::Vmid { vmid: other, .. } if vmid == *other)
}

// Whether it is the count of the realm's RECs.
fn is_count_of(item: &Replaced, rd: Pa) -> bool
    ensures { result ≡ noted.is_count_of rd item.now }
{
    matches!(item, Replaced::RecCount { rd: other, .. } if rd == *other)
}

// The granules whose cells the change changes, where the table whose entries it changes lies at an address.
fn granules_changed(change: &Change, at: Option<u64>) -> [Option<u64>; 4]
    ensures { flat_map table_at result ≡ spec.granules_changed at change.now }
{
    match *change {
        Change::Unchanged => [None; 4],
        Change::Retagged(page) => [Some(page.granule), None, None, None],
        Change::RealmMade { rd, root, .. } | Change::RealmDestroyed { rd, root } => {
            [Some(rd), Some(root), None, None]
        }
        Change::RecMade {
            rd,
            rec,
            aux0,
            aux1,
            ..
        } => [Some(rec), Some(aux0), Some(aux1), Some(rd)],
        Change::RecDestroyed { rec, aux0, aux1 } => [Some(rec), Some(aux0), Some(aux1), None],
        Change::RecordsChanged { realm, rec } => [
            realm.map(|change| change.rd),
            rec.map(|change| change.rec),
            None,
            None,
        ],
        Change::TableMade { rtt, .. } | Change::TableDestroyed { rtt, .. } => {
            [at, Some(rtt), None, None]
        }
        Change::EntriesChanged {
            page,
            realm,
            rec,
            ..
        } => [
            page.map(|change| change.granule),
            realm.map(|change| change.rd),
            rec.map(|change| change.rec),
            at,
        ],
    }
}
