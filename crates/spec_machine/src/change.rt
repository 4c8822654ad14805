//! A change that is made, whichever kind it is.

use crate::beside_changes::{change_beside, change_places};
use crate::machine::Machine;
use granule_cells::{
    Cell, CellStore, TablePlace, change_records, plain_cell, room_for, table_changed,
};
use rmm_spec::{Change, RealmChange, RecChange, Tag};
use std::alloc::AllocError;

impl Machine {
    ghost use Rattle.std.specs.Prelude.{◌≡◌, IsTrue, OnOk, OnErr};
    ghost use Rattle.rmm_spec.specs.Change.{changed};
    ghost use Rattle.rmm_spec.specs.declared.change.Change.TheVariants.{Retagged, RecordsChanged};
    ghost use Rattle.rmm_spec.specs.Applicable.{CanApply, CanRetag};
    ghost use Rattle.rmm_laws.specs.Whole.{whole_changed};
    ghost use Rattle.granule_cells.specs.Changes.{table_found};
    ghost use Rattle.spec_machine.specs.Memory.{takes_memory};
    ghost use Rattle.spec_machine.specs.View.{state_of};
    ghost use Rattle.spec_machine.specs.Whole.{config_of, whole_of};

    /// Makes the change. Refused memory, it leaves the state as it was.
    pub fn apply(&mut self, change: &Change) -> Result<(), AllocError>
        requires { CanApply (state_of self.old) change.now }
        ensures ok { OnOk result (state_of self.new ≡ changed (state_of self.old) change.now) }
        ensures size { OnOk result (config_of self.new.granules ≡ config_of self.old.granules) }
        ensures whole { OnOk result (whole_of self.new.granules
            ≡ whole_changed (config_of self.old.granules) (whole_of self.old.granules) change.now) }
        ensures err { OnErr result (state_of self.new ≡ state_of self.old) }
        ensures only { OnErr result (IsTrue (takes_memory change.now)) }
    {
        let Ok(room) = room_for(self.granules.alloc, change) else {
            return Err(AllocError);
        };
        let at = self.table_for(change);
        change_beside(&mut self.granules, change);
        granule_cells::apply(&mut self.granules.list, change, at, room);
        Ok(())
    }

    /// Gives a granule that holds nothing another tag.
    #[inline(always)]
    pub(crate) fn retag(&mut self, granule: u64, tag: Tag)
        requires { CanRetag (state_of self.old) (record { granule = granule; tag = tag }) }
        ensures { state_of self.new ≡ changed (state_of self.old) (Retagged (record { granule = granule; tag = tag })) }
    {
        // nothing lies there, so that nothing is dropped
        match self.granules.list.put(granule, plain_cell(tag)) {
            Cell::Undelegated | Cell::Delegated => {}
            _ => unreachable!(),
        }
    }

    /// Replaces the records of a realm and of a REC.
    #[inline(always)]
    pub(crate) fn update_records(&mut self, realm: Option<RealmChange>, rec: Option<RecChange>)
        requires { CanApply (state_of self.old) (RecordsChanged realm rec) }
        ensures { state_of self.new ≡ changed (state_of self.old) (RecordsChanged realm rec) }
    {
        change_places(&self.granules.list, &mut self.granules.places, rec);
        change_records(&mut self.granules.list, realm, rec);
    }

    /// The granule of the table whose entries the change changes.
    #[inline(always)]
    pub fn table_for(&mut self, change: &Change) -> Option<u64>
        ensures is { result ≡ table_found (state_of self.old).table change.now }
        ensures list { self.new.granules.list ≡ self.old.granules.list }
        ensures side { self.new.granules.side ≡ self.old.granules.side }
        ensures places { self.new.granules.places ≡ self.old.granules.places }
    {
        let Some(TablePlace { rd, level, number }) = table_changed(change) else {
            return None;
        };
        self.table_kept(rd, level, number)
    }
}
