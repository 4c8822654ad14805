//! What an accepted command changes: the definitions' ten kinds of change, as code, each by the updates of a state.

use crate::fault::FlatFault;
use crate::machine::FlatMachine;
use crate::records::{new_realm, new_rec, realm_updated, rec_updated};
use command_rows::Sight;
use rmm_spec::{Change, Entry, EntryChange, RealmChange, RealmUpdate, RecChange, Tag, TagChange};

impl FlatMachine {
    fn with_realm_change(&mut self, change: Option<RealmChange>) -> Result<(), FlatFault> {
        let Some(RealmChange { rd, update }) = change else {
            return Ok(());
        };
        let realm = self.realm(rd).ok_or(FlatFault::Missing)?;
        let updated = realm_updated(update, &realm).ok_or(FlatFault::Missing)?;
        self.with_realm(rd, updated)
    }

    fn with_rec_change(&mut self, change: Option<RecChange>) -> Result<(), FlatFault> {
        let Some(RecChange { rec, update }) = change else {
            return Ok(());
        };
        let record = self.rec(rec).ok_or(FlatFault::Missing)?;
        let updated = rec_updated(update, &record).ok_or(FlatFault::Missing)?;
        self.with_rec(rec, updated)
    }

    fn with_tag_change(&mut self, change: Option<TagChange>) -> Result<(), FlatFault> {
        match change {
            None => Ok(()),
            Some(TagChange { granule, tag }) => self.with_tag(granule, tag),
        }
    }

    fn with_entry_change(
        &mut self,
        rd: u64,
        level: u8,
        change: EntryChange,
    ) -> Result<(), FlatFault> {
        match change {
            EntryChange::Replaced { number, entry } => self.with_leaf(rd, level, number, entry)?,
            EntryChange::RipasSet { first, last, ripas } => {
                self.with_ripas(rd, level, first, last, ripas);
            }
        }
        Ok(())
    }

    fn realm_made(
        &mut self,
        rd: u64,
        root: u64,
        width: u8,
        level: u8,
        vmid: u8,
        algo: u8,
    ) -> Result<(), FlatFault> {
        let realm = new_realm(root, width, level, vmid, algo).ok_or(FlatFault::Missing)?;
        self.with_tag(root, Tag::Rtt)?;
        self.with_realm(rd, realm)?;
        self.with_root(rd, level, root)
    }

    fn realm_destroyed(&mut self, rd: u64, root: u64) -> Result<(), FlatFault> {
        self.with_tag(rd, Tag::Delegated)?;
        self.with_tag(root, Tag::Delegated)?;
        self.without_realm(rd);
        Ok(())
    }

    fn rec_made(
        &mut self,
        rd: u64,
        rec: u64,
        mpidr: u8,
        flags: u64,
        aux0: u64,
        aux1: u64,
    ) -> Result<(), FlatFault> {
        let update = RealmUpdate::RecCounted { mpidr, flags };
        let made = new_rec(rd, mpidr, flags, aux0, aux1).ok_or(FlatFault::Missing)?;
        self.with_tag(aux0, Tag::RecAux)?;
        self.with_tag(aux1, Tag::RecAux)?;
        self.with_realm_change(Some(RealmChange { rd, update }))?;
        self.with_rec(rec, made)
    }

    fn rec_destroyed(&mut self, rec: u64, aux0: u64, aux1: u64) -> Result<(), FlatFault> {
        self.with_tag(rec, Tag::Delegated)?;
        self.with_tag(aux0, Tag::Delegated)?;
        self.with_tag(aux1, Tag::Delegated)
    }

    fn table_made(
        &mut self,
        rd: u64,
        level: u8,
        number: u64,
        rtt: u64,
        entry: Entry,
    ) -> Result<(), FlatFault> {
        self.with_tag(rtt, Tag::Rtt)?;
        self.with_table(rd, level, number, rtt, entry)
    }

    fn table_destroyed(
        &mut self,
        rd: u64,
        level: u8,
        number: u64,
        rtt: u64,
        entry: Entry,
    ) -> Result<(), FlatFault> {
        self.with_tag(rtt, Tag::Delegated)?;
        self.without_table(rd, level, number, entry)
    }

    fn entries_changed(
        &mut self,
        rd: u64,
        level: u8,
        entries: EntryChange,
        page: Option<TagChange>,
        realm: Option<RealmChange>,
        rec: Option<RecChange>,
    ) -> Result<(), FlatFault> {
        self.with_tag_change(page)?;
        self.with_realm_change(realm)?;
        self.with_rec_change(rec)?;
        self.with_entry_change(rd, level, entries)
    }

    /// Makes the change.
    pub(crate) fn changed(&mut self, change: &Change) -> Result<(), FlatFault> {
        match *change {
            Change::Unchanged => Ok(()),
            Change::Retagged(TagChange { granule, tag }) => self.with_tag(granule, tag),
            Change::RealmMade {
                rd,
                root,
                width,
                level,
                vmid,
                algo,
            } => self.realm_made(rd, root, width, level, vmid, algo),
            Change::RealmDestroyed { rd, root } => self.realm_destroyed(rd, root),
            Change::RecMade {
                rd,
                rec,
                mpidr,
                flags,
                aux0,
                aux1,
            } => self.rec_made(rd, rec, mpidr, flags, aux0, aux1),
            Change::RecDestroyed { rec, aux0, aux1 } => self.rec_destroyed(rec, aux0, aux1),
            Change::RecordsChanged { realm, rec } => {
                self.with_realm_change(realm)?;
                self.with_rec_change(rec)
            }
            Change::TableMade {
                rd,
                level,
                number,
                rtt,
                entry,
            } => self.table_made(rd, level, number, rtt, entry),
            Change::TableDestroyed {
                rd,
                level,
                number,
                rtt,
                entry,
            } => self.table_destroyed(rd, level, number, rtt, entry),
            Change::EntriesChanged {
                rd,
                level,
                entries,
                page,
                realm,
                rec,
            } => self.entries_changed(rd, level, entries, page, realm, rec),
        }
    }
}
