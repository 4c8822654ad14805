//! What a change makes of cells, one function a kind of change.

ghost use Rattle.std.specs.Prelude.{◌≡◌, IsTrue, None, IfSome};
ghost use Rattle.rmm_spec.specs.declared.change.EntryChange.TheVariants.{Replaced};
ghost use Rattle.rmm_spec.specs.declared.entry.Entry.TheVariants as entries;
ghost use Rattle.rmm_spec.specs.declared.change.RealmUpdate.TheVariants.{RecCounted};
ghost use Rattle.rmm_spec.specs.Applicable.{IsRealmUpdate};
ghost use Rattle.rmm_spec.specs.Cell as whole;
ghost use Rattle.rmm_spec.specs.Cell.{put};
ghost use Rattle.rmm_laws.specs.Whole.{changed_at, cell_with_realm, cells_with_tag_change, cells_with_realm_change, cells_with_rec_change, cell_with_entries, cells_with_entries, entries_changed};
ghost use Rattle.granule_cells.specs.declared.cell_change.CellChange.TheVariants as cell;
ghost use Rattle.granule_cells.specs.Changes.{is_plain, CanUpdate, FitParts};
ghost use Rattle.granule_cells.specs.OneCell.{fits_entries, FitsCell};
ghost use Rattle.granule_cells.specs.Seen.{cell_of};

use crate::cell_change::CellChange;
use crate::cell_store::CellStore;
use crate::plain::plain_cell;
use crate::{Cell, Descriptor};
use realm_desc::Rec;
use rmm_spec::{Entry, EntryChange, RealmChange, RealmUpdate, RecChange, TagChange};
use rtt_table::Table;

// Puts a cell in, and drops the one that was there.
#[inline(always)]
fn put_cell<S: CellStore>(store: &mut S, granule: u64, made: Cell)
    requires { IsTrue (S.has (S.kept store.old) granule) }
    ensures kept { S.kept store.new ≡ S.kept store.old }
    ensures cells { S.cells_in store.new ≡ put (S.cells_in store.old) granule (cell_of made) }
{
    store.put(granule, made);
}

pub(crate) fn put_realm<S: CellStore>(
    store: &mut S,
    rd: u64,
    realm: Descriptor,
    root: u64,
    table: Table,
)
    requires rd { IsTrue (S.has (S.kept store.old) rd) }
    requires root { IsTrue (S.has (S.kept store.old) root) }
    ensures kept { S.kept store.new ≡ S.kept store.old }
    ensures cells { S.cells_in store.new ≡ put (put (S.cells_in store.old) rd (whole.Rd realm)) root (whole.Rtt table) }
{
    put_cell(store, rd, Cell::Rd(realm));
    put_cell(store, root, Cell::Rtt(table));
}

pub(crate) fn free_realm<S: CellStore>(store: &mut S, rd: u64, root: u64)
    requires rd { IsTrue (S.has (S.kept store.old) rd) }
    requires root { IsTrue (S.has (S.kept store.old) root) }
    ensures kept { S.kept store.new ≡ S.kept store.old }
    ensures cells { S.cells_in store.new ≡ put (put (S.cells_in store.old) rd whole.Delegated) root whole.Delegated }
{
    put_cell(store, rd, Cell::Delegated);
    put_cell(store, root, Cell::Delegated);
}

/// The REC is put in with its two others, and its realm counts it.
#[tactic(auto, unfolding(realm_desc::specs::View::rec_record))]
pub(crate) fn make_rec<S: CellStore>(store: &mut S, rec: u64, made: Rec, flags: u64)
    requires rec { IsTrue (S.has (S.kept store.old) rec) }
    requires aux0 { IsTrue (S.has (S.kept store.old) made.aux0) }
    requires aux1 { IsTrue (S.has (S.kept store.old) made.aux1) }
    requires index { FitsCell (S.cells_in store.old made.owner) (cell.Realm (RecCounted made.index flags)) }
    ensures kept { S.kept store.new ≡ S.kept store.old }
    ensures cells { S.cells_in store.new
        ≡ changed_at (put (put (put (S.cells_in store.old) rec (whole.Rec made)) made.aux0 whole.RecAux) made.aux1 whole.RecAux) made.owner
        (cell_with_realm (RecCounted made.index flags)) }
{
    put_cell(store, rec, Cell::Rec(made));
    put_cell(store, made.aux0.address(), Cell::RecAux);
    put_cell(store, made.aux1.address(), Cell::RecAux);
    let counted = RealmUpdate::RecCounted {
        mpidr: made.index,
        flags,
    };
    store.change(made.owner.address(), CellChange::Realm(counted));
}

pub(crate) fn free_rec<S: CellStore>(store: &mut S, rec: u64, aux0: u64, aux1: u64)
    requires rec { IsTrue (S.has (S.kept store.old) rec) }
    requires aux0 { IsTrue (S.has (S.kept store.old) aux0) }
    requires aux1 { IsTrue (S.has (S.kept store.old) aux1) }
    ensures kept { S.kept store.new ≡ S.kept store.old }
    ensures cells { S.cells_in store.new
        ≡ put (put (put (S.cells_in store.old) rec whole.Delegated) aux0 whole.Delegated) aux1 whole.Delegated }
{
    put_cell(store, rec, Cell::Delegated);
    put_cell(store, aux0, Cell::Delegated);
    put_cell(store, aux1, Cell::Delegated);
}

/// Gives a page's granule another tag, if one is given it.
#[inline(always)]
pub(crate) fn change_tag<S: CellStore>(store: &mut S, change: Option<TagChange>)
    requires granule { IfSome change (λ c. IsTrue (S.has (S.kept store.old) c.granule)) }
    requires plain { IfSome change (λ c. IsTrue (is_plain c.tag)) }
    ensures kept { S.kept store.new ≡ S.kept store.old }
    ensures cells { S.cells_in store.new ≡ cells_with_tag_change (S.cells_in store.old) change }
{
    if let Some(TagChange { granule, tag }) = change {
        put_cell(store, granule, plain_cell(tag));
    }
}

// Updates a realm, if one is updated.
#[inline(always)]
fn change_realm<S: CellStore>(store: &mut S, change: Option<RealmChange>)
    requires { IfSome change (λ c. IsRealmUpdate c.update) }
    ensures kept { S.kept store.new ≡ S.kept store.old }
    ensures cells { S.cells_in store.new ≡ cells_with_realm_change (S.cells_in store.old) change }
{
    if let Some(RealmChange { rd, update }) = change {
        store.change(rd, CellChange::Realm(update));
    }
}

// Updates a REC, if one is updated.
#[inline(always)]
fn change_rec<S: CellStore>(store: &mut S, change: Option<RecChange>)
    requires { IfSome change (CanUpdate (S.cells_in store.old)) }
    ensures kept { S.kept store.new ≡ S.kept store.old }
    ensures cells { S.cells_in store.new ≡ cells_with_rec_change (S.cells_in store.old) change }
{
    if let Some(RecChange { rec, update }) = change {
        store.change(rec, CellChange::Rec(update));
    }
}

/// Updates a realm and a REC.
#[inline(always)]
pub fn change_records<S: CellStore>(
    store: &mut S,
    realm: Option<RealmChange>,
    rec: Option<RecChange>,
)
    requires { FitParts (S.cells_in store.old) None realm rec }
    ensures kept { S.kept store.new ≡ S.kept store.old }
    ensures cells { S.cells_in store.new ≡ cells_with_rec_change (cells_with_realm_change (S.cells_in store.old) realm) rec }
{
    change_realm(store, realm);
    change_rec(store, rec);
}

/// Puts in a new table, and the one above gets a link to it.
pub(crate) fn make_table<S: CellStore>(
    store: &mut S,
    above: u64,
    number: u64,
    rtt: u64,
    table: Table,
)
    requires { IsTrue (S.has (S.kept store.old) rtt) }
    ensures kept { S.kept store.new ≡ S.kept store.old }
    ensures cells { S.cells_in store.new
        ≡ put (changed_at (S.cells_in store.old) above (cell_with_entries (entries_changed (Replaced number (entries.Table rtt))))) rtt
        (whole.Rtt table) }
{
    let entry = Entry::Table(rtt);
    let linked = EntryChange::Replaced { number, entry };
    store.change(above, CellChange::Entries(linked));
    put_cell(store, rtt, Cell::Rtt(table));
}

/// Changes the entries of a table, with a page, a realm and a REC.
#[inline(always)]
pub(crate) fn change_entries<S: CellStore>(
    store: &mut S,
    at: Option<u64>,
    entries: &EntryChange,
    page: Option<TagChange>,
    realm: Option<RealmChange>,
    rec: Option<RecChange>,
)
    requires page { IfSome page (λ c. IsTrue (S.has (S.kept store.old) c.granule)) }
    requires parts { FitParts (S.cells_in store.old) page realm rec }
    requires entries { IsTrue (fits_entries entries.now) }
    ensures kept { S.kept store.new ≡ S.kept store.old }
    ensures cells { S.cells_in store.new
        ≡ cells_with_entries (cells_with_rec_change (cells_with_realm_change (cells_with_tag_change (S.cells_in store.old) page) realm) rec)
        (entries_changed entries.now) at }
{
    change_tag(store, page);
    change_realm(store, realm);
    change_rec(store, rec);
    change_entries_at(store, at, entries);
}

// Changes the entries of the table in a granule, if one is given.
#[inline(always)]
pub(crate) fn change_entries_at<S: CellStore>(store: &mut S, at: Option<u64>, change: &EntryChange)
    requires { IsTrue (fits_entries change.now) }
    ensures kept { S.kept store.new ≡ S.kept store.old }
    ensures cells { S.cells_in store.new ≡ cells_with_entries (S.cells_in store.old) (entries_changed change.now) at }
{
    if let Some(granule) = at {
        store.change(granule, CellChange::Entries(*change));
    }
}

/// Takes a table out, and puts an entry where the link to it was.
pub(crate) fn free_table<S: CellStore>(
    store: &mut S,
    at: Option<u64>,
    entry: &EntryChange,
    rtt: u64,
)
    requires rtt { IsTrue (S.has (S.kept store.old) rtt) }
    requires entry { IsTrue (fits_entries entry.now) }
    ensures kept { S.kept store.new ≡ S.kept store.old }
    ensures cells { S.cells_in store.new ≡ put (cells_with_entries (S.cells_in store.old) (entries_changed entry.now) at) rtt whole.Delegated }
{
    change_entries_at(store, at, entry);
    put_cell(store, rtt, Cell::Delegated);
}
