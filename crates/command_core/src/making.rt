//! Whether a change can be made of what is held.

ghost use Rattle.std.specs.Prelude.{◌≡◌, ◌-◌, ◌*◌, ◌/◌, ◌^◌, ◌<◌, ◌≤◌, is_some, ◌&&◌, ◌==◌, nat_le, length, option_map, option_copied, unwrap_or, IsTrue};
ghost use Rattle.rmm_spec.specs.declared.change.Change.TheVariants.{EntriesChanged};
ghost use Rattle.rmm_spec.specs.Cell as whole;
ghost use Rattle.rmm_spec.specs.Lookup as lookup;
ghost use Rattle.rmm_spec.specs.Walk.{table_size};
ghost use Rattle.world_laws.specs.SeenState.{table_placed};
ghost use Rattle.world_laws.specs.TableCells as tables;
ghost use Rattle.granule_cells.specs.Changes as changes;
ghost use Rattle.command_core.specs.Changed as spec;
ghost use Rattle.command_core.specs.Foreseen.{side_or_unlisted};
ghost use Rattle.command_core.specs.Pairs.{pair_cells};
ghost use Rattle.command_core.specs.Seen as seen;
ghost use Rattle.command_core.specs.Seen.{cell_of};
ghost use Rattle.command_core.specs.Sides.{side_of};

use crate::held_pairs::HeldPairs;
use crate::held_tables::{placed, stands_well};
use crate::taking::{is_granule, is_held};
use command_words::is_space;
use granule_cells::{Cell, Side, number_changed};
use memory_map::{Config, Pa};
use realm_desc::{HashAlgorithm, Rec};
use rmm_spec::{
    Change, EntryChange, RealmChange, RealmUpdate, RecChange, RecUpdate, Tag, TagChange,
};

// Whether a granule of that state holds nothing.
fn is_plain(tag: Tag) -> bool
    ensures { result ≡ changes.is_plain tag }
{
    match tag {
        Tag::Undelegated | Tag::Delegated | Tag::RecAux | Tag::Data => true,
        Tag::Rd | Tag::Rec | Tag::Rtt => false,
    }
}

// Whether a hash algorithm has that number.
fn is_hash(algo: u8) -> bool
    ensures { result ≡ lookup.is_hash algo }
{
    HashAlgorithm::of(u64::from(algo)).is_some()
}

// Whether it is a realm whose next REC has that index.
fn counts_in(mpidr: u8, cell: Option<&Cell>) -> bool
    ensures { result ≡ spec.counts_in mpidr (unwrap_or (option_map cell_of (option_copied cell.entry)) whole.Undelegated) }
{
    match cell {
        Some(Cell::Rd(descriptor)) => descriptor.realm().takes_index(u64::from(mpidr)),
        _ => false,
    }
}

// Whether a realm has such a measurement, and the values have that many bytes.
fn is_extension(index: u8, size: u8, values: &[u64; 8]) -> bool
    ensures { result ≡ (nat_le 1 index && nat_le index 4 && nat_le size 0x40 && length values.now == 8) }
{
    1 <= index && index <= 4 && size <= 0x40 && values.len() == 8
}

// Whether it has the words of a digest.
fn is_digest(digest: &[u64; 4]) -> bool
    ensures { result ≡ (length digest.now == 4) }
{
    digest.len() == 4
}

// Whether a realm's measurements are extended within what they have.
fn is_realm_update(update: &RealmUpdate) -> bool
    ensures { result ≡ spec.is_realm_update update.now }
{
    match update {
        RealmUpdate::MeasurementExtended {
            index,
            size,
            values,
        } => is_extension(*index, *size, values),
        RealmUpdate::PageMeasured { digest, .. } => is_digest(digest),
        RealmUpdate::RecCounted { .. } => false,
        RealmUpdate::Activated | RealmUpdate::TurnedOff | RealmUpdate::StretchMeasured { .. } =>
            true,
    }
}

fn fits_realm(held: &HeldPairs, change: &Option<RealmChange>) -> bool
    ensures { result ≡ spec.fits_realm_change (pair_cells held.now) change.now }
{
    match change {
        Some(change) => match held.cell(Pa::new(change.rd)) {
            Some(Cell::Rd(_)) => is_realm_update(&change.update),
            _ => false,
        },
        None => true,
    }
}

// Whether the REC has a request, where one is moved.
#[tactic(auto, unfolding(realm_desc::specs::View::rec_record))]
fn is_rec_update(rec: &Rec, update: &RecUpdate) -> bool
    ensures { result ≡ spec.is_rec_update rec.now update.now }
{
    match update {
        RecUpdate::RequestMoved { .. } => rec.request.is_some(),
        RecUpdate::Entered { .. }
        | RecUpdate::Exited
        | RecUpdate::RipasRequested { .. }
        | RecUpdate::HostCalled { .. }
        | RecUpdate::TurnedOff
        | RecUpdate::SystemTurnedOff => true,
    }
}

fn fits_rec(held: &HeldPairs, change: &Option<RecChange>) -> bool
    ensures { result ≡ spec.fits_rec_change (pair_cells held.now) change.now }
{
    match change {
        Some(change) => match held.cell(Pa::new(change.rec)) {
            Some(Cell::Rec(rec)) => is_rec_update(rec, &change.update),
            _ => false,
        },
        None => true,
    }
}

// Whether the table above one is held. It stands where a realm's table can, and so does each below it.
fn holds_above(held: &HeldPairs, rd: u64, level: u8, number: u64) -> bool
    ensures above { result ≡ is_some (table_placed (pair_cells held.now) rd (level - 1) (number / 512)) }
    ensures fits { IsTrue result → 0 < level → level ≤ 3 → number * table_size level < 2 ^ 64 }
{
    match placed(held, rd, level.saturating_sub(1), number / 512) {
        Some(granule) => {
            let _fact = stands_well(held, Pa::new(granule));
            true
        }
        None => false,
    }
}

// Whether a table that is made or destroyed is held, and the one above.
fn holds_two(held: &HeldPairs, rd: u64, level: u8, number: u64, rtt: u64) -> bool
    ensures two { result ≡ (seen.is_held rtt (pair_cells held.now) && is_some (table_placed (pair_cells held.now) rd (level - 1) (number / 512))) }
    ensures fits { IsTrue result → 0 < level → level ≤ 3 → number * table_size level < 2 ^ 64 }
{
    is_held(held, Pa::new(rtt)) && holds_above(held, rd, level, number)
}

fn holds_page(held: &HeldPairs, change: &Option<TagChange>) -> bool
    ensures { result ≡ tables.holds_page (pair_cells held.now) change.now }
{
    match change {
        Some(change) => is_held(held, Pa::new(change.granule)),
        None => true,
    }
}

fn holds_realm(held: &HeldPairs, change: &Option<RealmChange>) -> bool
    ensures { result ≡ tables.holds_realm (pair_cells held.now) change.now }
{
    match change {
        Some(change) => is_held(held, Pa::new(change.rd)),
        None => true,
    }
}

// A REC's request is moved on: it neither enters nor leaves.
fn holds_rec(held: &HeldPairs, change: &Option<RecChange>) -> bool
    ensures { result ≡ tables.holds_rec (pair_cells held.now) change.now }
{
    match change {
        Some(change) => {
            is_held(held, Pa::new(change.rec))
                && matches!(change.update, RecUpdate::RequestMoved { .. })
        }
        None => true,
    }
}

fn fits_page(change: &Option<TagChange>) -> bool
    ensures { result ≡ spec.fits_page change.now }
{
    match change {
        Some(change) => is_plain(change.tag),
        None => true,
    }
}

// Whether the entries of a stretch are those of one table.
fn fits_entries(change: &EntryChange) -> bool
    ensures { result ≡ changes.fits_entries change.now }
{
    match *change {
        EntryChange::Replaced { .. } => true,
        EntryChange::RipasSet { first, last, .. } => first < last
            && last - first / 512 * 512 <= 512,
    }
}

// Whether the table that is held has the entries, and what changes beside them is held too.
#[tactic(auto, unfolding(world_laws::specs::TableCells::holds_change))]
fn fits_entry_change(
    held: &HeldPairs,
    rd: u64,
    level: u8,
    entries: &EntryChange,
    page: &Option<TagChange>,
    realm: &Option<RealmChange>,
    rec: &Option<RecChange>,
) -> bool
    ensures { result ≡ spec.fits_cells (pair_cells held.now) (EntriesChanged rd level entries.now page.now realm.now rec.now) }
{
    holds_page(held, page)
        && holds_realm(held, realm)
        && holds_rec(held, rec)
        && placed(held, rd, level, number_changed(entries)).is_some()
        && fits_page(page)
        && fits_entries(entries)
        && fits_realm(held, realm)
        && fits_rec(held, rec)
}

// Whether the records that are held are what the change updates. What it makes has the shape that its type keeps.
#[tactic(auto, unfolding(world_laws::specs::TableCells::holds_change))]
fn fits_cells(held: &HeldPairs, change: &Change) -> bool
    requires { spec.HasOwnShape change.now }
    ensures { result ≡ spec.fits_cells (pair_cells held.now) change.now }
{
    match change {
        Change::Retagged(change) => is_plain(change.tag),
        Change::RealmMade {
            width,
            level,
            algo,
            ..
        } => is_space(u64::from(*width), u64::from(*level)) && is_hash(*algo),
        Change::RecMade { rd, mpidr, .. } => counts_in(*mpidr, held.cell(Pa::new(*rd))),
        Change::RecordsChanged { realm, rec } => fits_realm(held, realm) && fits_rec(held, rec),
        Change::TableMade {
            rd,
            level,
            number,
            rtt,
            ..
        }
        | Change::TableDestroyed {
            rd,
            level,
            number,
            rtt,
            ..
        } => holds_two(held, *rd, *level, *number, *rtt),
        Change::EntriesChanged {
            rd,
            level,
            entries,
            page,
            realm,
            rec,
        } => fits_entry_change(held, *rd, *level, entries, page, realm, rec),
        Change::Unchanged | Change::RealmDestroyed { .. } | Change::RecDestroyed { .. } => true,
    }
}

// How many RECs belong to a realm. A side table that isn't at hand lists none.
fn rec_count(side: Option<&Side>, rd: u64) -> u64
    ensures { result ≡ (side_or_unlisted (option_map side_of (option_copied side.entry))).rec_counts rd }
{
    match side {
        Some(side) => side.rec_count(Pa::new(rd)),
        None => 0,
    }
}

// Whether a REC that is made can be counted.
fn can_count(config: &Config, granules: u64, side: Option<&Side>, change: &Change) -> bool
    requires { granules ≡ config.now.granules }
    ensures { result ≡ spec.can_count config.now.granules (side_or_unlisted (option_map side_of (option_copied side.entry))) change.now }
{
    match change {
        Change::RecMade { rd, .. } => is_granule(config, *rd) && rec_count(side, *rd) <= granules,
        _ => true,
    }
}

/// Whether the change can be made of what is held, on a machine of so many granules.
#[tactic(auto, unfolding(crate::specs::Changed::can_make))]
pub(crate) fn can_make(
    config: &Config,
    granules: u64,
    held: &HeldPairs,
    side: Option<&Side>,
    change: &Change,
) -> bool
    requires granules { granules ≡ config.now.granules }
    requires shaped { spec.HasOwnShape change.now }
    ensures { result ≡ spec.can_make config.now (pair_cells held.now) (side_or_unlisted (option_map side_of (option_copied side.entry))) change.now }
{
    fits_cells(held, change) && can_count(config, granules, side, change)
}
