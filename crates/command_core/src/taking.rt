//! What may be taken next, told by the cells that are held.

ghost use Rattle.std.specs.Prelude.{◌≡◌, ◌<◌, option_map, option_copied};
ghost use Rattle.rmm_spec.specs.Locks as locks;
ghost use Rattle.rmm_spec.specs.Lookup as lookup;
ghost use Rattle.rmm_spec.specs.Cell as whole;
ghost use Rattle.command_core.specs.Seen as seen;
ghost use Rattle.command_core.specs.Seen.{cell_of};
ghost use Rattle.command_core.specs.Named as spec;
ghost use Rattle.command_core.specs.Pairs.{pair_cells};

use crate::held_pairs::HeldPairs;
use crate::held_sight::HeldSight;
use command_words::{Name, is_tag};
use granule_cells::Cell;
use memory_map::{Config, Pa, granule_at};
use rmm_spec::Entry;

/// Whether a granule is one of the machine's.
pub(crate) fn is_granule(config: &Config, address: u64) -> bool
    ensures { result ≡ lookup.is_granule config.now.granules address }
{
    granule_at(config, address).is_some()
}

/// Whether a granule is held.
pub(crate) fn is_held(held: &HeldPairs, pa: Pa) -> bool
    ensures { result ≡ seen.is_held pa (pair_cells held.now) }
{
    held.cell(pa).is_some()
}

// Whether a granule is named.
fn is_named(names: &[Name], granule: u64) -> bool
    ensures { result ≡ locks.is_named names.now granule }
{
    names.iter().any(|name| name.granule == granule)
}

// Whether the granule is named with another tag than its cell has.
fn is_wrong_for(cell: &Cell, granule: u64, names: &[Name]) -> bool
    ensures { result ≡ spec.is_wrong_for (cell_of cell.now) granule names.now }
{
    let tag = cell.tag();
    names
        .iter()
        .any(|name| name.granule == granule && !is_tag(tag, name.tag))
}

// Whether what is held at a granule has another tag than is needed there.
fn is_wrong(held: &HeldPairs, pa: Pa, names: &[Name]) -> bool
    ensures { result ≡ spec.is_wrong (seen.cell_in pa (pair_cells held.now)) pa names.now }
{
    match held.cell(pa) {
        None => false,
        Some(cell) => is_wrong_for(cell, pa.address(), names),
    }
}

/// Whether a granule that is held and named has another tag than is needed there.
#[tactic(auto, unfolding(crate::specs::Named::has_wrong))]
pub(crate) fn has_wrong(names: &[Name], held: &HeldPairs) -> bool
    ensures { result ≡ spec.has_wrong names.now (pair_cells held.now) }
{
    held.held().iter().any(|pa| is_wrong(held, *pa, names))
}

/// Whether all granules that are named are held.
#[tactic(auto, unfolding(crate::specs::Named::holds_all))]
pub(crate) fn holds_all(names: &[Name], held: &HeldPairs) -> bool
    ensures { result ≡ spec.holds_all names.now (pair_cells held.now) }
{
    names
        .iter()
        .all(|name| is_held(held, Pa::new(name.granule)))
}

// Whether what is held at a granule is named, as it has to be, and below the one that is to be taken.
fn fits_below(names: &[Name], next: u64, held: &HeldPairs, pa: Pa) -> bool
    ensures { result ≡ spec.fits_below names.now next pa (seen.cell_in pa (pair_cells held.now)) }
{
    let granule = pa.address();
    match held.cell(pa) {
        None => false,
        Some(cell) => {
            is_named(names, granule)
                && granule < next
                && !is_wrong_for(cell, granule, names)
                && !is_data(cell)
        }
    }
}

fn is_data(cell: &Cell) -> bool
    ensures { result ≡ whole.is_data (cell_of cell.now) }
{
    matches!(cell, Cell::Data)
}

// Whether each granule that is held is named, as it has to be, and below the one that is to be taken.
fn are_below(names: &[Name], next: u64, held: &HeldPairs) -> bool
    ensures { result ≡ spec.are_below names.now next (pair_cells held.now) }
{
    held.held()
        .iter()
        .all(|pa| fits_below(names, next, held, *pa))
}

/// Whether a named granule may be taken: it is above all that are held, and those are named.
#[tactic(auto, unfolding(crate::specs::Named::is_upward))]
pub(crate) fn is_upward(config: &Config, names: &[Name], held: &HeldPairs, next: u64) -> bool
    ensures { result ≡ spec.is_upward config.now names.now (pair_cells held.now) next }
{
    is_granule(config, next)
        && is_named(names, next)
        && held.held().len() <= 5
        && are_below(names, next, held)
}

// Whether an entry leads to the granule: to the table below, or to a page of the protected half.
fn leads_to(granule: u64, entry: Entry) -> bool
    ensures { result ≡ locks.leads_to granule entry }
{
    match entry {
        Entry::Table(below) | Entry::Assigned(_, below) => below == granule,
        Entry::Unassigned(_) | Entry::UnassignedNs | Entry::AssignedNs(_) => false,
    }
}

// Whether a realm has the granule for its root, a REC for one of its two others, or a table's entry at that place leads to it.
#[tactic(auto, unfolding(realm_desc::specs::View::realm_record, realm_desc::specs::View::rec_record))]
fn has_part(above: Option<&Cell>, index: usize, granule: u64) -> bool
    requires { index < 512 }
    ensures { result ≡ spec.has_part (option_map cell_of (option_copied above.entry)) index granule }
{
    match above {
        Some(Cell::Rd(descriptor)) => descriptor.realm().root.address() == granule,
        Some(Cell::Rec(rec)) => rec.aux0.address() == granule || rec.aux1.address() == granule,
        Some(Cell::Rtt(table)) => leads_to(granule, table.entry(index)),
        _ => false,
    }
}

// Whether it is one of the two others of a REC.
#[tactic(auto, unfolding(realm_desc::specs::View::rec_record))]
fn has_aux_part(above: Option<&Cell>, granule: u64) -> bool
    ensures { result ≡ spec.has_aux_part (option_map cell_of (option_copied above.entry)) granule }
{
    match above {
        Some(Cell::Rec(rec)) => rec.aux0.address() == granule || rec.aux1.address() == granule,
        _ => false,
    }
}

// How deep a table is, counted from 1, and 0 for what is no table.
fn depth(cell: &Cell) -> u64
    ensures { result ≡ locks.depth (cell_of cell.now) }
{
    match cell {
        Cell::Rtt(table) => u64::from(table.place().level) + 1,
        _ => 0,
    }
}

fn depth_in(cell: Option<&Cell>) -> u64
    ensures { result ≡ spec.depth_in (option_map cell_of (option_copied cell.entry)) }
{
    match cell {
        Some(cell) => depth(cell),
        None => 0,
    }
}

// Whether what is held at a granule is named, as it has to be, or a table no deeper than the one above, or an auxiliary granule of
// the REC above.
fn fits_beside(names: &[Name], above: Pa, held: &HeldPairs, pa: Pa) -> bool
    ensures { result ≡ spec.fits_beside names.now (seen.cell_in above (pair_cells held.now)) pa (seen.cell_in pa (pair_cells held.now)) }
{
    let granule = pa.address();
    match held.cell(pa) {
        None => false,
        Some(cell) => {
            (is_named(names, granule) || 0 < depth(cell) || has_aux_part(held.cell(above), granule))
                && !is_wrong_for(cell, granule, names)
                && !is_data(cell)
                && depth(cell) <= depth_in(held.cell(above))
        }
    }
}

fn are_beside(names: &[Name], above: Pa, held: &HeldPairs) -> bool
    ensures { result ≡ spec.are_beside names.now above (pair_cells held.now) }
{
    held.held()
        .iter()
        .all(|pa| fits_beside(names, above, held, *pa))
}

/// Whether a part of the realm, REC or table above may be taken: no deeper table is held.
#[tactic(auto, unfolding(crate::specs::Named::is_downward))]
pub(crate) fn is_downward(
    config: &Config,
    names: &[Name],
    held: &HeldPairs,
    above: Pa,
    index: usize,
    next: Pa,
) -> bool
    requires { index < 512 }
    ensures { result ≡ spec.is_downward config.now names.now (pair_cells held.now) above index next }
{
    is_granule(config, next.address())
        && !is_held(held, next)
        && held.held().len() <= 5
        && has_part(held.cell(above), index, next.address())
        && are_beside(names, above, held)
}

// The lesser of the two, where the named granule is one that may be taken: its tag isn't told yet.
fn lesser(sight: &HeldSight<'_>, keeps: bool, best: Option<u64>, name: &Name) -> Option<u64>
    ensures { result ≡ spec.lesser sight.now.config.now keeps (pair_cells sight.now.held.now) best name.now }
{
    let granule = name.granule;
    if is_granule(sight.config, granule) && !sight.is_told(keeps, name) && is_less(granule, best) {
        Some(granule)
    } else {
        best
    }
}

fn is_less(granule: u64, best: Option<u64>) -> bool
    ensures { result ≡ spec.is_less granule best }
{
    match best {
        None => true,
        Some(best) => granule < best,
    }
}

/// The least granule that is named and isn't told.
#[tactic(auto, unfolding(crate::specs::Named::least_missing))]
pub(crate) fn least_missing(sight: &HeldSight<'_>, keeps: bool, names: &[Name]) -> Option<u64>
    ensures { result ≡ spec.least_missing sight.now.config.now keeps names.now (pair_cells sight.now.held.now) }
{
    names
        .iter()
        .fold(None, |best, name| lesser(sight, keeps, best, name))
}
