//! Which table's entries a change changes.

ghost use Rattle.std.specs.Prelude.{◌≡◌, ℕ, Option};
ghost use Rattle.std.specs.Option.{option_and_then};
ghost use Rattle.rmm_laws.specs.Whole as whole;
ghost use Rattle.granule_cells.specs.declared.finding.TablePlace.{TablePlace as Place};
ghost use Rattle.granule_cells.specs.Changes.{table_found};

use rmm_spec::{Change, EntryChange};

/// A realm's table of a level, by its number there.
#[derive(Clone, Copy)]
pub struct TablePlace {
    pub rd: u64,
    pub level: u8,
    pub number: u64,
}

/// The place of the table whose entries the change changes, where it changes any.
#[inline(always)]
pub fn table_changed(change: &Change) -> Option<TablePlace>
    ensures { (find : ℕ → ℕ → ℕ → Option ℕ) → table_found find change.now ≡ option_and_then (λ (p : Place). find p.rd p.level p.number) result }
{
    match *change {
        Change::TableMade {
            rd,
            level,
            number,
            ..
        }
        | Change::TableDestroyed {
            rd,
            level,
            number,
            ..
        } => Some(TablePlace {
            rd,
            level: level.saturating_sub(1),
            number: number / 512,
        }),
        Change::EntriesChanged {
            rd,
            level,
            ref entries,
            ..
        } => Some(TablePlace {
            rd,
            level,
            number: number_changed(entries),
        }),
        _ => None,
    }
}

/// The number of the table whose entries are changed.
#[inline(always)]
pub fn number_changed(change: &EntryChange) -> u64
    ensures { result ≡ whole.table_changed change.now }
{
    match *change {
        EntryChange::Replaced { number, .. } => number / 512,
        EntryChange::RipasSet { first, .. } => first / 512,
    }
}
