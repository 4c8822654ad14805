//! Searches through the entries of one table.

ghost use Rattle.std.specs.Prelude.{◌≡◌, ◌≤◌, IsTrue, option_copied};
ghost use Rattle.spec_machine.specs.Searches as search;

use crate::machine::Machine;
use command_rows::Sight;
use memory_map::{can_be_set, entry_number, entry_size, passes, table_number};
use rmm_spec::{Entry, EntryTest, Ripas, Stretch, StretchUse};
use rtt_table::Table;

impl Machine {
    ghost use Rattle.std.specs.Prelude.{◌≡◌, ◌^◌, ◌/◌, ◌<◌, ◌≤◌, None, option_copied};
    ghost use Rattle.rmm_spec.specs.Walk.{entry_at};
    ghost use Rattle.rmm_spec.specs.Step.Ripas.{is_reached};
    ghost use Rattle.spec_machine.specs.View.{state_of};
    ghost use Rattle.spec_machine.specs.Searches.{IsTable};

    /// The realm's table of that number at the level.
    pub(crate) fn table_here(&self, rd: u64, level: u8, number: u64) -> Option<&Table>
        ensures { IsTable self.now.granules rd level number (option_copied result) }
    {
        let Some(granule) = self.table_at(rd, level, number) else {
            return None;
        };
        self.granules.list.table_in(granule)
    }

    /// The entry of that number, where its table is this one or doesn't stand.
    pub(crate) fn entry_in(&self, table: Option<&Table>, rd: u64, level: u8, number: u64) -> Entry
        requires { IsTable self.now.granules rd level (number / 512) (option_copied table) }
        ensures { result ≡ entry_at (state_of self.now) rd level number }
    {
        match table {
            Some(table) => table.entry((number % 512) as usize),
            None => self.unlisted(rd, level, number),
        }
    }

    // The entry of that number where no table has it: above a root is a link to it.
    fn unlisted(&self, rd: u64, level: u8, number: u64) -> Entry
        requires { (state_of self.now).table rd level (number / 512) ≡ None }
        ensures { result ≡ entry_at (state_of self.now) rd level number }
    {
        if level >= 3 {
            return Entry::Unassigned(Ripas::Empty);
        }
        match self.table_at(rd, level + 1, number) {
            Some(granule) => Entry::Table(granule),
            None => Entry::Unassigned(Ripas::Empty),
        }
    }

    /// Whether an entry of a table that doesn't stand is one that is looked for.
    pub(crate) fn has_unlisted(&self, rd: u64, level: u8, number: u64, test: EntryTest) -> bool
        requires { number < 2 ^ 55 }
        ensures { result ≡ search.has_unlisted (state_of self.now) rd level number test }
    {
        passes(test, self.entry_at(rd, level, 512 * number))
            || passes(test, Entry::Unassigned(Ripas::Empty))
    }

    /// Whether a stretch may be set up to `top`.
    pub fn is_reached(&self, stretch: &Stretch, top: u64) -> bool
        requires { stretch.now.level ≤ 3 }
        ensures { result ≡ is_reached (state_of self.now) stretch.now top }
    {
        if !is_end(stretch, top) {
            return false;
        }
        let level = stretch.level;
        let first = entry_number(level, stretch.base);
        let count = entry_number(level, top - stretch.base);
        let table = self.table_here(stretch.rd, level, first / 512);
        if is_free(table, stretch.purpose) {
            return true;
        }
        for place in 0..count {
            let entry = self.entry_in(table, stretch.rd, level, first + place);
            if !can_be_set(stretch.purpose, entry) {
                return false;
            }
        }
        true
    }
}

// Whether the counts of a table tell that each of its entries may be set.
fn is_free(table: Option<&Table>, purpose: StretchUse) -> bool
    ensures { IsTrue result → search.IsFree (option_copied table.entry) purpose }
{
    match (table, purpose) {
        (Some(table), StretchUse::Init) => !table.is_live(),
        (Some(table), StretchUse::Requested { .. }) => !table.has_link(),
        (None, _) => false,
    }
}

// Whether a stretch may end there, whatever its entries are.
#[tactic(auto, using(crate::proofs::Stretches::end_past, crate::proofs::Stretches::end_beyond, crate::proofs::Stretches::end_between, crate::proofs::Stretches::end_at))]
fn is_end(stretch: &Stretch, top: u64) -> bool
    requires { stretch.now.level ≤ 3 }
    ensures { result ≡ search.is_end stretch.now top }
{
    let level = stretch.level;
    let base = stretch.base;
    if top <= base {
        return false;
    }
    if stretch.top < top {
        return false;
    }
    let size = entry_size(level);
    if (top - base) % size != 0 {
        return false;
    }
    let last = table_number(level, top - 1);
    let own = table_number(level, base);
    last <= own
}
