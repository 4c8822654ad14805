//! What the tables that are held tell of walks and entries.

ghost use Rattle.std.specs.Prelude.{◌≡◌, ◌/◌, ◌&&◌, nat_le, if◌then◌else◌, length, Some, None, is_some, option_map, option_copied, IfSome, IsTrue};
ghost use Rattle.std.specs.List.{list_any};
ghost use Rattle.rmm_spec.specs.Flat.{is_table_of};
ghost use Rattle.rmm_spec.specs.Local.{granules_held};
ghost use Rattle.rmm_spec.specs.Table.{place_number};
ghost use Rattle.rmm_spec.specs.Update.{is_same_entry};
ghost use Rattle.rmm_spec.specs.Walk.{is_table};
ghost use Rattle.rtt_table.specs.Shaped.{IsShaped};
ghost use Rattle.world_laws.specs.SeenState as spec;
ghost use Rattle.command_core.specs.Pairs.{pair_cells};
ghost use Rattle.command_core.specs.Standing as standing;

use crate::held_pairs::HeldPairs;
use crate::held_sight::HeldSight;
use granule_cells::Cell;
use memory_map::{Pa, is_table, linked, passes, table_number};
use rmm_spec::{Entry, EntryTest, Place, Ripas};
use rtt_table::Table;

/// How many entries a table has.
const ENTRIES: u64 = 512;

/// Whether a table stands at the place of the realm, level and number.
#[tactic(auto, unfolding(rmm_spec::specs::Table::place_number))]
pub(crate) fn is_at(place: &Place, rd: u64, level: u8, number: u64) -> bool
    ensures { result ≡ is_same_entry rd level number place.now.rd place.now.level (place_number place.now) }
{
    place.rd == rd && place.level == level && table_number(place.level, place.base) == number
}

// The table that an entry links to.
fn link_of(entry: Entry) -> Option<u64>
    ensures { result ≡ spec.link_of entry }
{
    match entry {
        Entry::Table(granule) => Some(granule),
        Entry::Unassigned(_) | Entry::Assigned(..) | Entry::UnassignedNs | Entry::AssignedNs(_) =>
            None,
    }
}

/// The granule that was found, or else this one, where it passes.
pub(crate) fn found_or(found: Option<u64>, granule: Pa, passes: bool) -> Option<u64>
    ensures { result ≡ (if is_some found then found else (if passes then Some granule else None)) }
{
    if found.is_some() {
        return found;
    }
    if passes {
        Some(granule.address())
    } else {
        None
    }
}

/// The level from which an address space of that width is walked.
pub(crate) fn start_of(width: u8) -> u8
    ensures { result ≡ spec.start_of width }
{
    if width == 0x27 { 1 } else { 0 }
}

/// The table that is held in a granule.
pub(crate) fn table_in(held: &HeldPairs, granule: Pa) -> Option<&Table>
    ensures { option_copied result ≡ spec.table_held (pair_cells held.now) granule }
{
    match held.cell(granule) {
        Some(Cell::Rtt(table)) => Some(table),
        _ => None,
    }
}

// Whether the table of that place is held in a granule.
fn is_placed(held: &HeldPairs, granule: Pa, rd: u64, level: u8, number: u64) -> bool
    ensures { result ≡ is_table_of rd level number (spec.table_held (pair_cells held.now) granule) }
{
    match table_in(held, granule) {
        Some(table) => is_at(&table.place(), rd, level, number),
        None => false,
    }
}

// Whether a table at the place is of the level, under the table of that number above it.
#[tactic(auto, unfolding(rmm_spec::specs::Table::place_number))]
fn is_at_under(place: &Place, rd: u64, level: u8, number: u64) -> bool
    ensures { result ≡ is_same_entry rd level number place.now.rd place.now.level (place_number place.now / 512) }
{
    place.rd == rd
        && place.level == level
        && table_number(place.level, place.base) / ENTRIES == number
}

// Whether one that is held in a granule is.
fn is_under(held: &HeldPairs, granule: Pa, rd: u64, level: u8, number: u64) -> bool
    ensures { result ≡ standing.is_under rd level number (spec.table_held (pair_cells held.now) granule) }
{
    match table_in(held, granule) {
        Some(table) => is_at_under(&table.place(), rd, level, number),
        None => false,
    }
}

// Whether one that is held in some granule is.
fn holds_under(held: &HeldPairs, rd: u64, level: u8, number: u64) -> bool
    ensures { result
        ≡ list_any (λ granule. standing.is_under rd level number (spec.table_held (pair_cells held.now) granule))
        (granules_held (pair_cells held.now)) }
{
    held.held()
        .iter()
        .any(|granule| is_under(held, *granule, rd, level, number))
}

// The table that is held in a granule, with all its entries.
fn whole_table_in(held: &HeldPairs, granule: Pa) -> Option<&Table>
    ensures held { option_copied result ≡ spec.table_held (pair_cells held.now) granule }
    ensures whole { IfSome (option_copied result) (λ t. length t.entries ≡ 512) }
{
    match table_in(held, granule) {
        Some(table) => {
            let _fact = table.is_whole();
            Some(table)
        }
        None => None,
    }
}

// Whether a table of the level has links though it is of the last level, where they count for nothing.
fn has_dead_link(table: &Table, level: u8) -> bool
    ensures { result ≡ (nat_le 3 level && list_any is_table table.now.entries) }
{
    level >= 3 && table.has_link()
}

/// A table that is held in a granule stands where a realm's table can.
pub(crate) fn stands_well(held: &HeldPairs, granule: Pa)
    ensures { IfSome (spec.table_held (pair_cells held.now) granule) (λ t. IsShaped t.place) }
{
    if let Some(table) = table_in(held, granule) {
        let _fact = table.place();
    }
}

/// The granule of the first held table of that place.
#[tactic(auto, unfolding(world_laws::specs::SeenState::table_placed))]
pub(crate) fn placed(held: &HeldPairs, rd: u64, level: u8, number: u64) -> Option<u64>
    ensures { result ≡ spec.table_placed (pair_cells held.now) rd level number }
{
    held.held().iter().fold(
        None,
        |found, granule| found_or(
            found,
            *granule,
            is_placed(held, *granule, rd, level, number),
        ),
    )
}

impl<'a> HeldSight<'a> {
    ghost use Rattle.std.specs.Prelude.{◌≡◌, ◌<◌, ◌≤◌, ◌^◌, ◌+◌, ◌||◌, nat_lt, None, if◌then◌else◌, option_copied, option_map, IfSome, IsTrue};
    ghost use Rattle.rmm_spec.specs.Step.Terms.{is_space};
    ghost use Rattle.std.specs.Option.{option_and_then};
    ghost use Rattle.rmm_spec.specs.Table.{TableRecord};
    ghost use Rattle.rmm_spec.specs.Flat.{is_table_of};
    ghost use Rattle.rmm_spec.specs.Walk as walks;
    ghost use Rattle.rmm_spec.specs.declared.entry.Entry.TheVariants.{Unassigned};
    ghost use Rattle.rmm_spec.specs.declared.tag.Ripas.TheVariants.{Empty};
    ghost use Rattle.world_laws.specs.SeenState as spec;
    ghost use Rattle.world_laws.specs.SeenState.{seen_state};
    ghost use Rattle.command_core.specs.Pairs.{pair_cells};
    ghost use Rattle.command_core.specs.Standing.{IsHeldTable, is_above_held};

    // Whether a table of the realm is held in a granule.
    fn is_of_realm(&self, granule: Pa, rd: u64) -> bool
        ensures { result ≡ spec.is_of_realm rd (spec.table_held (pair_cells self.now.held.now) granule) }
    {
        match table_in(self.held, granule) {
            Some(table) => table.place().rd == rd,
            None => false,
        }
    }

    /// The granule of the first held table of the realm.
    #[tactic(auto, unfolding(world_laws::specs::SeenState::table_behind))]
    pub(crate) fn behind(&self, rd: u64) -> Option<u64>
        ensures { result ≡ spec.table_behind (pair_cells self.now.held.now) rd }
    {
        self.held.held().iter().fold(
            None,
            |found, granule| found_or(found, *granule, self.is_of_realm(*granule, rd)),
        )
    }

    // The width of the table that is held in a granule.
    fn width_in(&self, granule: u64) -> Option<u8>
        ensures known { option_map spec.blank_realm result
            ≡ option_and_then (λ (t : TableRecord). spec.realm_of_width t.place.width) (spec.table_held (pair_cells self.now.held.now) granule) }
        ensures space { IfSome result (λ w. IsTrue (is_space w (spec.start_of w))) }
    {
        match table_in(self.held, Pa::new(granule)) {
            Some(table) => Some(table.place().width),
            None => None,
        }
    }

    /// The width of a realm's address space, where a held table of it tells that.
    #[tactic(auto, unfolding(world_laws::specs::SeenState::realm_behind))]
    pub(crate) fn width(&self, rd: u64) -> Option<u8>
        ensures known { option_map spec.blank_realm result ≡ spec.realm_behind (pair_cells self.now.held.now) rd }
        ensures space { IfSome result (λ w. IsTrue (is_space w (spec.start_of w))) }
    {
        match self.behind(rd) {
            Some(granule) => self.width_in(granule),
            None => None,
        }
    }

    // The entry at a place of the table that is held in a granule.
    fn entry_in(&self, granule: Pa, place: usize) -> Option<Entry>
        requires { place < 512 }
        ensures { result ≡ spec.entry_in place (spec.table_held (pair_cells self.now.held.now) granule) }
    {
        match table_in(self.held, granule) {
            Some(table) => Some(table.entry(place)),
            None => None,
        }
    }

    // The entry of that number, where its table is held.
    #[tactic(auto, unfolding(world_laws::specs::SeenState::entry_held))]
    fn entry_held(&self, rd: u64, level: u8, number: u64) -> Option<Entry>
        ensures { result ≡ spec.entry_held (pair_cells self.now.held.now) rd level number }
    {
        match placed(self.held, rd, level, number / ENTRIES) {
            Some(granule) => self.entry_in(Pa::new(granule), (number % ENTRIES) as usize),
            None => None,
        }
    }

    /// The granule of the table of that place: what the entry above links to, or where that isn't held, that of a held one.
    #[tactic(auto, unfolding(world_laws::specs::SeenState::table_seen))]
    pub(crate) fn table(&self, rd: u64, level: u8, number: u64) -> Option<u64>
        ensures { result ≡ spec.table_seen (pair_cells self.now.held.now) rd level number }
    {
        if level == 0 {
            return placed(self.held, rd, level, number);
        }
        match self.entry_held(rd, level - 1, number) {
            Some(entry) => link_of(entry),
            None => placed(self.held, rd, level, number),
        }
    }

    // The leaf of that number, where its table is held.
    #[tactic(auto, unfolding(world_laws::specs::SeenState::leaf_seen))]
    fn leaf(&self, rd: u64, level: u8, number: u64) -> Option<Entry>
        ensures { result ≡ spec.leaf_seen (pair_cells self.now.held.now) rd level number }
    {
        match self.entry_held(rd, level, number) {
            Some(entry) if !is_table(entry) => Some(entry),
            _ => None,
        }
    }

    // The granule of the table below an entry.
    fn below(&self, rd: u64, level: u8, number: u64) -> Option<u64>
        ensures { result ≡ (if nat_lt level 3 then spec.table_seen (pair_cells self.now.held.now) rd (level + 1) number else None) }
    {
        if level < 3 {
            self.table(rd, level + 1, number)
        } else {
            None
        }
    }

    /// The entry of that number at the level.
    #[tactic(auto, unfolding(world_laws::specs::SeenState::seen_state, rmm_spec::specs::Walk::entry_at))]
    pub(crate) fn entry(&self, rd: u64, level: u8, number: u64) -> Entry
        ensures { result ≡ walks.entry_at (seen_state self.now.config.now (pair_cells self.now.held.now)) rd level number }
    {
        linked(self.below(rd, level, number), self.leaf(rd, level, number))
    }

    /// The deepest level up to `max` at which a table covers the address.
    #[tactic(auto, unfolding(world_laws::specs::SeenState::seen_state))]
    pub(crate) fn reach(&self, rd: u64, ipa: u64, max: u8) -> u8
        ensures level { result ≡ walks.reach (seen_state self.now.config.now (pair_cells self.now.held.now)) rd ipa max }
        ensures within { result ≤ max }
    {
        if max == 0 {
            return 0;
        }
        if self.table(rd, max, table_number(max, ipa)).is_some() {
            return max;
        }
        self.reach(rd, ipa, max - 1)
    }

    // The held table of that number at the level.
    fn table_here(&self, rd: u64, level: u8, number: u64) -> Option<&Table>
        ensures { IsHeldTable (pair_cells self.now.held.now) rd level number (option_copied result) }
    {
        match placed(self.held, rd, level, number) {
            Some(granule) => whole_table_in(self.held, Pa::new(granule)),
            None => None,
        }
    }

    // Whether a held table stands under the table of that number.
    #[tactic(auto, unfolding(crate::specs::Standing::is_above_held))]
    fn has_under(&self, rd: u64, level: u8, number: u64) -> bool
        ensures { result ≡ is_above_held (pair_cells self.now.held.now) rd level number }
    {
        if level < 3 {
            holds_under(self.held, rd, level + 1, number)
        } else {
            false
        }
    }

    // Whether an entry of that table is one that is looked for, where the table isn't held: its entries have nothing, or link to a held one.
    fn finds_unheld(&self, rd: u64, level: u8, number: u64, test: EntryTest) -> bool
        ensures { result ≡ (walks.passes test (Unassigned Empty) || is_above_held (pair_cells self.now.held.now) rd level number) }
    {
        passes(test, Entry::Unassigned(Ripas::Empty)) || self.has_under(rd, level, number)
    }

    // Whether one of the entries of that table is one that is looked for, entry by entry.
    #[tactic(auto, unfolding(rmm_spec::specs::Walk::has_entry))]
    fn finds_each(&self, rd: u64, level: u8, number: u64, test: EntryTest) -> bool
        requires { number < 2 ^ 52 }
        ensures { result ≡ walks.has_entry (seen_state self.now.config.now (pair_cells self.now.held.now)) rd level number test }
    {
        for place in 0..ENTRIES {
            if passes(test, self.entry(rd, level, ENTRIES * number + place)) {
                return true;
            }
        }
        false
    }

    /// Whether the table of that number has an entry that is looked for.
    pub(crate) fn finds(&self, rd: u64, level: u8, number: u64, test: EntryTest) -> bool
        requires { number < 2 ^ 52 }
        ensures { result ≡ walks.has_entry (seen_state self.now.config.now (pair_cells self.now.held.now)) rd level number test }
    {
        match self.table_here(rd, level, number) {
            Some(table) => {
                if has_dead_link(table, level) {
                    self.finds_each(rd, level, number, test)
                } else {
                    table.has(test)
                }
            }
            None => self.finds_unheld(rd, level, number, test),
        }
    }
}
