//! A report of which realm each granule belongs to.

ghost use Rattle.std.specs.Prelude.{◌≡◌, ◌+◌, ◌++◌, ◌<◌, ◌≤◌, ℕ, List, None, OnOk, OnErr, length, vec_len, vec_capacity};
ghost use Rattle.rmm_spec.specs.State.{State};
ghost use Rattle.spec_machine.specs.View.{state_of, tables_at};
ghost use Rattle.reasons.specs.declared.owner_rows.OwnerRow.{OwnerRow};
ghost use Rattle.reasons.specs.Owners.{Assigns, Gives, IsOf, IsPageOf, RealmGives, RecGives, TableGives};
ghost use Rattle.reasons.specs.Report.{AddsOwners, owner_rows};

use memory_map::{GRANULE_BYTES, Pa};
use realm_desc::Rec;
use rmm_spec::{Entry, Tag};
use rtt_table::Table;
use spec_machine::Machine;
use std::alloc::AllocError;

/// How many entries a table has.
const ENTRIES: usize = 512;

/// A granule's tag, and the realm that it belongs to, where it belongs to one.
#[derive(Clone, Copy)]
pub struct OwnerRow {
    pub granule: Pa,
    pub tag: Tag,
    pub realm: Option<Pa>,
}

/// Adds a row for each granule, in the order of addresses. Refused memory, it adds none.
pub fn owner_report(machine: &Machine, rows: &mut Vec<OwnerRow>) -> Result<(), AllocError>
    ensures ok { OnOk result (AddsOwners (state_of machine.now) rows.old.items rows.new.items) }
    ensures err { OnErr result (rows.new.items ≡ rows.old.items) }
    ensures full { OnErr result (vec_capacity rows.old < vec_len rows.old + (state_of machine.now).config.granules) }
{
    let Ok(()) = rows.reserve(machine.granule_count()) else {
        return Err(AllocError);
    };
    let first = rows.len();
    push_rows(machine, rows);
    give_all(machine, first, rows);
    Ok(())
}

// Adds rows without owners, for which there is room.
fn push_rows(machine: &Machine, rows: &mut Vec<OwnerRow>)
    requires { vec_len rows.old + (state_of machine.now).config.granules ≤ vec_capacity rows.old }
    ensures { rows.new.items ≡ rows.old.items ++ owner_rows (state_of machine.now) (λ _. None) (state_of machine.now).config.granules }
{
    for number in 0..machine.granule_count() {
        let granule = number as u64 * GRANULE_BYTES;
        rows.push_reserved(OwnerRow {
            granule: Pa::new(granule),
            tag: machine.tag(granule),
            realm: None,
        });
    }
}

// What lies in each granule gives granules to its realm.
fn give_all(machine: &Machine, first: usize, rows: &mut Vec<OwnerRow>)
    ensures { (before : List OwnerRow) → length before ≡ first
        → rows.old.items ≡ before ++ owner_rows (state_of machine.now) (λ _. None) (state_of machine.now).config.granules
        → AddsOwners (state_of machine.now) before rows.new.items }
{
    for number in 0..machine.granule_count() {
        let granule = number as u64 * GRANULE_BYTES;
        give_realm(machine, granule, first, rows);
        give_rec(machine, granule, first, rows);
        give_table(machine, granule, first, rows);
    }
}

// A realm's descriptor there gives its granule.
fn give_realm(machine: &Machine, granule: u64, first: usize, rows: &mut Vec<OwnerRow>)
    ensures { Gives (state_of machine.now) first (RealmGives (state_of machine.now).realm granule) rows.old.items rows.new.items }
{
    if machine.realm_in(granule).is_some() {
        give(first, rows, granule, granule);
    }
}

// A REC there gives its granule and its auxiliary ones.
fn give_rec(machine: &Machine, granule: u64, first: usize, rows: &mut Vec<OwnerRow>)
    ensures { Gives (state_of machine.now) first (RecGives (state_of machine.now).rec granule) rows.old.items rows.new.items }
{
    if let Some(rec) = machine.rec_in(granule) {
        give(first, rows, granule, owner(rec));
        give(first, rows, aux0(rec), owner(rec));
        give(first, rows, aux1(rec), owner(rec));
    }
}

// A table there gives its granule and its pages.
fn give_table(machine: &Machine, granule: u64, first: usize, rows: &mut Vec<OwnerRow>)
    ensures { Gives (state_of machine.now) first (TableGives (tables_at machine.now) granule) rows.old.items rows.new.items }
{
    if let Some(table) = machine.table_in(granule) {
        give(first, rows, granule, table.place().rd);
        give_pages(first, rows, table);
    }
}

// A REC's realm, by the address of its descriptor.
#[tactic(auto, unfolding(realm_desc::specs::View::rec_record))]
fn owner(rec: &Rec) -> u64
    ensures { result ≡ rec.now.owner }
{
    rec.owner.address()
}

// The first of a REC's auxiliary granules.
#[tactic(auto, unfolding(realm_desc::specs::View::rec_record))]
fn aux0(rec: &Rec) -> u64
    ensures { result ≡ rec.now.aux0 }
{
    rec.aux0.address()
}

// The second.
#[tactic(auto, unfolding(realm_desc::specs::View::rec_record))]
fn aux1(rec: &Rec) -> u64
    ensures { result ≡ rec.now.aux1 }
{
    rec.aux1.address()
}

// The granule belongs to the realm.
fn give(first: usize, rows: &mut Vec<OwnerRow>, granule: u64, rd: u64)
    ensures { (s : State) → IsOf s granule rd → Gives s first (λ other. other ≡ granule) rows.old.items rows.new.items }
{
    let number = (granule / GRANULE_BYTES) as usize;
    if number < rows.len().saturating_sub(first) {
        rows[first + number].realm = Some(Pa::new(rd));
    }
}

// The pages of the table belong to its realm.
fn give_pages(first: usize, rows: &mut Vec<OwnerRow>, table: &Table)
    ensures { (s : State) → length table.now.entries ≡ 512 → ((page : ℕ) → IsPageOf table.now.entries page → IsOf s page table.now.place.rd)
        → Gives s first (IsPageOf table.now.entries) rows.old.items rows.new.items }
{
    let rd = table.place().rd;
    for index in 0..ENTRIES {
        give_page(first, rows, table.entry(index), rd);
    }
}

// The page of the entry, where it assigns one, belongs to the realm.
fn give_page(first: usize, rows: &mut Vec<OwnerRow>, entry: Entry, rd: u64)
    ensures { (s : State) → ((page : ℕ) → Assigns entry page → IsOf s page rd) → Gives s first (Assigns entry) rows.old.items rows.new.items }
{
    if let Entry::Assigned(_, page) = entry {
        give(first, rows, page, rd);
    }
}
