//! Walks over small sets of tables, with expected ends worked out by hand.

use fixtures::{PlainCells, covers, is_shaped, is_walkable};
use memory_map::{Config, Ipa, Pa};
use rtt_table::{Cells, Entry, Place, Reached, Ripas, Table, walk};
use std::alloc::Global;
use std::process::Abort;
use std::test::Fail;

const EMPTY: Entry = Entry::Unassigned(Ripas::Empty);

const TOP: u64 = 0x7f_ffff_f000;

fn place(level: u8, base: u64, width: u8) -> Place {
    Place {
        rd: 0x1000,
        level,
        base,
        width,
    }
}

// A table of copies of an entry, where one can stand.
fn table_at(alloc: Global, place: Place, fill: Entry) -> Result<Table, Fail> {
    if !is_shaped(&place) {
        return Err(Fail::from("no such place"));
    }
    Ok(Table::new(alloc, place, fill)?)
}

#[test]
fn table_covers_its_bytes(rt: HostRuntime) {
    let page_table = place(3, 0x20_0000, 0x27);
    assert!(rt; covers(&page_table, Ipa::new(0x20_0000)));
    assert!(rt; covers(&page_table, Ipa::new(0x3f_ffff)));
    assert!(rt; !covers(&page_table, Ipa::new(0x1f_ffff)));
    assert!(rt; !covers(&page_table, Ipa::new(0x40_0000)));
}

// The address of a table, its level, and its entry.
type End = Option<(u64, u8, Entry)>;

// Where a walk from the root at 2000 ends, or nothing where it may not start.
fn ends_at(cells: &PlainCells, ipa: u64, max: u8) -> End {
    let root = Pa::new(0x2000);
    let ipa = Ipa::new(ipa);
    if is_walkable(cells, cells.granules(), root, ipa, max) {
        let Reached { pa, level, entry } = walk(cells, root, ipa, max);
        Some((pa.address(), level, entry))
    } else {
        None
    }
}

fn empty_cells(alloc: Global) -> Result<PlainCells, Fail> {
    let config = Config::new(16, 1).ok_or("no such machine")?;
    Ok(PlainCells::new(alloc, &config)?)
}

fn put(cells: &mut PlainCells, address: u64, table: Result<Table, Fail>) -> Result<(), Fail> {
    let is_put = cells.put(Pa::new(address), table?);
    is_put.then_some(()).ok_or("no such granule")?;
    Ok(())
}

// A root at level 1 of width 0x27 at 2000, and below it tables at 3000 (level 2) and 4000 (level 3) for the last address.
fn three_levels(alloc: Global) -> Result<PlainCells, Fail> {
    let mut cells = empty_cells(alloc)?;
    put(&mut cells, 0x2000, root(alloc))?;
    let middle = place(2, 0x7f_c000_0000, 0x27);
    put(
        &mut cells,
        0x3000,
        ending(alloc, middle, Entry::Table(0x4000)),
    )?;
    let last = place(3, 0x7f_ffe0_0000, 0x27);
    put(
        &mut cells,
        0x4000,
        ending(alloc, last, Entry::AssignedNs(0x9000)),
    )?;
    Ok(cells)
}

fn root(alloc: Global) -> Result<Table, Fail> {
    let mut root = table_at(alloc, place(1, 0, 0x27), EMPTY)?;
    root.set_entry(511, Entry::Table(0x3000));
    root.set_entry(256, Entry::UnassignedNs);
    Ok(root)
}

// A table that has one entry of its own, the last.
fn ending(alloc: Global, place: Place, entry: Entry) -> Result<Table, Fail> {
    let mut table = table_at(alloc, place, Entry::UnassignedNs)?;
    table.set_entry(511, entry);
    Ok(table)
}

// An address, the last level that is looked at, and where the walk ends.
const FROM_LEVEL_ONE: [(u64, u8, End); 12] = [
    (TOP, 3, Some((0x4000, 3, Entry::AssignedNs(0x9000)))),
    (TOP + 0xfff, 3, Some((0x4000, 3, Entry::AssignedNs(0x9000)))),
    (TOP, 2, Some((0x3000, 2, Entry::Table(0x4000)))),
    (TOP, 1, Some((0x2000, 1, Entry::Table(0x3000)))),
    (TOP, 0, None),
    (0x7f_ffe0_0000, 3, Some((0x4000, 3, Entry::UnassignedNs))),
    (0x7f_ffdf_f000, 3, Some((0x3000, 2, Entry::UnassignedNs))),
    (0x7f_bfff_f000, 3, Some((0x2000, 1, EMPTY))),
    (0x3f_ffff_f000, 3, Some((0x2000, 1, EMPTY))),
    (0x40_0000_0000, 3, Some((0x2000, 1, Entry::UnassignedNs))),
    (0, 3, Some((0x2000, 1, EMPTY))),
    (0x80_0000_0000, 3, None),
];

#[test]
fn walks_from_level_one(rt: HostRuntime) -> Result<(), Fail> {
    let cells = three_levels(rt.alloc())?;
    for (ipa, max, want) in &FROM_LEVEL_ONE {
        assert!(rt; ends_at(&cells, *ipa, *max) == *want, "{ipa:x} up to {max}");
    }
    Ok(())
}

// A root at level 0 of width 0x30 at 2000, and below it a table at each level down to 3 for the first address.
fn four_levels(alloc: Global) -> Result<PlainCells, Fail> {
    let mut cells = empty_cells(alloc)?;
    for (level, address, first) in [
        (0, 0x2000, Entry::Table(0x3000)),
        (1, 0x3000, Entry::Table(0x4000)),
        (2, 0x4000, Entry::Table(0x5000)),
        (3, 0x5000, Entry::Assigned(Ripas::Ram, 0x7000)),
    ] {
        put(
            &mut cells,
            address,
            beginning(alloc, place(level, 0, 0x30), first),
        )?;
    }
    Ok(cells)
}

// A table that has one entry of its own, the first.
fn beginning(alloc: Global, place: Place, entry: Entry) -> Result<Table, Fail> {
    let mut table = table_at(alloc, place, EMPTY)?;
    table.set_entry(0, entry);
    Ok(table)
}

// An address, and where the walk ends.
const FROM_LEVEL_ZERO: [(u64, End); 6] = [
    (0, Some((0x5000, 3, Entry::Assigned(Ripas::Ram, 0x7000)))),
    (0x1f_f000, Some((0x5000, 3, EMPTY))),
    (0x20_0000, Some((0x4000, 2, EMPTY))),
    (0x4000_0000, Some((0x3000, 1, EMPTY))),
    (0x80_0000_0000, Some((0x2000, 0, EMPTY))),
    (0xffff_ffff_f000, Some((0x2000, 0, EMPTY))),
];

#[test]
fn walks_from_level_zero(rt: HostRuntime) -> Result<(), Fail> {
    let cells = four_levels(rt.alloc())?;
    for (ipa, want) in &FROM_LEVEL_ZERO {
        assert!(rt; ends_at(&cells, *ipa, 3) == *want, "{ipa:x}");
    }
    Ok(())
}

// A table of the last address, at level 3, to which nothing links.
fn stray_table(alloc: Global) -> Result<Table, Fail> {
    table_at(alloc, place(3, 0x7f_ffe0_0000, 0x27), EMPTY)
}

#[test]
fn walks_that_may_not_start(rt: HostRuntime) -> Result<(), Fail> {
    assert!(rt;
        ends_at(&empty_cells(rt.alloc())?, TOP, 3) == None,
        "no root"
    );
    expect_no_way_to_the_stray(&rt, &with_a_stray(rt.alloc())?);
    Ok(())
}

fn expect_no_way_to_the_stray<R: Abort + AllocGlobal>(rt: &R, cells: &PlainCells) {
    assert!(rt; cells.table(Pa::new(0x2001)).is_none());
    assert!(rt; ends_at(cells, TOP, 3) == None, "a table without a link");
    assert!(rt; ends_at(cells, 0, 3) == Some((0x2000, 1, EMPTY)));
}

fn with_a_stray(alloc: Global) -> Result<PlainCells, Fail> {
    let mut cells = three_levels(alloc)?;
    if cells.put(Pa::new(0x1_0000), stray_table(alloc)?) {
        return Err(Fail::from("a table where no granule is"));
    }
    put(&mut cells, 0x6000, stray_table(alloc))?;
    Ok(cells)
}
