//! Indices at the edges of tables, and each method of a table once.

ghost use Rattle.rtt_table.specs.Shaped.{IsShaped};

use memory_map::Ipa;
use rmm_spec::{Entry, EntryTest, Place, Ripas};
use rtt_table::{Table, index_of};
use std::alloc::{AllocError, Global};
use std::test::Fail;

// A level, an address, and the index of its entry at that level.
const INDICES: [(u8, u64, usize); 18] = [
    (3, 0, 0),
    (3, 0xfff, 0),
    (3, 0x1000, 1),
    (3, 0x1f_f000, 511),
    (3, 0x20_0000, 0),
    (2, 0x1f_ffff, 0),
    (2, 0x20_0000, 1),
    (2, 0x3fe0_0000, 511),
    (2, 0x4000_0000, 0),
    (1, 0x3fff_ffff, 0),
    (1, 0x4000_0000, 1),
    (1, 0x40_0000_0000, 256),
    (1, 0x7f_c000_0000, 511),
    (1, 0x80_0000_0000, 0),
    (0, 0x7f_ffff_ffff, 0),
    (0, 0x80_0000_0000, 1),
    (0, 0x8000_0000_0000, 256),
    (0, 0xff80_0000_0000, 511),
];

#[test]
fn indices_at_each_level(rt: HostRuntime) {
    for (level, ipa, want) in &INDICES {
        assert!(rt;
            index_of(*level, Ipa::new(*ipa)) == *want,
            "level {level}, {ipa:x}"
        );
    }
}

fn place() -> Place
    ensures { IsShaped result }
{
    Place {
        rd: 0x1000,
        level: 3,
        base: 0x20_0000,
        width: 0x27,
    }
}

#[test]
fn entries_are_set(rt: HostRuntime) -> Result<(), Fail> {
    let fill = Entry::Unassigned(Ripas::Empty);
    let mut table = Table::new(rt.alloc(), place(), fill)?;
    let Place {
        rd,
        level,
        base,
        width,
    } = table.place();
    let given = place();
    assert!(rt; (rd, level, base, width) == (given.rd, given.level, given.base, given.width));
    assert!(rt; table.is_uniform() && !table.is_live());
    table.set_entry(511, Entry::Assigned(Ripas::Ram, 0x5000));
    assert!(rt; table.entry(511) == Entry::Assigned(Ripas::Ram, 0x5000));
    assert!(rt; table.entry(510) == fill);
    assert!(rt; table.is_live() && !table.is_uniform());
    table.set_entry(511, fill);
    table.set_entry(0, Entry::Unassigned(Ripas::Ram));
    assert!(rt; !table.is_live() && !table.is_uniform());
    Ok(())
}

#[test]
fn other_kinds_of_entry(rt: HostRuntime) -> Result<(), Fail> {
    let mut table = Table::new(rt.alloc(), place(), Entry::UnassignedNs)?;
    assert!(rt; !table.is_live() && table.is_uniform());
    table.set_entry(7, Entry::AssignedNs(0x8000));
    assert!(rt; table.is_live() && !table.is_uniform());
    assert!(rt; table.has(EntryTest::Live) && !table.has(EntryTest::Link));
    table.set_entry(7, Entry::Table(0x8000));
    assert!(rt; table.is_live() && !table.is_uniform());
    assert!(rt; table.has(EntryTest::Live) && table.has(EntryTest::Link));
    table.set_entry(7, Entry::UnassignedNs);
    assert!(rt; !table.is_live() && !table.has_link());
    Ok(())
}

#[test]
fn entries_unlike_another(rt: HostRuntime) -> Result<(), Fail> {
    assert!(rt; has_unlike_pages(rt.alloc())?);
    let fill = Entry::Unassigned(Ripas::Ram);
    let mut table = Table::new(rt.alloc(), place(), fill)?;
    assert!(rt; !table.has(EntryTest::Unlike(fill)));
    assert!(rt; table.has(EntryTest::Unlike(Entry::UnassignedNs)));
    table.set_entry(511, Entry::Unassigned(Ripas::Empty));
    assert!(rt; table.has(EntryTest::Unlike(fill)));
    Ok(())
}

// Whether a table of pages is uniform, each of which is unlike the page.
fn has_unlike_pages(alloc: Global) -> Result<bool, AllocError> {
    let page = Entry::AssignedNs(0);
    let mapped = Table::new(alloc, place(), page)?;
    Ok(mapped.is_uniform() && mapped.has(EntryTest::Unlike(page)))
}

#[test]
fn ripas_of_a_stretch(rt: HostRuntime) -> Result<(), Fail> {
    let mut table = Table::new(rt.alloc(), place(), Entry::Unassigned(Ripas::Empty))?;
    table.set_ripas(10, 12, Ripas::Ram);
    for (index, want) in [
        (9, Ripas::Empty),
        (10, Ripas::Ram),
        (11, Ripas::Ram),
        (12, Ripas::Empty),
    ] {
        assert!(rt; table.entry(index) == Entry::Unassigned(want), "at {index}");
    }
    Ok(())
}

#[test]
fn ripas_of_assigned_entries(rt: HostRuntime) -> Result<(), Fail> {
    let mut table = Table::new(rt.alloc(), place(), Entry::Assigned(Ripas::Empty, 0x5000))?;
    table.set_entry(11, Entry::Assigned(Ripas::Destroyed, 0x6000));
    table.set_entry(12, Entry::Assigned(Ripas::Empty, 0x7000));
    table.set_ripas(10, 12, Ripas::Ram);
    for (index, want) in [
        (9, Entry::Assigned(Ripas::Empty, 0x5000)),
        (10, Entry::Assigned(Ripas::Ram, 0x5000)),
        (11, Entry::Assigned(Ripas::Ram, 0x6000)),
        (12, Entry::Assigned(Ripas::Empty, 0x7000)),
    ] {
        assert!(rt; table.entry(index) == want, "at {index}");
    }
    Ok(())
}
