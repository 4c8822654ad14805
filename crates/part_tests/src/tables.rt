//! Commands that walk, on the quiet machine of `plans`. Its realm at 15000 has its root at 19000, a table of level 2 in each half (13000,
//! and 1a000 above), those of level 3 at 17000, 11000 and (above) 1c000, a data granule at 1b000, and a REC at 16000.

use crate::plans::{expect_ready, expect_traces, inside, realm, table_at};
use command_core::{Cell, CpuPlace};
use memory_map::Pa;
use realm_desc::{Rec, RipasRequest};
use rmm_spec::{Entry, Place, Ripas};
use std::alloc::Global;
use std::test::Fail;

const TABLES: &str = "\
c400015d 15000 1d000 0 1 -> take 15000, take 1d000, ready
c400015d 15000 1d000 40000000 2 -> take 15000, take 1d000, take 19000, free 15000, ready
c400015d 15000 1d000 80000000 3 -> take 15000, take 1d000, take 19000, free 15000, ready
c400015d 15000 1d000 400000 3 -> take 15000, take 1d000, take 19000, free 15000, take 13000, free 19000, ready
c400015d 15000 1d000 0 3 -> take 15000, take 1d000, take 19000, free 15000, take 13000, free 19000, ready
c400015d 15000 1000 0 2 -> take 1000, ready
c400015d 15000 1d000 1000 3 -> ready
c400015e 15000 0 2 -> take 15000, take 19000, free 15000, take 13000, ready
c400015e 15000 80000000 2 -> take 15000, take 19000, free 15000, ready
c400015e 15000 200000 3 -> take 15000, take 19000, free 15000, take 13000, free 19000, take 11000, ready
c400015e 15000 400000 3 -> take 15000, take 19000, free 15000, take 13000, free 19000, ready
c4000166 15000 0 2 -> take 15000, take 19000, free 15000, take 13000, ready
c4000166 15000 200000 3 -> take 15000, take 19000, free 15000, take 13000, free 19000, take 11000, ready
c4000161 15000 0 1 -> take 15000, take 19000, free 15000, ready
c4000161 15000 0 2 -> take 15000, take 19000, free 15000, take 13000, free 19000, ready
c4000161 15000 0 3 -> take 15000, take 19000, free 15000, take 13000, free 19000, take 17000, free 13000, ready
c4000161 15000 8000000000 1 -> take 15000, ready
";

const PAGES: &str = "\
c4000153 15000 1d000 2000 f000 0 0 0 0 0 -> take f000, take 15000, take 1d000, take 19000, take 13000, free 19000, take 17000, free 13000, ready
c4000153 15000 1d000 2000 1000 0 0 0 0 0 -> take 1000, ready
c4000154 15000 1d000 2000 -> take 15000, take 1d000, take 19000, free 15000, take 13000, free 19000, take 17000, free 13000, ready
c4000154 15000 1d000 40000000 -> take 15000, take 1d000, take 19000, free 15000, ready
c4000155 15000 1000 -> take 15000, take 19000, free 15000, take 13000, free 19000, take 17000, free 13000, take 1b000, ready
c4000155 15000 2000 -> take 15000, take 19000, free 15000, take 13000, free 19000, take 17000, free 13000, ready
c400015f 15000 4000001000 ff000 -> take 15000, take 19000, free 15000, take 1a000, free 19000, take 1c000, free 1a000, ready
c4000162 15000 4000000000 -> take 15000, take 19000, free 15000, take 1a000, free 19000, take 1c000, free 1a000, ready
c4000162 15000 0 -> take 15000, ready
";

const STRETCHES: &str = "\
c4000168 15000 2000 4000 -> take 15000, take 19000, take 13000, free 19000, take 17000, free 13000, ready
c4000168 15000 40000000 80000000 -> take 15000, take 19000, ready
c4000169 15000 16000 0 2000 -> take 15000, take 16000, take 19000, free 15000, take 13000, free 19000, take 17000, free 13000, ready
c4000169 15000 16000 1000 2000 -> take 15000, take 16000, ready
";

const CALLS: &str = "\
c4000198 1000 -> take 15000, take 16000, take 19000, take 13000, free 19000, take 17000, free 13000, ready
c4000198 40000000 -> take 15000, take 16000, take 19000, ready
c4000198 4000000000 -> take 15000, take 16000, ready
";

const FROM_OUTSIDE: &str = "\
c400015d 15000 1d000 400000 3
c400015e 15000 200000 3
c4000166 15000 200000 3
c4000161 15000 0 3
c4000153 15000 1d000 2000 f000 0 0 0 0 0
c4000154 15000 1d000 2000
c4000155 15000 1000
c400015f 15000 4000001000 ff000
c4000162 15000 4000000000
c4000168 15000 2000 4000
c4000169 15000 16000 0 2000
";

fn table(
    alloc: Global,
    level: u8,
    base: u64,
    fill: Entry,
    links: &[(usize, Entry)],
) -> Result<Cell, Fail> {
    let place = Place {
        rd: 0x1_5000,
        level,
        base,
        width: 0x27,
    };
    let mut table = table_at(alloc, place, fill)?;
    for (index, entry) in links {
        table.set_entry(*index % 512, *entry);
    }
    Ok(Cell::Rtt(table))
}

// A REC whose realm asks for its first pages.
fn asking_rec() -> Cell {
    let mut rec = Rec::new(
        Pa::new(0x1_5000),
        0,
        1,
        Pa::new(0x1_4000),
        Pa::new(0x1_8000),
    );
    rec.request = Some(RipasRequest {
        base: 0,
        top: 0x3000,
        ripas: Ripas::Ram,
    });
    Cell::Rec(rec)
}

/// What lies in each granule of the realm with tables.
pub(crate) fn cell_at(alloc: Global, granule: Pa) -> Result<Cell, Fail> {
    let empty = Entry::Unassigned(Ripas::Empty);
    let page = Entry::Assigned(Ripas::Ram, 0x1_b000);
    Ok(match granule.address() {
        0x1_5000 => realm(alloc, 0x1_9000, 3)?,
        0x1_9000 => {
            let links = [(0, Entry::Table(0x1_3000)), (256, Entry::Table(0x1_a000))];
            table(alloc, 1, 0, empty, &links)?
        }
        0x1_3000 => {
            let links = [(0, Entry::Table(0x1_7000)), (1, Entry::Table(0x1_1000))];
            table(alloc, 2, 0, empty, &links)?
        }
        0x1_7000 => table(alloc, 3, 0, empty, &[(1, page)])?,
        0x1_1000 => table(alloc, 3, 0x20_0000, empty, &[])?,
        0x1_a000 => {
            let link = (0, Entry::Table(0x1_c000));
            table(alloc, 2, 0x40_0000_0000, Entry::UnassignedNs, &[link])?
        }
        0x1_c000 => {
            let page = (0, Entry::AssignedNs(0xf_f000));
            table(alloc, 3, 0x40_0000_0000, Entry::UnassignedNs, &[page])?
        }
        0x1_6000 => asking_rec(),
        0x1_4000 | 0x1_8000 => Cell::RecAux,
        0x1_b000 => Cell::Data,
        0x1_d000 | 0x1_e000 => Cell::Delegated,
        _ => Cell::Undelegated,
    })
}

#[test]
fn tables_are_walked_hand_over_hand(rt: HostRuntime) -> Result<(), Fail> {
    expect_traces(&rt, &CpuPlace::Outside, TABLES)
}

#[test]
fn pages_are_taken_below_their_table(rt: HostRuntime) -> Result<(), Fail> {
    expect_traces(&rt, &CpuPlace::Outside, PAGES)
}

#[test]
fn ripas_keeps_what_it_changes(rt: HostRuntime) -> Result<(), Fail> {
    expect_traces(&rt, &CpuPlace::Outside, STRETCHES)?;
    expect_traces(&rt, &inside(0x1_6000, 0x1_5000), CALLS)
}

#[test]
fn any_granules_held_end_in_ready_for_walks(rt: HostRuntime) -> Result<(), Fail> {
    expect_ready(&rt, &CpuPlace::Outside, FROM_OUTSIDE)?;
    expect_ready(&rt, &inside(0x1_6000, 0x1_5000), "c4000198 1000\n")
}
