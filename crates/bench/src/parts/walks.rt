//! Walks in the tables of a realm, again and again.
//!
//! The realm has 4001 tables: a root at level 0, and 400 branches of one table of level 1, one of level 2 and 8 of level 3.

ghost use Rattle.std.specs.Prelude.{◌+◌, ◌*◌, ◌<◌, ◌≤◌};
ghost use Rattle.rmm_spec.specs.TableCells.{IsWalkable};
ghost use Rattle.rtt_table.specs.Plain.{cells_from};

use anyhow::{Context, Result, bail};
use fixtures::{PlainCells, is_shaped, is_walkable};
use memory_map::{Config, GRANULE_BYTES, Ipa, Pa};
use rtt_table::{Entry, Place, Ripas, Table, walk};
use std::alloc::Global;

const ROOT: u64 = 1;

const BRANCHES: u64 = 400;

const TABLES_A_BRANCH: u64 = 10;

const LEAVES_A_BRANCH: u64 = 8;

const BRANCH_BYTES: u64 = 0x80_0000_0000;

const LEAF_BYTES: u64 = 0x20_0000;

/// For the first address of each table of level 3 tests once that a walk may start, and then walks so many rounds. Prints how many
/// addresses it walked, and the sum of the granules that it reached.
pub(crate) fn walk_all(rt: &impl Print, alloc: Global, rounds: u64) -> Result<()> {
    let cells = realm(alloc)?;
    let mut addresses: u32 = 0;
    let mut sum: u64 = 0;
    for leaf in 0..BRANCHES * LEAVES_A_BRANCH {
        let base = leaf / LEAVES_A_BRANCH * BRANCH_BYTES + leaf % LEAVES_A_BRANCH * LEAF_BYTES;
        if let Some(reached) = walked(&cells, Ipa::new(base), rounds) {
            addresses = addresses.wrapping_add(1);
            sum = sum.wrapping_add(reached);
        }
    }
    println!(rt; "{addresses} {sum}")?;
    Ok(())
}

// The sum of the granules that so many walks reach, where a walk may start.
fn walked(cells: &PlainCells, ipa: Ipa, rounds: u64) -> Option<u64> {
    let root = Pa::new(ROOT * GRANULE_BYTES);
    if !is_walkable(cells, cells.granules(), root, ipa, 3) {
        return None;
    }
    let mut sum: u64 = 0;
    for _ in 0..rounds {
        sum = sum.wrapping_add(walk(cells, root, ipa, 3).pa.address());
    }
    Some(sum)
}

fn realm(alloc: Global) -> Result<PlainCells> {
    let config = Config::new(4096, 1).context("no such machine")?;
    let mut cells = PlainCells::new(alloc, &config)?;
    let root = linked_table(alloc, 0, 0, BRANCHES, 2, TABLES_A_BRANCH)?;
    put(&mut cells, ROOT, root)?;
    for branch in 0..BRANCHES {
        put_branch(alloc, &mut cells, branch)?;
    }
    Ok(cells)
}

// The granules of a branch's tables follow one another: that of level 1, that of level 2, and those of level 3.
fn put_branch(alloc: Global, cells: &mut PlainCells, branch: u64) -> Result<()>
    requires { branch < 400 }
{
    let base = branch * BRANCH_BYTES;
    let first = 2 + branch * TABLES_A_BRANCH;
    let top = linked_table(alloc, 1, base, 1, first + 1, 0)?;
    put(cells, first, top)?;
    let middle = linked_table(alloc, 2, base, LEAVES_A_BRANCH, first + 2, 1)?;
    put(cells, first + 1, middle)?;
    for leaf in 0..LEAVES_A_BRANCH {
        let table = linked_table(alloc, 3, base + leaf * LEAF_BYTES, 0, 0, 0)?;
        put(cells, first + 2 + leaf, table)?;
    }
    Ok(())
}

fn put(cells: &mut PlainCells, granule: u64, table: Table) -> Result<()>
    requires { granule < 5000 }
{
    if !cells.put(Pa::new(granule * GRANULE_BYTES), table) {
        bail!("no such granule");
    }
    Ok(())
}

// A table with links to granules, so far apart, in its first entries.
fn linked_table(
    alloc: Global,
    level: u8,
    base: u64,
    links: u64,
    first: u64,
    apart: u64,
) -> Result<Table>
    requires some { links ≤ 512 }
    requires near { first < 4096 }
    requires close { apart < 100 }
{
    let place = Place {
        rd: 0,
        level,
        base,
        width: 48,
    };
    if !is_shaped(&place) {
        bail!("no such place");
    }
    let mut table = Table::new(alloc, place, Entry::Unassigned(Ripas::Empty))?;
    for i in 0..links {
        let granule = first + i * apart;
        table.set_entry(i as usize, Entry::Table(granule * GRANULE_BYTES));
    }
    Ok(table)
}
