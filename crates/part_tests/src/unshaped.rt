//! Cells that no shaped whole has, on a machine of 16 granules: the CPU takes and frees no more, and its command is misplaced.
//! Each line is a command and the cells that are held for it, by their names in `named_cell`.

use crate::lines::expect_line;
use crate::plans::{inside, realm, rec, table_at};
use command_core::{Cell, CpuPlace, HeldPairs, Next, Side, decide, next_lock};
use memory_map::{Config, Pa};
use rmi_codec::read_command;
use rmm_spec::{Change, Command, Entry, Place, Reply};
use std::alloc::Global;
use std::process::Abort;
use std::test::Fail;

const ROOTS: &str = "\
c4000159 1000 | realm_without_root
c4000159 1000 | realm_with_uneven_root
c4000159 1000 | realm_in_its_root
c4000159 1000 | realm lent_root
c4000159 1000 | realm aux_root
c4000159 1000 | realm root_of_another_realm
c4000159 1000 | realm root_of_another_level
c4000159 1000 | realm root_of_another_width
";

const AUXES: &str = "\
c400015b 3000 | rec_without_first_aux
c400015b 3000 | rec_in_its_first_aux
c400015b 3000 | rec lent_first_aux
c400015b 3000 | rec_without_second_aux first_aux
c400015b 3000 | rec_in_its_second_aux first_aux
c400015b 3000 | rec first_aux data_second_aux
";

const OWNERS: &str = "\
c400015c 3000 | rec_without_realm
c400015c 3000 | rec_in_its_realm
";

// The second part is looked at once the first is held.
const NOT_YET: &str = "\
c400015b 3000 | rec_without_second_aux
c400015b 3000 | rec_in_its_second_aux
c4000159 1000 | realm
c400015c 3000 | rec
";

const MISFITS: &str = "\
c4000196 | aux_at_rec
c4000196 | lent_realm
c4000196 | rec_of_another_realm
00000001 | aux_at_rec
00000001 | lent_realm
00000001 | rec_of_another_realm
00000001 | rec lent_realm
";

const NOTHING_HELD: &str = "\
c4000196 |
00000001 |
";

const REC_ALONE: &str = "\
c4000196 | rec
00000001 | rec
";

fn first_table(alloc: Global, rd: u64, level: u8, width: u8) -> Result<Cell, Fail> {
    let place = Place {
        rd,
        level,
        base: 0,
        width,
    };
    Ok(Cell::Rtt(table_at(alloc, place, Entry::UnassignedNs)?))
}

// What lies in a granule, with its address.
fn named_cell(alloc: Global, name: &str) -> Result<(u64, Cell), Fail> {
    Ok(match name {
        "realm" => (0x1000, realm(alloc, 0x2000, 1)?),
        "realm_without_root" => (0x1000, realm(alloc, 0x1_0000, 1)?),
        "realm_with_uneven_root" => (0x1000, realm(alloc, 0x2001, 1)?),
        "realm_in_its_root" => (0x1000, realm(alloc, 0x1000, 1)?),
        "lent_realm" => (0x1000, Cell::Delegated),
        "lent_root" => (0x2000, Cell::Delegated),
        "aux_root" => (0x2000, Cell::RecAux),
        "root_of_another_realm" => (0x2000, first_table(alloc, 0x9000, 1, 0x27)?),
        "root_of_another_level" => (0x2000, first_table(alloc, 0x1000, 2, 0x27)?),
        "root_of_another_width" => (0x2000, first_table(alloc, 0x1000, 1, 0x30)?),
        _ => named_rec(name)?,
    })
}

fn named_rec(name: &str) -> Result<(u64, Cell), Fail> {
    Ok(match name {
        "rec" => (0x3000, rec(0x1000, 0x4000, 0x5000)),
        "rec_without_first_aux" => (0x3000, rec(0x1000, 0x1_0000, 0x5000)),
        "rec_in_its_first_aux" => (0x3000, rec(0x1000, 0x3000, 0x5000)),
        "rec_without_second_aux" => (0x3000, rec(0x1000, 0x4000, 0x5800)),
        "rec_in_its_second_aux" => (0x3000, rec(0x1000, 0x4000, 0x3000)),
        "rec_without_realm" => (0x3000, rec(0x1_0000, 0x4000, 0x5000)),
        "rec_in_its_realm" => (0x3000, rec(0x3000, 0x4000, 0x5000)),
        "rec_of_another_realm" => (0x3000, rec(0x9000, 0x4000, 0x5000)),
        "aux_at_rec" => (0x3000, Cell::RecAux),
        "first_aux" => (0x4000, Cell::RecAux),
        "lent_first_aux" => (0x4000, Cell::Delegated),
        "data_second_aux" => (0x5000, Cell::Data),
        _ => return Err(Fail::from("no such cell")),
    })
}

fn held_cells(alloc: Global, names: &str) -> Result<HeldPairs, Fail> {
    let mut held = HeldPairs::new();
    for name in names.split_whitespace() {
        let (granule, cell) = named_cell(alloc, name)?;
        let granule = Pa::new(granule);
        if held.held().len() < 6 && held.cell(granule).is_none() {
            held.push(granule, cell);
        }
    }
    Ok(held)
}

// What is decided where what is held settles the command.
fn decided(
    alloc: Global,
    place: &CpuPlace,
    command: &Command,
    held: &HeldPairs,
) -> Result<Option<(Reply, Change)>, Fail> {
    let config = Config::new(16, 2).ok_or("no such machine")?;
    let Next::Ready = next_lock(&config, command, place, None, held) else {
        return Ok(None);
    };
    let side = Side::new(alloc)?;
    Ok(Some(decide(&config, command, 0, place, held, &side)))
}

fn is_misplaced(decision: &Option<(Reply, Change)>) -> bool {
    matches!(decision, Some((Reply::Misplaced, Change::Unchanged)))
}

// Each line is misplaced, or is not settled yet.
fn expect<R: Abort + AllocGlobal>(
    rt: &R,
    place: &CpuPlace,
    text: &str,
    settled: bool,
) -> Result<(), Fail> {
    for line in text.lines() {
        let holds = is_settled(rt.alloc(), place, line, settled)?;
        expect_line(rt, holds, line);
    }
    Ok(())
}

// Whether the line is misplaced, where it is settled as is said.
fn is_settled(alloc: Global, place: &CpuPlace, line: &str, settled: bool) -> Result<bool, Fail> {
    let (command, cells) = line.split_once(" |").ok_or("a line without cells")?;
    let decision = decided_of(alloc, place, command, &held_cells(alloc, cells)?);
    Ok(is_as_settled(&decision?, settled))
}

fn decided_of(
    alloc: Global,
    place: &CpuPlace,
    command: &str,
    held: &HeldPairs,
) -> Result<Option<(Reply, Change)>, Fail> {
    decided(alloc, place, &read_command(command)?, held)
}

fn is_as_settled(decision: &Option<(Reply, Change)>, settled: bool) -> bool {
    decision.is_some() == settled && is_misplaced(decision) == settled
}

#[test]
fn parts_that_no_shape_has(rt: HostRuntime) -> Result<(), Fail> {
    expect(&rt, &CpuPlace::Outside, ROOTS, true)?;
    expect(&rt, &CpuPlace::Outside, AUXES, true)?;
    expect(&rt, &CpuPlace::Outside, OWNERS, true)
}

#[test]
fn parts_are_looked_at_in_turn(rt: HostRuntime) -> Result<(), Fail> {
    expect(&rt, &CpuPlace::Outside, NOT_YET, false)
}

#[test]
fn places_that_no_shape_has(rt: HostRuntime) -> Result<(), Fail> {
    expect(&rt, &inside(0x3000, 0x1000), MISFITS, true)?;
    expect(&rt, &inside(0x1_0000, 0x1000), NOTHING_HELD, true)?;
    expect(&rt, &inside(0x3000, 0x1_0000), NOTHING_HELD, true)?;
    expect(&rt, &inside(0x3000, 0x1_0000), REC_ALONE, true)?;
    expect(&rt, &inside(0x3000, 0x3000), NOTHING_HELD, true)?;
    expect(&rt, &inside(0x3000, 0x3000), REC_ALONE, true)
}
