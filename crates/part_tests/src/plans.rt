//! What a CPU does next on a quiet machine of 32 granules: two realms with a REC each, at 1000 with its REC above it, and at
//! 9000 with its REC below it, and from 10000 on one with tables. Each line is a command and what its CPU does until it is ready.

ghost use Rattle.std.specs.Prelude.{◌≡◌, ◌==◌, false};

use crate::lines::expect_line;
use crate::tables;
use command_core::{Cell, CpuPlace, Descriptor, HeldPairs, Next, next_lock};
use fixtures::is_shaped;
use memory_map::{Config, Pa};
use realm_desc::{HashAlgorithm, Realm, Rec, Space};
use rmi_codec::read_command;
use rmm_spec::{Command, Entry, Place};
use rtt_table::Table;
use std::alloc::{AllocError, Global};
use std::fmt::Write;
use std::process::Abort;
use std::test::Fail;

const NAMED: &str = "\
c4000151 f000 -> take f000, ready
c4000152 b000 -> take b000, ready
c4000158 c000 b000 27 1 3 0 -> take b000, take c000, ready
c4000157 1000 -> take 1000, ready
c400015a c000 1000 1 1 e000 b000 -> take 1000, ready
c400015a 1000 d000 1 1 e000 b000 -> take 1000, take b000, take d000, take e000, ready
";

const PARTS: &str = "\
c4000159 9000 -> take 9000, take 8000, ready
c400015b 7000 -> take 7000, take a000, take 6000, ready
";

const CALLS_BELOW: &str = "\
c4000192 0 -> take 1000, take 3000, ready
c4000193 0 0 0 0 0 0 0 0 0 0 -> take 1000, take 3000, ready
c4000196 -> take 1000, take 3000, ready
c4000197 0 0 0 -> take 1000, take 3000, ready
c4000199 0 -> take 1000, take 3000, ready
84000002 -> take 1000, take 3000, ready
84000008 -> take 1000, take 3000, ready
00000001 -> take 3000, ready
";

const CALLS_ABOVE: &str = "\
c4000192 0 -> take 7000, take 9000, ready
c4000193 0 0 0 0 0 0 0 0 0 0 -> take 7000, take 9000, ready
c4000196 -> take 7000, take 9000, ready
c4000197 0 0 0 -> take 7000, take 9000, ready
c4000199 0 -> take 7000, take 9000, ready
84000002 -> take 7000, take 9000, ready
84000008 -> take 7000, take 9000, ready
";

const ENTERS: &str = "\
c400015c 3000 -> take 3000, free 3000, learn 1000, take 1000, take 3000, ready
c400015c 7000 -> take 7000, free 7000, learn 9000, take 7000, take 9000, ready
";

const FROM_OUTSIDE: &str = "\
c4000158 c000 b000 27 1 3 0
c400015a 1000 d000 1 1 e000 b000
c4000159 9000
c400015b 7000
c400015c 3000
c400015c 7000
";

const FROM_INSIDE: &str = "\
c4000196
00000001
";

pub(crate) fn inside(rec: u64, rd: u64) -> CpuPlace {
    CpuPlace::Inside {
        rec: Pa::new(rec),
        rd: Pa::new(rd),
    }
}

pub(crate) fn realm(alloc: Global, root: u64, vmid: u8) -> Result<Cell, AllocError> {
    let realm = Realm::new(Pa::new(root), Space::Bits39, vmid, HashAlgorithm::Sha256);
    Ok(Cell::Rd(Descriptor::new(alloc, realm)?))
}

pub(crate) fn rec(owner: u64, aux0: u64, aux1: u64) -> Cell
    requires { (aux0 == aux1) ≡ false }
{
    Cell::Rec(Rec::new(Pa::new(owner), 0, 1, Pa::new(aux0), Pa::new(aux1)))
}

/// A table of copies of an entry, where one can stand.
pub(crate) fn table_at(alloc: Global, place: Place, fill: Entry) -> Result<Table, Fail> {
    if !is_shaped(&place) {
        return Err(Fail::from("no such place"));
    }
    Ok(Table::new(alloc, place, fill)?)
}

fn root(alloc: Global, rd: u64) -> Result<Cell, Fail> {
    let place = Place {
        rd,
        level: 1,
        base: 0,
        width: 0x27,
    };
    Ok(Cell::Rtt(table_at(alloc, place, Entry::UnassignedNs)?))
}

// What lies in each granule.
fn cell_at(alloc: Global, granule: Pa) -> Result<Cell, Fail> {
    Ok(match granule.address() {
        0x1000 => realm(alloc, 0x2000, 1)?,
        0x2000 => root(alloc, 0x1000)?,
        0x3000 => rec(0x1000, 0x4000, 0x5000),
        0x4000 | 0x5000 | 0x6000 | 0xa000 => Cell::RecAux,
        0x7000 => rec(0x9000, 0xa000, 0x6000),
        0x8000 => root(alloc, 0x9000)?,
        0x9000 => realm(alloc, 0x8000, 2)?,
        0xb000 | 0xc000 | 0xd000 | 0xe000 => Cell::Delegated,
        0x1_0000.. => tables::cell_at(alloc, granule)?,
        _ => Cell::Undelegated,
    })
}

// A CPU with an open call, and what it did.
#[derive(Drop)]
struct Caller {
    taken: Vec<Pa>,
    learnt: Option<Pa>,
    trace: String,
}

impl Caller {
    fn new(alloc: Global, learnt: Option<Pa>) -> Caller {
        Caller {
            taken: Vec::new(alloc),
            learnt,
            trace: String::new(alloc),
        }
    }

    fn note(&mut self, step: &str, granule: Pa) -> Result<(), Fail> {
        write!(self.trace, "{step} {:x}, ", granule.address())?;
        Ok(())
    }

    fn free(&mut self, granule: Pa, learnt: Option<Pa>) -> Result<(), Fail> {
        self.note("free", granule)?;
        self.taken.retain(|other| *other != granule);
        self.learnt = learnt;
        match &learnt {
            Some(realm) => self.note("learn", *realm),
            None => Ok(()),
        }
    }

    fn take(&mut self, granule: Pa) -> Result<(), Fail> {
        self.taken.push(granule)?;
        self.note("take", granule)
    }

    fn follow(&mut self, next: &Next) -> Result<(), Fail> {
        match next {
            Next::Take(granule) => self.take(*granule),
            Next::Free(granule, learnt) => self.free(*granule, *learnt),
            Next::Ready => Ok(self.trace.push_str("ready")?),
        }
    }

    fn held(&self, alloc: Global) -> Result<HeldPairs, Fail> {
        let mut held = HeldPairs::new();
        for granule in &self.taken {
            if held.held().len() < 6 && held.cell(*granule).is_none() {
                held.push(*granule, cell_at(alloc, *granule)?);
            }
        }
        Ok(held)
    }

    // Does what comes next, and returns whether it is ready.
    fn go(&mut self, alloc: Global, place: &CpuPlace, command: &Command) -> Result<bool, Fail> {
        let config = Config::new(32, 2).ok_or("no such machine")?;
        let next = next_lock(&config, command, place, self.learnt, &self.held(alloc)?);
        self.follow(&next)?;
        Ok(matches!(next, Next::Ready))
    }

    // What it does until it is ready, within twenty steps.
    fn trace(mut self, alloc: Global, place: &CpuPlace, command: &str) -> Result<String, Fail> {
        let command = read_command(command)?;
        for _ in 0..20 {
            if self.go(alloc, place, &command)? {
                break;
            }
        }
        Ok(self.trace)
    }
}

/// Each line is what a CPU does that holds nothing.
pub(crate) fn expect_traces<R: Abort + AllocGlobal>(
    rt: &R,
    place: &CpuPlace,
    text: &str,
) -> Result<(), Fail> {
    for line in text.lines() {
        let holds = has_its_trace(rt.alloc(), place, line)?;
        expect_line(rt, holds, line);
    }
    Ok(())
}

fn has_its_trace(alloc: Global, place: &CpuPlace, line: &str) -> Result<bool, Fail> {
    let (command, expected) = line.split_once(" -> ").ok_or("a line without a trace")?;
    let trace = Caller::new(alloc, None).trace(alloc, place, command)?;
    Ok(trace.as_str() == expected)
}

#[test]
fn named_granules_are_taken_by_address(rt: HostRuntime) -> Result<(), Fail> {
    expect_traces(&rt, &CpuPlace::Outside, NAMED)
}

#[test]
fn parts_are_taken_after_what_names_them(rt: HostRuntime) -> Result<(), Fail> {
    expect_traces(&rt, &CpuPlace::Outside, PARTS)
}

#[test]
fn realm_calls_take_rec_and_realm(rt: HostRuntime) -> Result<(), Fail> {
    expect_traces(&rt, &inside(0x3000, 0x1000), CALLS_BELOW)?;
    expect_traces(&rt, &inside(0x7000, 0x9000), CALLS_ABOVE)
}

#[test]
fn enter_learns_its_realm(rt: HostRuntime) -> Result<(), Fail> {
    expect_traces(&rt, &CpuPlace::Outside, ENTERS)
}

// An Enter that has learnt a granule which is no realm begins anew, with nothing learnt.
#[test]
fn enter_gives_back_what_is_no_realm(rt: HostRuntime) -> Result<(), Fail> {
    let caller = Caller::new(rt.alloc(), Some(Pa::new(0x2000)));
    let trace = caller.trace(rt.alloc(), &CpuPlace::Outside, "c400015c 7000")?;
    let anew =
        "take 2000, free 2000, take 7000, free 7000, learn 9000, take 7000, take 9000, ready";
    assert!(rt; trace.as_str() == anew);
    Ok(())
}

// The next of a row of numbers without a plan, and a granule by it.
fn stray(seed: &mut u64) -> Pa {
    *seed = seed
        .wrapping_mul(6_364_136_223_846_793_005)
        .wrapping_add(1_442_695_040_888_963_407);
    Pa::new((*seed >> 33) % 32 * 0x1000)
}

// A CPU that holds up to six granules that no plan led to.
fn strayed(alloc: Global, seed: &mut u64) -> Result<Caller, AllocError> {
    let learnt = Some(stray(seed)).filter(|granule| granule.address() < 0xb000);
    let mut caller = Caller::new(alloc, learnt);
    for _ in 0..6 {
        let granule = stray(seed);
        if !caller.taken.contains(&granule) {
            caller.taken.push(granule)?;
        }
    }
    Ok(caller)
}

/// For each command 200 CPUs become ready.
pub(crate) fn expect_ready<R: Abort + AllocGlobal>(
    rt: &R,
    place: &CpuPlace,
    commands: &str,
) -> Result<(), Fail> {
    let mut seed = 1;
    for turn in 0..200 {
        let are_ready = become_ready(rt.alloc(), place, commands, &mut seed)?;
        assert!(rt; are_ready, "at {turn}");
    }
    Ok(())
}

fn become_ready(
    alloc: Global,
    place: &CpuPlace,
    commands: &str,
    seed: &mut u64,
) -> Result<bool, Fail> {
    for command in commands.lines() {
        let trace = strayed(alloc, seed)?.trace(alloc, place, command)?;
        if !trace.as_str().ends_with("ready") {
            return Ok(false);
        }
    }
    Ok(true)
}

#[test]
fn any_granules_held_end_in_ready(rt: HostRuntime) -> Result<(), Fail> {
    expect_ready(&rt, &CpuPlace::Outside, FROM_OUTSIDE)?;
    expect_ready(&rt, &inside(0x3000, 0x1000), FROM_INSIDE)
}
