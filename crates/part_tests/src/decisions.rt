//! A realm and its REC from their making to their end, on one CPU that holds five granules. Expected replies follow by hand
//! from the order of each command's conditions.

ghost use Rattle.command_core.specs.Changed.{hold_of, AreHeld, CanMake};
ghost use Rattle.command_core.specs.Pairs.{pair_cells};
ghost use Rattle.command_core.specs.Seen.{place_of};
ghost use Rattle.command_core.specs.Sides.{side_of};

use crate::lines::expect_line;
use command_core::{Cell, CpuPlace, HeldPairs, Next, Side, apply, decide, next_lock, room};
use memory_map::{Config, Pa};
use rmi_codec::{read_command, read_reply};
use rmm_spec::{Change, Command, Reply, Tag};
use std::alloc::{AllocError, Global};
use std::process::Abort;
use std::test::Fail;

const REALM_WITH_A_REC: &str = "\
c4000151 1000 -> ok
c4000151 2000 -> ok
c4000151 3000 -> ok
c4000151 4000 -> ok
c4000151 5000 -> ok
c4000158 1000 2000 27 1 1 0 -> ok
c4000158 4000 5000 27 1 1 0 -> err 1 0
c400015a 1000 3000 0 1 4000 5000 -> ok
c400015c 3000 -> err 2 0
";

const CALLED_ITS_HOST: &str = "\
c4000157 1000 -> ok
c400015c 3000 -> ok 0
c4000192 1 -> ok 0 0 0 0
c4000199 2a -> ok
c4000199 2a -> misplaced
";

const TURNED_OFF: &str = "\
c400015c 3000 -> ok 0
84000008 -> ok
00000001 -> ok 3 84000008 0 0
c400015c 3000 -> err 2 1
c400015b 3000 -> ok
c4000159 1000 -> ok
";

/// What the CPU holds, what is kept of no granule, and where it is.
#[derive(Drop)]
struct Holder {
    held: HeldPairs,
    side: Side,
    place: CpuPlace,
}

/// Five granules that aren't delegated, on a CPU outside of RECs.
fn five_granules(alloc: Global) -> Result<Holder, AllocError> {
    let side = Side::new(alloc)?;
    let mut held = HeldPairs::new();
    for number in 1..6u64 {
        let granule = Pa::new(number * 0x1000);
        if held.held().len() < 6 && held.cell(granule).is_none() {
            held.push(granule, Cell::Undelegated);
        }
    }
    Ok(Holder {
        held,
        side,
        place: CpuPlace::Outside,
    })
}

/// Makes a change, in room that is taken for it.
fn make(
    alloc: Global,
    held: &mut HeldPairs,
    side: &mut Side,
    place: &mut CpuPlace,
    change: Change,
) -> Result<(), AllocError>
    requires held { AreHeld (pair_cells held.old) change }
    requires makes { CanMake (hold_of (pair_cells held.old) (side_of side.old) (place_of place.old)) change }
{
    let taken = room(alloc, side, &change)?;
    apply(held, side, place, change, taken);
    Ok(())
}

/// What is answered to a command that is ready, whose change is made then.
fn answer(
    alloc: Global,
    config: &Config,
    holder: &mut Holder,
    command: &Command,
) -> Result<Option<Reply>, AllocError> {
    let Next::Ready = next_lock(config, command, &holder.place, None, &holder.held) else {
        return Ok(None);
    };
    let (given, change) = decide(
        config,
        command,
        0,
        &holder.place,
        &holder.held,
        &holder.side,
    );
    make(
        alloc,
        &mut holder.held,
        &mut holder.side,
        &mut holder.place,
        change,
    )?;
    Ok(Some(given))
}

/// Whether the line's command is answered with the line's reply.
fn is_answered(
    alloc: Global,
    config: &Config,
    holder: &mut Holder,
    line: &str,
) -> Result<bool, Fail> {
    let (command, reply) = line.split_once(" -> ").ok_or("a line without a reply")?;
    let expected = Some(read_reply(reply)?);
    Ok(answered(alloc, config, holder, command)? == expected)
}

fn answered(
    alloc: Global,
    config: &Config,
    holder: &mut Holder,
    command: &str,
) -> Result<Option<Reply>, Fail> {
    Ok(answer(alloc, config, holder, &read_command(command)?)?)
}

/// Each line is a command and its reply.
fn expect_answers<R: Abort + AllocGlobal>(
    rt: &R,
    holder: &mut Holder,
    text: &str,
) -> Result<(), Fail> {
    let config = Config::new(16, 2).ok_or("no such machine")?;
    for line in text.lines() {
        let is_so = is_answered(rt.alloc(), &config, holder, line)?;
        expect_line(rt, is_so, line);
    }
    Ok(())
}

/// The tags of the five granules.
fn tags(holder: &Holder) -> [Option<Tag>; 5] {
    let tag = |granule: u64| Some(holder.held.cell(Pa::new(granule))?.tag());
    [0x1000, 0x2000, 0x3000, 0x4000, 0x5000].map(tag)
}

/// Whether the realm at 1000 has VMID 1 where that is said, and so many RECs.
fn has(side: &Side, has_vmid: bool, recs: u64) -> bool {
    let rd = Pa::new(0x1000);
    side.realm_with(1) == has_vmid.then_some(rd) && side.rec_count(rd) == recs
}

fn is_inside(place: &CpuPlace, rec: Pa, rd: Pa) -> bool {
    matches!(place, CpuPlace::Inside { rec: at, rd: owner } if *at == rec && *owner == rd)
}

/// The CPU, once its realm and the REC are made.
fn with_a_rec<R: Abort + AllocGlobal>(rt: &R) -> Result<Holder, Fail> {
    let mut holder = five_granules(rt.alloc())?;
    expect_answers(rt, &mut holder, REALM_WITH_A_REC)?;
    Ok(holder)
}

fn has_realm_and_rec(holder: &Holder) -> bool {
    let made = [Tag::Rd, Tag::Rtt, Tag::Rec, Tag::RecAux, Tag::RecAux];
    tags(holder) == made.map(Some)
        && has(&holder.side, true, 1)
        && matches!(holder.place, CpuPlace::Outside)
}

#[test]
fn a_realm_is_made_with_its_rec(rt: HostRuntime) -> Result<(), Fail> {
    let holder = with_a_rec(&rt)?;
    assert!(rt; has_realm_and_rec(&holder));
    Ok(())
}

#[test]
fn a_rec_runs_and_leaves(rt: HostRuntime) -> Result<(), Fail> {
    let mut holder = with_a_rec(&rt)?;
    expect_run(&rt, &mut holder)
}

/// The REC calls its host, leaves, and is turned off.
fn expect_run<R: Abort + AllocGlobal>(rt: &R, holder: &mut Holder) -> Result<(), Fail> {
    expect_answers(rt, holder, CALLED_ITS_HOST)?;
    assert!(rt; is_inside(&holder.place, Pa::new(0x3000), Pa::new(0x1000)));
    expect_answers(rt, holder, "00000001 -> ok 5 2a 0 0\n")?;
    assert!(rt; matches!(holder.place, CpuPlace::Outside));
    expect_answers(rt, holder, TURNED_OFF)?;
    assert!(rt; is_unused(holder));
    Ok(())
}

fn is_unused(holder: &Holder) -> bool {
    tags(holder) == [Some(Tag::Delegated); 5] && has(&holder.side, false, 0)
}
