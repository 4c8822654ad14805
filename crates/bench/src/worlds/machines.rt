//! Random runs, of which each step is taken by the specification machine and by the flat one.

ghost use Rattle.std.specs.Prelude.{◌<◌};

use anyhow::{Context, Result, bail};
use drawn_scenarios::{DeepLife, Dice, Granules, Sharing, drafted_command, edged_command};
use flat_machine::{Stepped, TwoMachines};
use memory_map::Config;
use reasons::{OwnerRow, owner_report};
use std::alloc::Global;

/// How many steps a run has.
const STEPS: u64 = 160;

/// A run begins with fewer than so many commands of a realm's life.
const MOST_BEGUN: u64 = 64;

/// One of so many commands has edges as words.
const EDGED: u64 = 8;

/// How many steps were taken, in how many of them the machines answered alike, and how many of these carried a command out.
#[derive(Clone, Copy, Default)]
struct Counts {
    steps: u64,
    same: u64,
    ok: u64,
}

/// Compares the machines over so many runs, prints each run in which they differ, and then how many steps are alike. An error
/// where one isn't, and where half of them or more were refused.
pub(crate) fn compare_machines(
    rt: &impl Print,
    alloc: Global,
    first: u64,
    count: u64,
) -> Result<()> {
    let mut counts = Counts::default();
    for seed in first..first.saturating_add(count) {
        let run = compare_run(alloc, seed)?;
        if run.same != run.steps {
            println!(rt; "seed {seed}: step {} differs", run.steps)?;
        }
        counts.add(run);
    }
    let Counts { steps, same, ok } = counts;
    println!(rt; "random: {same} of {steps} steps")?;
    if same != steps {
        bail!("the machines differ");
    }
    if ok <= steps / 2 {
        bail!("most steps were refused");
    }
    Ok(())
}

// One to four CPUs call in turn, until a step in which the machines differ.
fn compare_run(alloc: Global, seed: u64) -> Result<Counts> {
    let mut dice = Dice::new(seed);
    let cpus = 1 + dice.below(4);
    let sharing = Sharing::drawn(&mut dice);
    let config = Config::new(sharing.granules(cpus), cpus).context("no such machine")?;
    let mut machines = TwoMachines::new(alloc, config)?;
    let mut life = DeepLife::new(0, 0);
    let begun = dice.below(MOST_BEGUN);
    let mut rows = Vec::new(alloc);
    let mut counts = Counts::default();
    for step in 0..STEPS {
        let stepped = if step < begun {
            machines.execute(0, &life.next())?
        } else {
            drawn_step(&mut machines, &mut rows, &mut dice, sharing, cpus)?
        };
        counts.count(stepped);
        if counts.same != counts.steps {
            break;
        }
    }
    Ok(counts)
}

// One of the CPUs calls what is drawn for it.
fn drawn_step(
    machines: &mut TwoMachines,
    rows: &mut Vec<OwnerRow>,
    dice: &mut Dice,
    sharing: Sharing,
    cpus: u64,
) -> Result<Stepped>
    requires { (0 < cpus) × (cpus < 9) }
{
    rows.clear();
    owner_report(machines.machine(), rows)?;
    let granules = Granules {
        rows: rows.as_slice(),
        cpu: dice.below(cpus) as u8,
        sharing,
    };
    let command = if dice.one_in(EDGED) {
        edged_command(granules, dice)
    } else {
        drafted_command(machines.machine(), granules, dice)
    };
    Ok(machines.execute(granules.cpu, &command)?)
}

impl Counts {
    fn count(&mut self, stepped: Stepped) {
        let is_same = matches!(stepped, Stepped::Done | Stepped::Refused);
        self.add(Counts {
            steps: 1,
            same: u64::from(is_same),
            ok: u64::from(stepped == Stepped::Done),
        });
    }

    fn add(&mut self, more: Counts) {
        self.steps = self.steps.wrapping_add(more.steps);
        self.same = self.same.wrapping_add(more.same);
        self.ok = self.ok.wrapping_add(more.ok);
    }
}
