//! What is asked for of a recording, and the run that is made of its table.

ghost use Rattle.std.specs.Prelude.{◌≡◌, ◌≤◌, ℕ, List, length, IfOk, IfErr, OnOk};
ghost use Rattle.std.specs.Option.{SomeIff};
ghost use Rattle.merging.specs.Faults.{IsTableOf};
ghost use Rattle.merging.specs.Refusals.{IsFaultOf};
ghost use Rattle.merging.specs.Run.{starts, known_front, IsRun};
ghost use Rattle.merging.specs.Naming.{events_named};
ghost use Rattle.merging.specs.Texts.{config_asked, most_asked, naming_asked, IsAsked, IsFaultOfText, IsMergedText, IsUnnamedAsked};
ghost use Rattle.merging.specs.declared.fault.MergeFault.{MergeFault};

use crate::fault::MergeFault;
use crate::merged::{Extent, merge};
use crate::naming::{Naming, NamingFault, names_known};
use crate::run::Run;
use crate::{EventTable, EventsFault, Limits, MOST_NAMES};
use history::Config;
use memory_map::granule_limit;
use rmm_spec::Version;
use std::alloc::Global;
use thiserror::Error;

/// What is to be made of a recording.
#[derive(Clone, Copy)]
pub struct Asked {
    /// The version of the history.
    pub version: Version,
    /// The sizes of the machine, where they aren't those of the header.
    pub granules: Option<u64>,
    pub cpus: Option<u64>,
    pub extent: Extent,
    pub renaming: Option<Renaming>,
}

/// How granules are renamed.
#[derive(Clone, Copy)]
pub struct Renaming {
    /// Where the monitor's memory ends, in bytes: a granule's address is below it.
    pub memory: u64,
}

/// Why no run was made.
#[derive(Clone, Copy, Debug, Error)]
pub enum TextFault {
    #[error("{0}")]
    Text(EventsFault),
    #[error("{0}")]
    Merge(MergeFault),
    /// No machine has the sizes and the version that are asked for.
    #[error("no machine has these sizes")]
    Sizes,
    /// The event of the line has an address after so many others, which are as many as may be renamed.
    #[error("line {0}: addresses of more than {1} granules")]
    Granules(u32, u32),
    #[error("no memory")]
    NoMemory,
}

/// Makes a run of a recording's table, which it keeps.
pub fn merge_table(alloc: Global, table: EventTable, asked: Asked) -> Result<Run, TextFault>
    ensures merged { IfOk result (λ run. (text : List ℕ) → IsTableOf text table → IsMergedText text asked run) }
    ensures fault { IfErr result (λ fault. (text : List ℕ) → IsTableOf text table → IsFaultOfText text asked fault) }
{
    let naming = naming_of(alloc, &table, asked)?;
    let Some(config) = config_of(&table, &naming, asked) else {
        return Err(TextFault::Sizes);
    };
    match merge(table, config, asked.extent, naming) {
        Ok(run) => Ok(run),
        Err(fault) => Err(TextFault::Merge(fault)),
    }
}

// The names that are asked for.
fn naming_of(alloc: Global, table: &EventTable, asked: Asked) -> Result<Naming, TextFault>
    ensures naming { IfOk result (λ naming. naming ≡ naming_asked asked (known_front table.now.slots)) }
    ensures fault { IfErr result (IsUnnamedAsked asked (known_front table.now.slots)) }
{
    let Some(Renaming { memory }) = asked.renaming else {
        return Ok(Naming::AsRecorded);
    };
    let most = most_names(asked);
    match names_known(alloc, table, Limits { memory, most }) {
        Ok(names) => Ok(Naming::ByNames(names)),
        Err(NamingFault::TooMany(line)) => Err(TextFault::Granules(line, most as u32)),
        Err(NamingFault::NoMemory) => Err(TextFault::NoMemory),
    }
}

// How many granules may be renamed.
#[tactic(auto, using(spec_lemmas::proofs::Limits::granule_limit_le))]
fn most_names(asked: Asked) -> usize
    ensures is { result ≡ most_asked asked }
    ensures most { result ≤ MOST_NAMES }
{
    match asked.granules {
        Some(granules) if granules < granule_limit(asked.version) => granules as usize,
        _ => granule_limit(asked.version) as usize,
    }
}

/// The machine that is asked for, or that of the header.
fn config_of(table: &EventTable, naming: &Naming, asked: Asked) -> Option<Config>
    ensures { SomeIff result (IsAsked naming.now table.now asked) (config_asked naming.now table.now asked) }
{
    let sizes = table.sizes();
    let own = naming.granules(sizes.granules());
    let granules = asked.granules.unwrap_or(own);
    let cpus = asked.cpus.unwrap_or(u64::from(sizes.cpus()));
    Config::of(granules, cpus, asked.version)
}
