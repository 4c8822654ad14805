//! Names for the granules of a recording.

ghost use Rattle.std.specs.Prelude.{◌≡◌, ◌<◌, ◌≤◌, length, IfOk, IfErr, OnOk, OnErr};
ghost use Rattle.merging.specs.SeenEvents.{happened_seen, moment_seen, HasFewWords};
ghost use Rattle.merging.specs.Table.{IsHappened};
ghost use Rattle.merging.specs.Names.{names_from};
ghost use Rattle.merging.specs.Renamed.{lasts_in, moment_addresses};
ghost use Rattle.merging.specs.Naming.{names_of, named_slot, own_granules, IsUnnamed, IsUnnamedNext};
ghost use Rattle.merging.specs.Run.{known_front};
ghost use Rattle.merging.specs.declared.naming.Naming.TheVariants.{ByNames};

use crate::{
    EventTable, HappenedRef, Lasts, Limits, MOST_NAMES, NameFault, Names, map_text, renamed_slot,
};
use std::alloc::{AllocError, Global};

/// How addresses of granules are told.
#[derive(Drop)]
pub enum Naming {
    /// As they were recorded.
    AsRecorded,
    /// By their numbers among these.
    ByNames(Names),
}

/// Why addresses got no names.
#[derive(Clone, Copy)]
pub enum NamingFault {
    /// The event of this line has the first address too many.
    TooMany(u32),
    NoMemory,
}

/// Names for the addresses of what is known from stamp 0 on, in the order of their first appearances.
pub fn names_known(alloc: Global, table: &EventTable, limits: Limits) -> Result<Names, NamingFault>
    requires { limits.most ≤ MOST_NAMES }
    ensures names { IfOk result (λ names. names ≡ names_of limits.memory (known_front table.now.slots)) }
    ensures fault { IfErr result (IsUnnamed limits (known_front table.now.slots)) }
{
    let _fact = table.well_formed();
    let mut names = Names::new(alloc);
    let mut lasts = Lasts::new();
    for stamp in 0..table.len() {
        let Some(slot) = table.slot(stamp) else {
            return Ok(names);
        };
        take_names(&mut names, &lasts, limits, slot)?;
        lasts.take(slot);
    }
    Ok(names)
}

// Takes the addresses of the next moment.
fn take_names(
    names: &mut Names,
    lasts: &Lasts,
    limits: Limits,
    slot: HappenedRef<'_>,
) -> Result<(), NamingFault>
    requires { limits.most ≤ MOST_NAMES }
    ensures ok { OnOk result (names.new ≡ names_from names.old
        (moment_addresses limits.memory (lasts_in lasts.now slot.entry.cpu) (moment_seen slot.entry.moment))) }
    ensures few { OnOk result (length names.old ≤ limits.most → length names.new ≤ limits.most) }
    ensures fault { IfErr result (IsUnnamedNext limits names.old (lasts_in lasts.now) (happened_seen slot.entry)) }
{
    match names.take_moment(limits, lasts.at(slot.cpu), slot.moment) {
        Ok(()) => Ok(()),
        Err(NameFault::TooMany) => Err(NamingFault::TooMany(slot.line)),
        Err(NameFault::NoMemory) => Err(NamingFault::NoMemory),
    }
}

impl Naming {
    /// How many granules are needed, or so many where addresses are told as they were recorded.
    pub fn granules(&self, recorded: u64) -> u64
        ensures { result ≡ own_granules self.now recorded }
    {
        match self {
            Naming::AsRecorded => recorded,
            Naming::ByNames(names) => granules_for(names),
        }
    }
}

// How many granules have so many names, one at least.
fn granules_for(names: &Names) -> u64
    ensures { result ≡ own_granules (ByNames names.now) 0 }
{
    match names.len() as u64 {
        0 => 1,
        count => count,
    }
}

/// A moment as it is told, on a machine of so many granules. Words that are changed lie in the buffer.
pub(crate) fn named<'w>(
    naming: &Naming,
    granules: u64,
    words: &'w mut [u64; 10],
    lasts: &Lasts,
    slot: HappenedRef<'w>,
) -> HappenedRef<'w>
    requires granules { granules ≤ MOST_NAMES }
    requires happened { IsHappened (happened_seen slot) }
    requires few { HasFewWords (moment_seen slot.moment) }
    ensures seen { happened_seen result ≡ named_slot naming.now granules (lasts_in lasts.now slot.entry.cpu) (happened_seen slot.entry) }
    ensures happened { IsHappened (happened_seen result) }
    ensures few { HasFewWords (moment_seen result.moment) }
{
    match naming {
        Naming::AsRecorded => slot,
        Naming::ByNames(names) => renamed_slot(names, granules, words, lasts.at(slot.cpu), slot),
    }
}

ghost use Rattle.merging.specs.Texts.{map_of};

/// A line for each address with its name, and none where addresses are told as they were recorded.
pub fn naming_map(alloc: Global, naming: &Naming) -> Result<Vec<u8>, AllocError>
    ensures { IfOk result (λ text. text.items ≡ map_of naming.now) }
{
    match naming {
        Naming::AsRecorded => Ok(Vec::new(alloc)),
        Naming::ByNames(names) => map_text(alloc, names),
    }
}
