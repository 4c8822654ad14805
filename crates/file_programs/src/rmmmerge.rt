//! The arguments, and what they ask for.

ghost use Rattle.std.specs.Prelude.{◌≡◌, false};

use crate::parsing::{count, flag_named, option_named, path_named, with_argument};
use clap::error::ErrorKind;
use clap::{Arg, ArgMatches, Command, Error};
use std::alloc::{AllocError, Global};

const USAGE: &str =
    "rmmmerge [--version 1|2] [--large] [--granules G] [--cpus P] [--prefix] [--rename [--memory BYTES] [--map FILE]] EVENTS \
HISTORY CERTIFICATE\n       \
rmmmerge --version";

const NO_FORM: &str =
    "error: EVENTS, HISTORY and CERTIFICATE are required; --memory, a number in hex, and --map need --rename; \
--large has no --version\n\n\
For more information, try '--help'.\n";

/// What is asked for.
#[derive(Clone, Copy)]
pub enum Asked<'a> {
    /// Events are merged.
    Merge(Request<'a>),
    /// The program's version.
    Version,
}

/// What is to be merged, and how.
#[derive(Clone, Copy)]
pub struct Request<'a> {
    pub version: u64,
    /// Whether the history is of a large machine, whatever its version.
    pub large: bool,
    /// The sizes of the machine, where they aren't those of the header.
    pub granules: Option<u64>,
    pub cpus: Option<u64>,
    pub extent: Extent,
    /// Nothing where addresses stay as they are.
    pub names: Option<Names<'a>>,
    pub paths: Paths<'a>,
}

/// Which events are merged.
#[derive(Clone, Copy)]
pub enum Extent {
    All,
    /// Those before the first stamp that is missing.
    UpToHole,
}

/// How granules are renamed.
#[derive(Clone, Copy)]
pub struct Names<'a> {
    /// Where the monitor's memory ends, in bytes.
    pub memory: Option<u64>,
    /// The file that gets the map.
    pub map: Option<&'a str>,
}

/// The files that are read and written.
#[derive(Clone, Copy)]
pub struct Paths<'a> {
    pub events: &'a str,
    pub history: &'a str,
    pub certificate: &'a str,
}

/// Why nothing is asked for.
#[derive(Clone, Copy)]
pub enum Unasked {
    /// The help was printed, or what is wrong with the arguments: the program ends with this status.
    Printed(u8),
    /// Neither could be printed.
    CannotWrite,
    /// The allocator refused memory.
    NoMemory,
}

/// Reads the arguments, of which the first word is the program's name.
pub fn request_given<'a, R: Print + Eprint + AllocGlobal>(
    rt: &R,
    words: &'a [String],
) -> Result<Asked<'a>, Unasked> {
    match asked_by(rt.alloc(), words) {
        Ok(Some(asked)) => Ok(asked),
        Ok(None) => match eprint!(rt; "{NO_FORM}") {
            Ok(()) => Err(Unasked::Printed(2)),
            Err(_) => Err(Unasked::CannotWrite),
        },
        Err(error) => Err(printed(rt, &error)),
    }
}

fn asked_by<'a>(alloc: Global, words: &'a [String]) -> Result<Option<Asked<'a>>, Error> {
    let matches = program(alloc)?.try_get_matches_from(words)?;
    if matches.contains_id("version") && matches.get_str("version").is_none() {
        return Ok(Some(Asked::Version));
    }
    Ok(merge_in(&matches))
}

// Prints what clap has to say.
fn printed<R: Print + Eprint>(rt: &R, error: &Error) -> Unasked {
    if let ErrorKind::OutOfMemory = error.kind() {
        return Unasked::NoMemory;
    }
    match error.print(rt) {
        Ok(()) => Unasked::Printed(if error.use_stderr() { 2 } else { 0 }),
        Err(_) => Unasked::CannotWrite,
    }
}

fn merge_in<'a>(matches: &ArgMatches<'a>) -> Option<Asked<'a>> {
    let paths = Paths {
        events: matches.get_str("EVENTS")?,
        history: matches.get_str("HISTORY")?,
        certificate: matches.get_str("CERTIFICATE")?,
    };
    let version = matches.get_one::<u64>("version");
    let large = matches.get_flag("large");
    if large && version.is_some() {
        return None;
    }
    Some(Asked::Merge(Request {
        version: version.unwrap_or(1),
        large,
        granules: matches.get_one::<u64>("granules"),
        cpus: matches.get_one::<u64>("cpus"),
        extent: if matches.get_flag("prefix") {
            Extent::UpToHole
        } else {
            Extent::All
        },
        names: names_in(matches)?,
        paths,
    }))
}

// How granules are renamed, if at all, where the values are in order.
fn names_in<'a>(matches: &ArgMatches<'a>) -> Option<Option<Names<'a>>> {
    let map = matches.get_str("map");
    let memory = match matches.get_str("memory") {
        Some(digits) => match u64::from_str_radix(digits, 16) {
            Ok(bytes) => Some(bytes),
            Err(_) => return None,
        },
        None => None,
    };
    if matches.get_flag("rename") {
        return Some(Some(Names { memory, map }));
    }
    if memory.is_some() || map.is_some() {
        return None;
    }
    Some(None)
}

fn program<'a>(alloc: Global) -> Result<Command<'a>, AllocError> {
    let events = path_named(alloc, "EVENTS", "What the recorder wrote");
    let command = with_argument(with_options(alloc), events);
    let history = "The file that gets the calls and returns";
    let command = with_argument(command, path_named(alloc, "HISTORY", history));
    let certificate = "The file that gets the commits";
    with_argument(command, path_named(alloc, "CERTIFICATE", certificate))
}

// The command line without its paths.
fn with_options<'a>(alloc: Global) -> Result<Command<'a>, AllocError> {
    let prefix = "Take the events before the first stamp that no event has";
    let command = with_argument(with_sizes(alloc), flag_named(alloc, "prefix", prefix));
    let rename = "Give each granule the number of its first appearance, times 1000 (hex)";
    let command = with_argument(command, flag_named(alloc, "rename", rename));
    let memory = "An address from here on, in hex, is no granule";
    let command = with_argument(command, option_named(alloc, "memory", "BYTES", memory));
    let map = "Write which granule got which name to FILE";
    with_argument(command, option_named(alloc, "map", "FILE", map))
}

// The command line with the options of the machine.
fn with_sizes<'a>(alloc: Global) -> Result<Command<'a>, AllocError> {
    let large = "Write the history of a machine of up to 1048576 granules, which begins with rml1";
    let command = with_argument(unfilled(alloc), version(alloc));
    let command = with_argument(command, flag_named(alloc, "large", large));
    let granules =
        "Granules of the machine, at most 4096, or 1048576 with --large, whatever the header says";
    let command = with_argument(command, count(alloc, "granules", "G", 1_048_576, granules));
    let cpus = "CPUs of the machine, at most 8, whatever the header says";
    with_argument(command, count(alloc, "cpus", "P", 8, cpus))
}

// The command line without arguments.
fn unfilled<'a>(alloc: Global) -> Result<Command<'a>, AllocError> {
    let about = "Makes a history and a certificate of what a monitor's recorder wrote";
    let command = Command::new(alloc, "rmmmerge").bin_name("rmmmerge")?;
    Ok(
        command
            .disable_version_flag(true)
            .about(about)
            .override_usage(USAGE),
    )
}

fn version<'a>(alloc: Global) -> Arg<'a>
    ensures { result.global ≡ false }
{
    let help = "Version of the history (1). Alone it prints the program's version";
    count(alloc, "version", "1|2", 2, help)
        .short('V')
        .num_args(0..=1)
}
