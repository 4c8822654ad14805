//! The arguments, and what they ask for.

ghost use Rattle.std.specs.Prelude.{◌≡◌, false};

use crate::parsing::{count, flag_named, option_named, with_argument};
use clap::error::ErrorKind;
use clap::{Arg, ArgMatches, Command, Error, value_parser};
use std::alloc::{AllocError, Global};

static SHARING: [&str; 3] = ["none", "some", "all"];

/// What is asked for.
#[derive(Clone, Copy)]
pub enum Asked {
    /// A scenario.
    Scenario(Request),
    /// The program's version.
    Version,
}

/// What the scenario is to be like.
#[derive(Clone, Copy)]
pub struct Request {
    pub seed: u64,
    pub version: u64,
    pub granules: u64,
    pub cpus: u64,
    /// How many commands all CPUs have together.
    pub commands: u32,
    pub shared: Shared,
    pub has_turns: bool,
    /// Whether lines of calls are printed, and no file.
    pub has_calls: bool,
}

/// Which granules the CPUs share.
#[derive(Clone, Copy)]
pub enum Shared {
    None,
    Some,
    All,
}

/// Why nothing is asked for.
#[derive(Clone, Copy)]
pub enum Unasked {
    /// The help was printed, or what is wrong with the arguments: the program ends with this status.
    Printed(u8),
    /// Neither could be printed.
    CannotWrite,
    /// The allocator refused memory.
    NoMemory,
}

/// Reads the arguments, of which the first word is the program's name.
pub fn request_given<R: Print + Eprint + AllocGlobal>(
    rt: &R,
    words: &[String],
) -> Result<Asked, Unasked> {
    match asked_by(rt.alloc(), words) {
        Ok(asked) => Ok(asked),
        Err(error) => Err(printed(rt, &error)),
    }
}

fn asked_by(alloc: Global, words: &[String]) -> Result<Asked, Error> {
    let matches = program(alloc)?.try_get_matches_from(words)?;
    if matches.contains_id("version") && matches.get_str("version").is_none() {
        return Ok(Asked::Version);
    }
    Ok(Asked::Scenario(request_in(&matches)))
}

// Prints what clap has to say.
fn printed<R: Print + Eprint>(rt: &R, error: &Error) -> Unasked {
    if let ErrorKind::OutOfMemory = error.kind() {
        return Unasked::NoMemory;
    }
    match error.print(rt) {
        Ok(()) => Unasked::Printed(if error.use_stderr() { 2 } else { 0 }),
        Err(_) => Unasked::CannotWrite,
    }
}

fn request_in(matches: &ArgMatches<'_>) -> Request {
    Request {
        seed: matches.get_one::<u64>("seed").unwrap_or(0),
        version: matches.get_one::<u64>("version").unwrap_or(1),
        granules: matches.get_one::<u64>("granules").unwrap_or(64),
        cpus: matches.get_one::<u64>("cpus").unwrap_or(4),
        commands: matches.get_one::<u32>("commands").unwrap_or(100),
        shared: match matches.get_str("sharing") {
            Some("none") => Shared::None,
            Some("all") => Shared::All,
            _ => Shared::Some,
        },
        has_turns: matches.get_flag("turns"),
        has_calls: matches.get_flag("calls"),
    }
}

fn program<'a>(alloc: Global) -> Result<Command<'a>, AllocError> {
    let commands = "Commands of all CPUs together, at most 499999 (100)";
    let command = with_argument(unfilled(alloc), seed(alloc));
    let command = with_argument(command, version(alloc));
    let command = with_argument(
        command,
        count(alloc, "granules", "G", 4096, "Granules, at most 4096 (64)"),
    );
    let command = with_argument(command, count(alloc, "cpus", "P", 8, "CPUs, at most 8 (4)"));
    let command = with_argument(command, count(alloc, "commands", "N", 499_999, commands));
    let command = with_argument(command, sharing(alloc));
    let turns = "List the turns for which they were drawn";
    let command = with_argument(command, flag_named(alloc, "turns", turns));
    let calls = "Print lines CPU COMMAND in place of a file";
    with_argument(command, flag_named(alloc, "calls", calls))
}

// The command line without arguments.
fn unfilled<'a>(alloc: Global) -> Result<Command<'a>, AllocError> {
    let about = "Draws a scenario and prints it as a file that rmmcheck runs";
    let command = Command::new(alloc, "rmmdraw").bin_name("rmmdraw")?;
    Ok(command.disable_version_flag(true).about(about))
}

fn seed<'a>(alloc: Global) -> Arg<'a>
    ensures { result.global ≡ false }
{
    let help = "Seed of the draw (0)";
    option_named(alloc, "seed", "N", help).value_parser(value_parser!(u64))
}

fn version<'a>(alloc: Global) -> Arg<'a>
    ensures { result.global ≡ false }
{
    let help = "Version of the rules (1). Alone it prints the program's version";
    count(alloc, "version", "1|2", 2, help)
        .short('V')
        .num_args(0..=1)
}

fn sharing<'a>(alloc: Global) -> Arg<'a>
    ensures { result.global ≡ false }
{
    let help = "Granules that CPUs share (some)";
    option_named(alloc, "sharing", "HOW", help).value_parser(SHARING.as_slice())
}
