//! The words of the command line.

ghost use Rattle.std.specs.Prelude.{◌≡◌, ◌≢◌, ℕ, List, IfOk, IfSome, IfNone, Err, Some, false, codes, map, option_map, string_bytes};
ghost use Rattle.clap.specs.Words.{app_of, kind_of, rule_of, subcommand_rows_of, with_subcommand};
ghost use Rattle.rmmcheck_arguments.specs.Words.{AreRefused, Asks, IsAsked, check_form, form_command, name_of, path, play_form};
ghost use Rattle.rmmcheck_arguments.specs.Words.{rmmcheck_command, value_of};

use clap::error::ErrorKind;
use clap::{Arg, ArgMatches, Command, Error};
use std::alloc::{AllocError, Global};

/// Why the words gave no request.
#[derive(Clone, Copy, Debug, thiserror::Error)]
pub enum WordsFault {
    #[error("the words are no `check HISTORY CERT`, `run SCENARIO` or `threads SCENARIO`")]
    Arguments,
    #[error("no memory")]
    NoMemory,
}

/// What the words ask for.
#[derive(Clone, Copy)]
pub enum Request<'a> {
    /// `check HISTORY CERT`.
    Check {
        history: &'a str,
        certificate: &'a str,
    },
    /// `run SCENARIO`.
    Run(&'a str),
    /// `threads SCENARIO`.
    Threads(&'a str),
}

/// Reads `rmmcheck check HISTORY CERT`, `rmmcheck run SCENARIO` or `rmmcheck threads SCENARIO`, of which the first word is the
/// program's name. A request for help is refused as any other words are. A path that begins with a dash stands after `--`.
pub fn request_given<'a>(alloc: Global, words: &'a [String]) -> Result<Request<'a>, WordsFault>
    ensures found { IfOk result (Asks (map string_bytes words.now)) }
    ensures refused { result ≡ Err WordsFault.Arguments → AreRefused (map string_bytes words.now) }
{
    let Ok(program) = program(alloc) else {
        return Err(WordsFault::NoMemory);
    };
    match program.try_get_matches_from(words) {
        Ok(matches) => match request_in(&matches) {
            Some(request) => Ok(request),
            None => unreachable!(),
        },
        Err(error) => Err(refusal(&error)),
    }
}

// One command with its subcommands, each of which takes paths.
fn program<'a>(alloc: Global) -> Result<Command<'a>, AllocError>
    ensures { IfOk result (λ command. app_of command ≡ rmmcheck_command) }
{
    let program = Command::new(alloc, "rmmcheck").subcommand_required(true);
    let program = with_check(alloc, program)?;
    let program = with_play(alloc, program, "run")?;
    with_play(alloc, program, "threads")
}

// The command with `check`, which takes two paths.
fn with_check<'a>(alloc: Global, program: Command<'a>) -> Result<Command<'a>, AllocError>
    ensures { IfOk result (λ command. app_of command ≡ with_subcommand (app_of program.entry) (form_command check_form)) }
{
    let check = Command::new(alloc, "check")
        .arg(path_named(alloc, "HISTORY"))?
        .arg(path_named(alloc, "CERT"))?;
    program.subcommand(check)
}

// The command with a subcommand that plays the scenario of a path.
fn with_play<'a>(
    alloc: Global,
    program: Command<'a>,
    name: &'a str,
) -> Result<Command<'a>, AllocError>
    ensures { IfOk result (λ command. app_of command ≡ with_subcommand (app_of program.entry) (form_command (play_form name.now))) }
{
    let play = Command::new(alloc, name).arg(path_named(alloc, "SCENARIO"))?;
    program.subcommand(play)
}

// A path that has to be given.
fn path_named<'a>(alloc: Global, id: &'a str) -> Arg<'a>
    ensures rule { rule_of result ≡ path id.now }
    ensures local { result.global ≡ false }
{
    Arg::new(alloc, id).required(true)
}

// What the subcommand asks for.
fn request_in<'a>(matches: &ArgMatches<'a>) -> Option<Request<'a>>
    ensures some { IfSome result (IsAsked (subcommand_rows_of matches.now)) }
    ensures no_check { IfNone result ((history certificate : List ℕ)
        → name_of (subcommand_rows_of matches.now) ≡ Some (codes "check")
        → value_of (codes "HISTORY") (subcommand_rows_of matches.now) ≡ Some history
        → value_of (codes "CERT") (subcommand_rows_of matches.now) ≡ Some certificate → ⊥) }
    ensures no_run { IfNone result ((scenario : List ℕ)
        → name_of (subcommand_rows_of matches.now) ≡ Some (codes "run")
        → value_of (codes "SCENARIO") (subcommand_rows_of matches.now) ≡ Some scenario → ⊥) }
    ensures no_threads { IfNone result ((scenario : List ℕ)
        → name_of (subcommand_rows_of matches.now) ≡ Some (codes "threads")
        → value_of (codes "SCENARIO") (subcommand_rows_of matches.now) ≡ Some scenario → ⊥) }
{
    match matches.subcommand_name()? {
        "check" => check_in(matches),
        "run" => Some(Request::Run(value(matches, "SCENARIO")?)),
        "threads" => Some(Request::Threads(value(matches, "SCENARIO")?)),
        _ => None,
    }
}

// What `check` asks for.
fn check_in<'a>(matches: &ArgMatches<'a>) -> Option<Request<'a>>
    requires { name_of (subcommand_rows_of matches.now) ≡ Some (codes "check") }
    ensures some { IfSome result (IsAsked (subcommand_rows_of matches.now)) }
    ensures none { IfNone result ((history certificate : List ℕ)
        → value_of (codes "HISTORY") (subcommand_rows_of matches.now) ≡ Some history
        → value_of (codes "CERT") (subcommand_rows_of matches.now) ≡ Some certificate → ⊥) }
{
    match (value(matches, "HISTORY"), value(matches, "CERT")) {
        (Some(history), Some(certificate)) => Some(Request::Check {
            history,
            certificate,
        }),
        _ => None,
    }
}

// The value of the subcommand's argument.
fn value<'a>(matches: &ArgMatches<'a>, id: &str) -> Option<&'a str>
    ensures { option_map (λ text. text.now) result ≡ value_of id.now (subcommand_rows_of matches.now) }
{
    match matches.subcommand() {
        Some((_, entered)) => entered.get_str(id),
        None => None,
    }
}

// Refused memory, and any other fault of the words.
fn refusal(error: &Error) -> WordsFault
    ensures arguments { result ≡ WordsFault.Arguments → kind_of error.now ≢ ErrorKind.OutOfMemory }
    ensures memory { result ≡ WordsFault.NoMemory → kind_of error.now ≡ ErrorKind.OutOfMemory }
{
    match error.kind() {
        ErrorKind::OutOfMemory => WordsFault::NoMemory,
        _ => WordsFault::Arguments,
    }
}
