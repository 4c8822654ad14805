//! What `clap` makes of arguments.

ghost use Rattle.std.specs.Prelude.{◌≡◌, List, [], IfErr, IfNone, IfOk, IfSome, OnOk, true, false, map, option_map, string_bytes};
ghost use Rattle.clap.specs.Words.{App, FailsBy, Row, Rule, app_of, fault_of, first_of, found_of, is_simple, is_simple_and_free};
ghost use Rattle.clap.specs.Words.{kind_of, matches_of, new_rule, rows_of, rule_of, with_rule};
ghost use Rattle.file_programs.specs.Arguments.{AskForNothing, AsksFor, IsNoForm, IsRefusalOf, command_of, flag_rule, is_set, option_rule};
ghost use Rattle.file_programs.specs.declared.parsing.Refusal.TheVariants.{NoMemory};

use clap::error::ErrorKind;
use clap::{Arg, ArgAction, ArgMatches, Command, Error, value_parser};
use std::alloc::{AllocError, Global};

/// Why arguments gave no request.
#[derive(Drop)]
pub enum Refusal {
    /// Help or the version was asked for: the text for standard output.
    Shown(String),
    /// The arguments ask for nothing that the program does: the text for standard error.
    Arguments(String),
    /// The allocator refused memory.
    NoMemory,
}

impl From<AllocError> for Refusal {
    ghost from_gives = { λ _ refusal. refusal ≡ NoMemory };

    fn from(_refused: AllocError) -> Refusal {
        Refusal::NoMemory
    }
}

/// A form that the values of a program's arguments may fill.
pub(crate) trait Form<'a>: Sized {
    /// The command line.
    ghost app: { App };

    /// The values fill this form.
    ghost is_asked: { List Row → Self → Type 0 };

    /// What is printed where `clap` finds no fault and the values fill no form.
    const NO_FORM: &'static str;

    /// The command line with its help, in which no argument has a rule on another. `version` is printed after the program's name.
    fn command(alloc: Global, version: &'a str) -> Result<Command<'a>, AllocError>
        ensures app { IfOk result (λ command. app_of command ≡ app) }
        ensures simple { is_simple app ≡ true }
        ensures free { is_simple_and_free app ≡ true };

    /// The form that the values fill.
    fn from_values(matches: &ArgMatches<'a>) -> Option<Self>
        ensures some { IfSome result (is_asked (rows_of (found_of matches.now))) }
        ensures none { IfNone result ((asked : Self) → is_asked (rows_of (found_of matches.now)) asked → ⊥) };
}

/// What the arguments ask for, of which the first is the program's name.
pub(crate) fn asked<'a, F: Form<'a>>(
    alloc: Global,
    version: &'a str,
    arguments: &'a [String],
) -> Result<F, Refusal>
    ensures found { IfOk result (AsksFor F.app F.is_asked (map string_bytes arguments.now)) }
    ensures refused { IfErr result (AskForNothing F.app F.is_asked (map string_bytes arguments.now)) }
{
    let matches = parsed::<F>(alloc, version, arguments)?;
    match F::from_values(&matches) {
        Some(asked) => Ok(asked),
        None => Err(no_form(alloc, F::NO_FORM)),
    }
}

// The values that the arguments give.
fn parsed<'a, F: Form<'a>>(
    alloc: Global,
    version: &'a str,
    arguments: &'a [String],
) -> Result<ArgMatches<'a>, Refusal>
    ensures rows { IfOk result (λ matches. rows_of (found_of matches) ≡ matches_of F.app (map string_bytes arguments.now)) }
    ensures accepted { OnOk result (fault_of F.app (map string_bytes arguments.now) ≡ []) }
    ensures refused { IfErr result (AskForNothing F.app F.is_asked (map string_bytes arguments.now)) }
{
    let command = F::command(alloc, version)?;
    match matched(command, arguments) {
        Ok(matches) => Ok(matches),
        Err(error) => Err(refused_by(alloc, &error)),
    }
}

// The same by a command line in which no argument has a rule on another.
fn matched<'a>(command: Command<'a>, arguments: &'a [String]) -> Result<ArgMatches<'a>, Error>
    requires simple { is_simple (app_of command) ≡ true }
    requires free { is_simple_and_free (app_of command) ≡ true }
    ensures rows { IfOk result (λ matches. rows_of (found_of matches) ≡ matches_of (app_of command.entry) (map string_bytes arguments.now)) }
    ensures kinds { FailsBy (fault_of (app_of command.entry) (map string_bytes arguments.now)) result }
{
    command.try_get_matches_from(arguments)
}

// The refusal that an error is, with its text.
fn refused_by(alloc: Global, error: &Error) -> Refusal
    ensures { IsRefusalOf (kind_of error.now) result }
{
    let Ok(text) = format!(in alloc; "{error}") else {
        return Refusal::NoMemory;
    };
    match error.kind() {
        ErrorKind::DisplayHelp => Refusal::Shown(text),
        ErrorKind::DisplayVersion => Refusal::Shown(text),
        ErrorKind::OutOfMemory => Refusal::NoMemory,
        _ => Refusal::Arguments(text),
    }
}

/// A command line without arguments. `version` is printed after its name.
pub(crate) fn command_named<'a>(
    alloc: Global,
    name: &'a str,
    version: &'a str,
    about: &'a str,
) -> Command<'a>
    ensures { app_of result ≡ command_of name.now [] }
{
    Command::new(alloc, name).version(version).about(about)
}

/// The command line with one argument more, where there is one.
pub(crate) fn with_argument<'a>(
    command: Result<Command<'a>, AllocError>,
    argument: Arg<'a>,
) -> Result<Command<'a>, AllocError>
    requires { argument.global ≡ false }
    ensures { (app : App) (rule : Rule) → IfOk command.entry (λ command. app_of command ≡ app) → rule_of argument.entry ≡ rule
        → IfOk result (λ command. app_of command ≡ with_rule app rule) }
{
    match command {
        Ok(command) => command.arg(argument),
        Err(refused) => Err(refused),
    }
}

/// `--NAME VALUE`, where `value` is what help calls the value.
pub(crate) fn option_named<'a>(
    alloc: Global,
    name: &'a str,
    value: &'a str,
    help: &'a str,
) -> Arg<'a>
    ensures rule { rule_of result ≡ option_rule name.now }
    ensures local { result.global ≡ false }
{
    Arg::new(alloc, name)
        .long(name)
        .value_name(value)
        .help(help)
}

/// `--NAME VALUE` whose value is a number from 1 on.
pub(crate) fn count<'a>(
    alloc: Global,
    name: &'a str,
    value: &'a str,
    most: i64,
    help: &'a str,
) -> Arg<'a>
    ensures { result.global ≡ false }
{
    option_named(alloc, name, value, help).value_parser(value_parser!(u64).range(1..=most))
}

/// `--NAME`, which has no value.
pub(crate) fn flag_named<'a>(alloc: Global, name: &'a str, help: &'a str) -> Arg<'a>
    ensures rule { rule_of result ≡ flag_rule name.now }
    ensures local { result.global ≡ false }
{
    Arg::new(alloc, name)
        .long(name)
        .action(ArgAction::SetTrue)
        .help(help)
}

/// A path without a name before it, which may be left out.
pub(crate) fn path_named<'a>(alloc: Global, name: &'a str, help: &'a str) -> Arg<'a>
    ensures rule { rule_of result ≡ new_rule name.now }
    ensures local { result.global ≡ false }
{
    Arg::new(alloc, name).help(help)
}

/// What a name or path has for a value.
pub(crate) fn value<'a>(matches: &ArgMatches<'a>, id: &str) -> Option<&'a str>
    ensures { option_map (λ text. text.now) result ≡ first_of id.now (rows_of (found_of matches.now)) }
{
    matches.get_str(id)
}

/// Whether a flag is given.
pub(crate) fn is_given(matches: &ArgMatches<'_>, id: &str) -> bool
    ensures { result ≡ is_set (first_of id.now (rows_of (found_of matches.now))) }
{
    match value(matches, id) {
        Some(text) => text == "true",
        None => false,
    }
}

// Arguments in which `clap` finds no fault and that fill no form.
fn no_form(alloc: Global, text: &str) -> Refusal
    ensures { IsNoForm result }
{
    match String::from_str(alloc, text) {
        Ok(text) => Refusal::Arguments(text),
        Err(_) => Refusal::NoMemory,
    }
}
