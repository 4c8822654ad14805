//! The command line of `rmmfind`.

ghost use Rattle.std.specs.Prelude.{◌≡◌, ℕ, Option, IfErr, IfNone, IfOk, IfSome, false, map, option_map, string_bytes};
ghost use Rattle.clap.specs.Words.{rule_of};
ghost use Rattle.file_programs.specs.Searches.{AskForNoSearch, AsksForSearch, IsLimit, IsSearch, IsTime};
ghost use Rattle.file_programs.specs.Searches.{history_rule, limit_rule, search_command, seconds_rule};

use crate::parsing::{
    Form, Refusal, asked, command_named, flag_named, is_given, option_named, path_named, value,
    with_argument,
};
use clap::builder::ValueParser;
use clap::{Arg, ArgMatches, Command};
use std::alloc::{AllocError, Global};

/// How many steps are tried where no number is given.
pub const LIMIT: u64 = 10_000_000;

/// How a history is searched.
#[derive(Clone, Copy)]
pub struct Search<'a> {
    /// How many steps are tried.
    pub limit: u64,
    /// How many seconds the search takes at most, where that is given.
    pub seconds: Option<u64>,
    /// Whether it is printed, where no order of all calls is found, how far orders got and why.
    pub has_reasons: bool,
    /// Whether the answer is printed as an object for programs.
    pub has_json: bool,
    pub history: &'a str,
}

const EXPLAIN_HELP: &str =
    "Where no order is found, print the longest beginnings and why no call comes next";

const JSON_HELP: &str = "Print the answer as one JSON object";

/// Reads `[--limit N] [--seconds S] [--explain|--json] HISTORY` after the program's name. A path that begins with a dash stands after `--`. `version`
/// is the text that `--version` prints after the name.
pub fn search_asked<'a>(
    alloc: Global,
    version: &'a str,
    arguments: &'a [String],
) -> Result<Search<'a>, Refusal>
    ensures found { IfOk result (AsksForSearch (map string_bytes arguments.now)) }
    ensures refused { IfErr result (AskForNoSearch (map string_bytes arguments.now)) }
{
    asked(alloc, version, arguments)
}

impl<'a> Form<'a> for Search<'a> {
    ghost app = { search_command };

    ghost is_asked = { IsSearch };

    const NO_FORM: &'static str =
        "error: HISTORY is required, N and S are numbers, and --explain doesn't go with --json\n\nFor more information, try '--help'.\n";

    fn command(alloc: Global, version: &'a str) -> Result<Command<'a>, AllocError> {
        let about = "Searches for an order of a history's calls that is a linearization";
        let command = Ok(command_named(alloc, "rmmfind", version, about));
        let command = with_argument(command, limit(alloc));
        let command = with_argument(command, seconds(alloc));
        let command = with_argument(command, flag_named(alloc, "explain", EXPLAIN_HELP));
        let command = with_argument(command, flag_named(alloc, "json", JSON_HELP));
        with_argument(command, history(alloc))
    }

    fn from_values(matches: &ArgMatches<'a>) -> Option<Search<'a>> {
        let has_reasons = is_given(matches, "explain");
        let has_json = is_given(matches, "json");
        if has_reasons && has_json {
            return None;
        }
        match (
            limit_from(value(matches, "limit")),
            time_from(value(matches, "seconds")),
            value(matches, "HISTORY"),
        ) {
            (Some(limit), Some(seconds), Some(history)) => Some(Search {
                limit,
                seconds,
                has_reasons,
                has_json,
                history,
            }),
            _ => None,
        }
    }
}

fn limit<'a>(alloc: Global) -> Arg<'a>
    ensures rule { rule_of result ≡ limit_rule }
    ensures local { result.global ≡ false }
{
    let help = "Give up after N tried steps [default: 10000000]";
    option_named(alloc, "limit", "N", help).value_parser(ValueParser::unsigned(0, u64::MAX))
}

fn seconds<'a>(alloc: Global) -> Arg<'a>
    ensures rule { rule_of result ≡ seconds_rule }
    ensures local { result.global ≡ false }
{
    let help = "Give up after S seconds";
    option_named(alloc, "seconds", "S", help).value_parser(ValueParser::unsigned(0, u64::MAX))
}

fn history<'a>(alloc: Global) -> Arg<'a>
    ensures rule { rule_of result ≡ history_rule }
    ensures local { result.global ≡ false }
{
    let help = "The history: which CPU called what, and what came back";
    path_named(alloc, "HISTORY", help).required(true)
}

// The number that is given, or that of none.
fn limit_from(digits: Option<&str>) -> Option<u64>
    ensures some { IfSome result (IsLimit (option_map (λ text. text.now) digits.entry)) }
    ensures none { IfNone result ((limit : ℕ) → IsLimit (option_map (λ text. text.now) digits.entry) limit → ⊥) }
{
    match digits {
        None => Some(LIMIT),
        Some(digits) => match digits.parse::<u64>() {
            Ok(limit) => Some(limit),
            Err(_) => None,
        },
    }
}

// The seconds that are given, if any are.
fn time_from(digits: Option<&str>) -> Option<Option<u64>>
    ensures some { IfSome result (IsTime (option_map (λ text. text.now) digits.entry)) }
    ensures none { IfNone result ((seconds : Option ℕ) → IsTime (option_map (λ text. text.now) digits.entry) seconds → ⊥) }
{
    match digits {
        None => Some(None),
        Some(digits) => match digits.parse::<u64>() {
            Ok(seconds) => Some(Some(seconds)),
            Err(_) => None,
        },
    }
}
