//! The command line of `rmmexplain`.

ghost use Rattle.std.specs.Prelude.{◌≡◌, IfErr, IfOk, false, map, string_bytes};
ghost use Rattle.clap.specs.Words.{rule_of};
ghost use Rattle.file_programs.specs.Reports.{AskForNoReport, AsksForReport, IsReport, around_rule, report_command};

use crate::options::{Options, Output};
use crate::parsing::{
    Form, Refusal, asked, command_named, flag_named, option_named, path_named, value, with_argument,
};
use clap::builder::ValueParser;
use clap::{Arg, ArgMatches, Command};
use std::alloc::{AllocError, Global};

/// The most events that a page's picture shows.
const MOST_AROUND: u64 = 10_000;

/// What is reported on.
#[derive(Clone, Copy)]
pub enum Report<'a> {
    /// A certificate of a history.
    Run {
        output: Output<'a>,
        history: &'a str,
        certificate: &'a str,
    },
    /// What a scenario file states.
    Scenario(&'a str),
}

const USAGE: &str = "rmmexplain [--html FILE [--around N]] HISTORY CERT
       rmmexplain --json|--format gcc|--granule ADDRESS|--rows HISTORY CERT
       rmmexplain --scenario FILE";

const PAGE_HELP: &str = "Write the report to FILE, as a web page with a diagram";

const FORMAT_HELP: &str = "Print the report as a line FILE:LINE: error: .. [NAME: gcc]";

const GRANULE_HELP: &str = "Print each step that changed the granule or names it";

const JSON_HELP: &str = "Print the report as one JSON object";

const ROWS_HELP: &str = "Print how often each condition refused";

const SCENARIO_HELP: &str = "Print what the scenario in FILE runs";

const HISTORY_HELP: &str = "The history: which CPU called what, and what came back";

const CERT_HELP: &str = "The certificate: the claimed order of the calls";

/// Reads what is asked after the program's name: one output at most with `HISTORY CERT`, or `--scenario FILE`. A path that begins
/// with a dash stands after `--`. `version` is the text that `--version` prints after the name.
pub fn report_asked<'a>(
    alloc: Global,
    version: &'a str,
    arguments: &'a [String],
) -> Result<Report<'a>, Refusal>
    ensures found { IfOk result (AsksForReport (map string_bytes arguments.now)) }
    ensures refused { IfErr result (AskForNoReport (map string_bytes arguments.now)) }
{
    asked(alloc, version, arguments)
}

impl<'a> Form<'a> for Report<'a> {
    ghost app = { report_command };

    ghost is_asked = { IsReport };

    const NO_FORM: &'static str =
        "error: HISTORY and CERT are required with one output at most, or --scenario FILE and nothing else\n\n\
Usage: rmmexplain [--html FILE [--around N]] HISTORY CERT\n       \
rmmexplain --json|--format gcc|--granule ADDRESS|--rows HISTORY CERT\n       \
rmmexplain --scenario FILE\n\n\
For more information, try '--help'.\n";

    fn command(alloc: Global, version: &'a str) -> Result<Command<'a>, AllocError> {
        let about = "Prints the verdict on a history and a certificate, with the reason";
        let command = Ok(command_named(alloc, "rmmexplain", version, about).override_usage(USAGE));
        let command = with_argument(command, option_named(alloc, "html", "FILE", PAGE_HELP));
        let command = with_argument(command, around(alloc));
        let command = with_argument(command, flag_named(alloc, "json", JSON_HELP));
        let command = with_argument(command, option_named(alloc, "format", "NAME", FORMAT_HELP));
        let command = with_argument(
            command,
            option_named(alloc, "granule", "ADDRESS", GRANULE_HELP),
        );
        let command = with_argument(command, flag_named(alloc, "rows", ROWS_HELP));
        let command = with_argument(
            command,
            option_named(alloc, "scenario", "FILE", SCENARIO_HELP),
        );
        let command = with_argument(command, path_named(alloc, "HISTORY", HISTORY_HELP));
        with_argument(command, path_named(alloc, "CERT", CERT_HELP))
    }

    fn from_values(matches: &ArgMatches<'a>) -> Option<Report<'a>> {
        let options = Options::of(matches);
        let history = value(matches, "HISTORY");
        let certificate = value(matches, "CERT");
        match (value(matches, "scenario"), history, certificate) {
            (None, Some(history), Some(certificate)) => match options.output() {
                Some(output) => Some(Report::Run {
                    output,
                    history,
                    certificate,
                }),
                None => None,
            },
            (Some(file), None, None) => {
                if options.is_empty() {
                    Some(Report::Scenario(file))
                } else {
                    None
                }
            }
            _ => None,
        }
    }
}

fn around<'a>(alloc: Global) -> Arg<'a>
    ensures rule { rule_of result ≡ around_rule }
    ensures local { result.global ≡ false }
{
    let help = "Show N events in the diagram [default: 100]";
    option_named(alloc, "around", "N", help).value_parser(ValueParser::unsigned(1, MOST_AROUND))
}
