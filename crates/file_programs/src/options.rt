//! What is made of a run: the options of `rmmexplain` that go with two texts.

ghost use Rattle.std.specs.Prelude.{◌≡◌, ◌↔◌, ℕ, IfNone, IfSome, IsTrue, option_map};
ghost use Rattle.clap.specs.Words.{found_of, rows_of};
ghost use Rattle.file_programs.specs.Outputs.{HasNone, IsOutput, IsWidth, format_named, options_in, options_seen};

use crate::parsing::{is_given, value};
use clap::ArgMatches;

/// How many events a page's picture shows where no number is given.
pub const AROUND: u64 = 100;

/// What is made of a history and a certificate.
#[derive(Clone, Copy)]
pub enum Output<'a> {
    /// The report.
    Text,
    /// The report as a web page in the file, with so many events in its picture.
    Page { file: &'a str, around: u64 },
    /// The report as an object for programs.
    Json,
    /// The report as a line of the form that compilers print.
    Gcc,
    /// The steps that touch the granule at the address that this text names.
    Granule { address: &'a str },
    /// How often each condition refused.
    Rows,
}

/// A form of lines.
#[derive(Clone, Copy)]
pub(crate) enum Format {
    Gcc,
    Unknown,
}

/// The options that are given.
#[derive(Clone, Copy)]
pub(crate) struct Options<'a> {
    page: Option<&'a str>,
    around: Option<&'a str>,
    granule: Option<&'a str>,
    format: Option<Format>,
    has_json: bool,
    has_rows: bool,
}

impl<'a> Options<'a> {
    /// Those of arguments.
    pub(crate) fn of(matches: &ArgMatches<'a>) -> Options<'a>
        ensures { options_seen result ≡ options_in (rows_of (found_of matches.now)) }
    {
        Options {
            page: value(matches, "html"),
            around: value(matches, "around"),
            granule: value(matches, "granule"),
            format: format_of(value(matches, "format")),
            has_json: is_given(matches, "json"),
            has_rows: is_given(matches, "rows"),
        }
    }

    /// Whether there is none.
    pub(crate) fn is_empty(self) -> bool
        ensures { IsTrue result ↔ HasNone (options_seen self.entry) }
    {
        self.page.is_none()
            && self.around.is_none()
            && self.granule.is_none()
            && self.format.is_none()
            && !self.has_json
            && !self.has_rows
    }

    /// The output for which they ask, if they ask for one and no more.
    pub(crate) fn output(self) -> Option<Output<'a>>
        ensures some { IfSome result (IsOutput (options_seen self.entry)) }
        ensures none { IfNone result ((output : Output) → IsOutput (options_seen self.entry) output → ⊥) }
    {
        let is_flagged = self.has_json || self.has_rows;
        match (self.page, self.granule, self.format) {
            (None, None, None) => self.flagged(),
            (Some(file), None, None) => {
                if is_flagged {
                    return None;
                }
                match width_from(self.around) {
                    Some(around) => Some(Output::Page { file, around }),
                    None => None,
                }
            }
            (None, Some(address), None) => {
                if is_flagged || self.around.is_some() {
                    None
                } else {
                    Some(Output::Granule { address })
                }
            }
            (None, None, Some(Format::Gcc)) => {
                if is_flagged || self.around.is_some() {
                    None
                } else {
                    Some(Output::Gcc)
                }
            }
            _ => None,
        }
    }

    // The output where no option has a value but perhaps the number of events.
    fn flagged(self) -> Option<Output<'a>>
        requires page { self.page ≡ None }
        requires granule { self.granule ≡ None }
        requires format { self.format ≡ None }
        ensures some { IfSome result (IsOutput (options_seen self.entry)) }
        ensures none { IfNone result ((output : Output) → IsOutput (options_seen self.entry) output → ⊥) }
    {
        if self.around.is_some() {
            return None;
        }
        match (self.has_json, self.has_rows) {
            (false, false) => Some(Output::Text),
            (true, false) => Some(Output::Json),
            (false, true) => Some(Output::Rows),
            (true, true) => None,
        }
    }
}

// The form that is named.
fn format_of(name: Option<&str>) -> Option<Format>
    ensures { result ≡ option_map format_named (option_map (λ text. text.now) name.entry) }
{
    match name {
        Some(name) => Some(if name == "gcc" {
            Format::Gcc
        } else {
            Format::Unknown
        }),
        None => None,
    }
}

// The number that is given, or that of none.
fn width_from(digits: Option<&str>) -> Option<u64>
    ensures some { IfSome result (IsWidth (option_map (λ text. text.now) digits.entry)) }
    ensures none { IfNone result ((width : ℕ) → IsWidth (option_map (λ text. text.now) digits.entry) width → ⊥) }
{
    match digits {
        None => Some(AROUND),
        Some(digits) => match digits.parse::<u64>() {
            Ok(width) => Some(width),
            Err(_) => None,
        },
    }
}
