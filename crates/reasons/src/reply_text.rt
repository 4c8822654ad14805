//! Replies, as the texts have them, with Arm's names of statuses.

ghost use Rattle.std.specs.Prelude.{◌≡◌, ℕ, List, IsTrue};
ghost use Rattle.rmm_spec.specs.Call.{ByRealm, call_from, class_of};

use crate::levels::entry_size;
use command_words::{Caller, caller_for};
use rmm_spec::{Accepted, FunctionId, Reply, Stretch};
use std::fmt;

/// A reply as a report names it. A realm's calls have statuses of their own.
#[derive(Clone, Copy)]
pub(crate) struct ReplyText<'a> {
    pub(crate) reply: &'a Reply,
    pub(crate) is_by_realm: bool,
}

impl fmt::Display for ReplyText<'_> {
    fn fmt<W: fmt::Write>(&self, f: &mut fmt::Formatter<W>) -> fmt::Result {
        match self.reply {
            Reply::Ok(words) => write_ok(f, words.as_slice()),
            Reply::Err(status, index) => {
                write!(f, "err {status} {index}")?;
                write_status(f, *status, self.is_by_realm)
            }
            Reply::Misplaced => f.write_str("misplaced"),
        }
    }
}

// `ok` with its words.
fn write_ok<W: fmt::Write>(f: &mut fmt::Formatter<W>, words: &[u64]) -> fmt::Result {
    f.write_str("ok")?;
    for word in words {
        write!(f, " {word:x}")?;
    }
    Ok(())
}

fn write_status<W: fmt::Write>(
    f: &mut fmt::Formatter<W>,
    status: u8,
    is_by_realm: bool,
) -> fmt::Result {
    match (status, is_by_realm) {
        (1, true) => f.write_str(" (RSI_ERROR_INPUT)"),
        (1, false) => f.write_str(" (RMI_ERROR_INPUT)"),
        (2, false) => f.write_str(" (RMI_ERROR_REALM)"),
        (3, false) => f.write_str(" (RMI_ERROR_REC)"),
        (4, false) => f.write_str(" (RMI_ERROR_RTT)"),
        _ => Ok(()),
    }
}

/// What a command is answered where no row refuses it, with the greatest end where the monitor chooses one.
#[derive(Clone, Copy)]
pub(crate) struct AcceptedText<'a> {
    pub(crate) accepted: &'a Accepted,
    pub(crate) farthest: Option<u64>,
}

impl fmt::Display for AcceptedText<'_> {
    fn fmt<W: fmt::Write>(&self, f: &mut fmt::Formatter<W>) -> fmt::Result {
        match self.accepted {
            Accepted::Done { words, .. } => write_ok(f, words.as_slice()),
            Accepted::Reaches(stretch) => {
                write_reached(f, stretch, self.farthest.unwrap_or(stretch.top))
            }
        }
    }
}

// The replies that the free choice allows.
fn write_reached<W: fmt::Write>(
    f: &mut fmt::Formatter<W>,
    stretch: &Stretch,
    last: u64,
) -> fmt::Result {
    let size = entry_size(u64::from(stretch.level));
    let first = stretch.base.saturating_add(size);
    write!(f, "ok {first:x}")?;
    if first < last {
        write!(
            f,
            ", or a greater out_top in steps of {size:x} up to {last:x}"
        )?;
    }
    Ok(())
}

/// Whether a realm gives the command, from inside a REC.
pub(crate) fn is_by_realm(function: FunctionId) -> bool
    ensures realm { (words : List ℕ) → IsTrue result → class_of (call_from function words) ≡ ByRealm }
    ensures other { (words : List ℕ) → class_of (call_from function words) ≡ ByRealm → IsTrue result }
{
    matches!(caller_for(function), Caller::Realm)
}
