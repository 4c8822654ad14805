//! A wrong word of a reply, in words.

use crate::explanation::WrongWord;
use rmm_spec::FunctionId;
use std::fmt;

/// A word of the reply to a function that isn't the specification's.
#[derive(Clone, Copy)]
pub(crate) struct WrongWordText {
    pub(crate) function: FunctionId,
    pub(crate) word: WrongWord,
    /// The specification leaves the choice of the word.
    pub(crate) is_choice: bool,
}

impl fmt::Display for WrongWordText {
    fn fmt<W: fmt::Write>(&self, f: &mut fmt::Formatter<W>) -> fmt::Result {
        let number = self.word.index;
        write!(f, "word {number} of the reply")?;
        if let Some(name) = reply_word(self.function, number) {
            write!(f, " ({name})")?;
        }
        match (self.word.claimed, self.word.specified) {
            (Some(claimed), specified) => write_claimed(f, claimed, specified, self.is_choice),
            (None, Some(specified)) => write!(f, " is missing, and has to be {specified:x}"),
            (None, None) => Ok(()),
        }
    }
}

// The word that is claimed, beside that of the specification.
fn write_claimed<W: fmt::Write>(
    f: &mut fmt::Formatter<W>,
    claimed: u64,
    specified: Option<u64>,
    is_choice: bool,
) -> fmt::Result {
    write!(f, " is {claimed:x}")?;
    match specified {
        Some(_) if is_choice => f.write_str(", which is none of those"),
        Some(specified) => write!(f, ", and has to be {specified:x}"),
        None => f.write_str(", and has to be missing"),
    }
}

/// The name that the profile gives to a word of a function's `ok` reply, counted from 0.
pub fn reply_word(function: FunctionId, number: u8) -> Option<&'static str> {
    match (function, number) {
        (FunctionId::DataDestroy, 0) => Some("data"),
        (FunctionId::RecEnter, 0) => Some("reached"),
        (FunctionId::RttDestroy | FunctionId::RttFold, 0) => Some("rtt"),
        (FunctionId::RttReadEntry, 0) => Some("level"),
        (FunctionId::RttReadEntry, 1) => Some("state"),
        (FunctionId::RttReadEntry, 2) => Some("address"),
        (FunctionId::RttReadEntry, 3) => Some("ripas"),
        (FunctionId::RttInitRipas | FunctionId::RttSetRipas, 0) => Some("out_top"),
        (FunctionId::RealmConfig, 0) => Some("width"),
        (FunctionId::RealmConfig, 1) => Some("algo"),
        (FunctionId::IpaStateGet, 0) => Some("ripas"),
        (FunctionId::Exit, 0) => Some("reason"),
        _ => None,
    }
}
