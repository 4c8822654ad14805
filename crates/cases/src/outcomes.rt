//! Files of which each is one case: what comes of it is printed behind its name.

use crate::files::files_ending;
use crate::{orders, recordings, runs};
use anyhow::Result;
use std::rt::Files;

/// What is done with a file.
#[derive(Clone, Copy)]
pub(crate) enum Kind {
    /// An order is searched of a history.
    Order,
    /// A recording is merged.
    Merge,
    /// A scenario is played.
    Run,
}

impl Kind {
    fn ending(self) -> &'static str {
        match self {
            Kind::Order => ".history",
            Kind::Merge => ".events",
            Kind::Run => ".toml",
        }
    }

    fn outcome<R: Files + AllocGlobal>(self, rt: &R, file: &str) -> Result<String> {
        match self {
            Kind::Order => orders::outcome(rt, file),
            Kind::Merge => recordings::outcome(rt, file),
            Kind::Run => runs::outcome(rt, file),
        }
    }
}

/// Does that with each file that is meant for it, in the order of their names.
pub(crate) fn print_outcomes<R: Files + Print + AllocGlobal + Clone + Drop>(
    rt: &R,
    kind: Kind,
) -> Result<()> {
    for file in &files_ending(rt, kind.ending())? {
        print_outcome(rt, kind, file.as_str())?;
    }
    Ok(())
}

fn print_outcome<R: Files + Print + AllocGlobal>(rt: &R, kind: Kind, file: &str) -> Result<()> {
    let outcome = kind.outcome(rt, file)?;
    println!(rt; "{file}: {outcome}")?;
    Ok(())
}
