//! The files of the folder where the program runs.

use anyhow::Result;
use std::alloc::Global;
use std::fs;
use std::rt::Files;

/// The names with that ending, in order.
pub(crate) fn files_ending<R: Files + AllocGlobal + Clone + Drop>(
    rt: &R,
    ending: &str,
) -> Result<Vec<String>> {
    let mut names = Vec::new(rt.alloc());
    for entry in fs::read_dir(rt, ".")? {
        push_ending(rt.alloc(), &mut names, entry?.file_name(), ending)?;
    }
    names.sort()?;
    Ok(names)
}

fn push_ending(alloc: Global, names: &mut Vec<String>, name: &str, ending: &str) -> Result<()> {
    if name.ends_with(ending) {
        names.push(String::from_str(alloc, name)?)?;
    }
    Ok(())
}
