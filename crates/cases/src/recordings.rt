//! Recordings that are merged. What should come of each stands in the file `stdout` beside this crate, worked out by hand from
//! docs/RECORDING.md.
//!
//! A name that ends in `prefix` is merged up to its first hole, one that ends in `two` into a history of version 2, in `large` into one
//! of a large machine, in `sizes` for 8 granules and 3 CPUs. One that begins with `rename` is merged with names for granules: of a memory
//! that ends at 100000 (hex) where it ends in `memory`, for 2 granules where it ends in `few`.

use anyhow::{Context, Result};
use devices::FileSource;
use merging::{
    Asked, Extent, Output, Renaming, Run, SourceFault, Version, WriteFault, merge_source,
};
use std::alloc::Global;
use std::fs;
use std::rt::Files;

fn asked(name: &str) -> Asked {
    let is_small = name.ends_with("sizes.events");
    Asked {
        version: version(name),
        granules: granules(name),
        cpus: if is_small { Some(3) } else { None },
        extent: if name.ends_with("prefix.events") {
            Extent::UpToHole
        } else {
            Extent::Whole
        },
        renaming: renaming(name),
    }
}

fn version(name: &str) -> Version {
    if name.ends_with("two.events") {
        Version::Two
    } else if name.ends_with("large.events") {
        Version::Large
    } else {
        Version::One
    }
}

fn granules(name: &str) -> Option<u64> {
    if name.ends_with("sizes.events") {
        Some(8)
    } else if name.ends_with("few.events") {
        Some(2)
    } else {
        None
    }
}

fn renaming(name: &str) -> Option<Renaming> {
    if !name.starts_with("rename") {
        return None;
    }
    Some(Renaming {
        memory: if name.ends_with("memory.events") {
            0x100000
        } else {
            u64::MAX
        },
    })
}

/// The history, the certificate and the map behind a first line with the count of stamps, or the fault.
pub(crate) fn outcome<R: Files + AllocGlobal>(rt: &R, name: &str) -> Result<String> {
    let mut source = FileSource::new(fs::open(rt, name).context(name)?);
    let merged = merge_source(rt.alloc(), &mut source, asked(name));
    told(rt.alloc(), &merged)
}

fn told(alloc: Global, merged: &Result<Run, SourceFault>) -> Result<String> {
    match merged {
        Ok(run) => texts(alloc, run),
        Err(SourceFault::Events(fault)) => Ok(format!(in alloc; "{fault}")?),
        Err(_) => Ok(String::from_str(alloc, "unread")?),
    }
}

fn write(
    alloc: Global,
    run: &Run,
    history: &mut Vec<u8>,
    certificate: &mut Vec<u8>,
) -> Result<(), WriteFault> {
    run.write(
        alloc,
        &mut Output::new(history),
        &mut Output::new(certificate),
    )
}

fn texts(alloc: Global, run: &Run) -> Result<String> {
    let stamps = run.stamps();
    let mut text = format!(in alloc; "{stamps} stamps\n")?;
    push_calls(alloc, run, &mut text)?;
    text.push_str(std::str::from_utf8(run.map(alloc)?.as_slice())?)?;
    Ok(text)
}

fn push_calls(alloc: Global, run: &Run, text: &mut String) -> Result<()> {
    let mut history = Vec::new(alloc);
    let mut certificate = Vec::new(alloc);
    write(alloc, run, &mut history, &mut certificate)?;
    text.push_str(std::str::from_utf8(history.as_slice())?)?;
    text.push_str(std::str::from_utf8(certificate.as_slice())?)?;
    Ok(())
}
