//! The file of a page: it is no input, and what stands there is a page, or nothing.

use crate::texts::Paths;
use explain_page::is_page;
use file_programs::Fault;
use std::alloc::{AllocError, Global};
use std::fs;
use std::io::Read;
use std::rt::Files;

/// How many bytes are looked at.
const LOOKED_AT: usize = 512;

/// Ends the program where a page written to the file would take the place of something else.
pub(crate) fn check_page_file<R: Files + AllocGlobal>(
    rt: &R,
    file: &str,
    paths: Paths<'_>,
) -> Result<(), Fault> {
    if is_one_file(rt, file, paths.history) || is_one_file(rt, file, paths.certificate) {
        return Err(usage(rt.alloc(), file, "it is one of the texts")?);
    }
    let is_taken = match fs::metadata(rt, file) {
        Ok(metadata) => metadata.is_file() && !holds_page(rt, file)?,
        Err(_) => false,
    };
    if is_taken {
        return Err(usage(
            rt.alloc(),
            file,
            "it has something else than a page of rmmexplain",
        )?);
    }
    Ok(())
}

fn usage(alloc: Global, file: &str, why: &str) -> Result<Fault, AllocError> {
    let text = format!(in alloc; "rmmexplain: {file} isn't written: {why}\n")?;
    Ok(Fault::Usage(text))
}

// Whether two paths lead to one file.
fn is_one_file<R: Files + AllocGlobal>(rt: &R, path: &str, other: &str) -> bool {
    if path == other {
        return true;
    }
    match (fs::canonicalize(rt, path), fs::canonicalize(rt, other)) {
        (Ok(path), Ok(other)) => path == other,
        _ => false,
    }
}

// Whether a file is empty or a page.
fn holds_page<R: Files + AllocGlobal>(rt: &R, path: &str) -> Result<bool, Fault> {
    let Ok(mut file) = fs::open(rt, path) else {
        return unread(rt.alloc(), path);
    };
    let mut beginning = [0; LOOKED_AT];
    match file.read(&mut beginning) {
        Ok(0) => Ok(true),
        Ok(count) => Ok(is_page(&beginning[..count])),
        Err(_) => unread(rt.alloc(), path),
    }
}

fn unread(alloc: Global, path: &str) -> Result<bool, Fault> {
    Err(Fault::CannotRead(String::from_str(alloc, path)?))
}
