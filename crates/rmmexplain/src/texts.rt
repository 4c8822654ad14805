//! The two texts of a run, from their files.

use file_programs::{Fault, HistoryRead, Judged, append_judged, bytes_of, history_at, judged_name};
use std::alloc::{AllocError, Global};
use std::rt::Files;

/// The files of a run.
#[derive(Clone, Copy)]
pub(crate) struct Paths<'a> {
    pub(crate) history: &'a str,
    pub(crate) certificate: &'a str,
}

/// What was read of them. The history is read no further than its bad line.
#[derive(Drop)]
pub(crate) struct Texts {
    pub(crate) history: HistoryRead,
    pub(crate) certificate: Vec<u8>,
}

pub(crate) fn texts_at<R: Files + AllocGlobal>(rt: &R, paths: Paths<'_>) -> Result<Texts, Fault> {
    let history = history_at(rt, String::from_str(rt.alloc(), paths.history)?)?;
    let certificate = bytes_at(rt, paths.certificate)?;
    Ok(Texts {
        history,
        certificate,
    })
}

pub(crate) fn bytes_at<R: Files + AllocGlobal>(rt: &R, path: &str) -> Result<Vec<u8>, Fault> {
    bytes_of(rt, String::from_str(rt.alloc(), path)?)
}

/// Appends the end of a report on both texts.
pub(crate) fn append_end(
    alloc: Global,
    texts: &Texts,
    out: &mut Vec<u8>,
) -> Result<(), AllocError> {
    let name = judged_name(alloc, &texts.history)?;
    let history = Judged {
        name: name.as_str(),
        bytes: texts.history.bytes.as_slice(),
    };
    let certificate = Judged {
        name: "certificate",
        bytes: texts.certificate.as_slice(),
    };
    append_judged(alloc, &[history, certificate], out)
}
