//! What came out of a run: the verdict on its two texts, and its replies.

use certificate::Certificate;
use checker::{Verdict, check, verdict_text};
use history::History;
use rmi_view::ReplyRef;
use std::alloc::{AllocError, Global};
use std::io;
use std::io::Write;

/// Whether the verdict on a run's two texts is `yes`. Another is printed, with the seed of the run.
pub(crate) fn are_yes(
    rt: &impl Print,
    alloc: Global,
    seed: u64,
    history: &History,
    certificate: &Certificate,
) -> io::Result<bool> {
    is_yes(rt, alloc, seed, &verdict(alloc, history, certificate)?)
}

/// Whether a verdict is `yes`. Another is printed, with the seed of the run.
pub(crate) fn is_yes(
    rt: &impl Print,
    alloc: Global,
    seed: u64,
    verdict: &Verdict,
) -> io::Result<bool> {
    if let Verdict::Yes(_) = verdict {
        return Ok(true);
    }
    let mut line = Vec::new(alloc);
    verdict_text(verdict, &mut line)?;
    print!(rt; "seed {seed}: ")?;
    io::writer(rt).write_all(line.as_slice())?;
    Ok(false)
}

fn verdict(
    alloc: Global,
    history: &History,
    certificate: &Certificate,
) -> Result<Verdict, AllocError> {
    let mut events = Vec::new(alloc);
    text_writers::write_history(history, &mut events)?;
    let mut lines = Vec::new(alloc);
    text_writers::write_certificate(certificate, &mut lines)?;
    check(alloc, events.as_slice(), lines.as_slice())
}

/// How many replies a run has, and how many of them are `ok`.
pub(crate) fn replies_of(history: &History) -> (u64, u64) {
    let (mut all, mut ok): (u64, u64) = (0, 0);
    for place in 0..history.len() {
        if let Some(reply) = history.reply_at(place) {
            all = all.wrapping_add(1);
            ok = ok.wrapping_add(u64::from(matches!(reply, ReplyRef::Ok(_))));
        }
    }
    (all, ok)
}
