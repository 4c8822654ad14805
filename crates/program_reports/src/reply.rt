//! Replies, as the texts have them.

use reasons::entry_size;
use rmm_spec::{Accepted, Refusal, Reply};
use std::alloc::{AllocError, Global};
use text_writers::push_reply;

/// A reply, such as `ok` or `err 1 0`.
pub(crate) fn reply_text(alloc: Global, reply: &Reply) -> Result<String, AllocError> {
    let mut text = Vec::new(alloc);
    push_reply(&mut text, reply)?;
    match String::from_utf8(text) {
        Ok(text) => Ok(text),
        Err(_) => Err(AllocError),
    }
}

/// What the specification replies: of several ends that it allows the least.
pub(crate) fn specified_text(
    alloc: Global,
    specified: &Result<Accepted, Refusal>,
) -> Result<String, AllocError> {
    match specified {
        Err(refusal) => reply_text(alloc, &refusal.reply()),
        Ok(Accepted::Done { words, .. }) => words_text(alloc, words.as_slice()),
        Ok(Accepted::Reaches(stretch)) => {
            let least = stretch
                .base
                .saturating_add(entry_size(u64::from(stretch.level)));
            words_text(alloc, &[least])
        }
    }
}

fn words_text(alloc: Global, words: &[u64]) -> Result<String, AllocError> {
    let mut text = String::from_str(alloc, "ok")?;
    for word in words {
        text.push_str(format!(in alloc; " {word:x}")?.as_str())?;
    }
    Ok(text)
}
