//! A command by its name, with its words by name.

use rmm_spec::FunctionId;
use std::fmt;

/// A command as a report names it. Words are in hex, as the texts have them.
#[derive(Clone, Copy)]
pub struct CallText<'a> {
    pub function: FunctionId,
    pub words: &'a [u64],
}

impl fmt::Display for CallText<'_> {
    fn fmt<W: fmt::Write>(&self, f: &mut fmt::Formatter<W>) -> fmt::Result {
        write_call(f, self.function.row().names, self.words)
    }
}

// A command's name, and behind each of its words' names the word. The last name stands for all words that are left.
fn write_call<W: fmt::Write>(f: &mut fmt::Formatter<W>, names: &str, words: &[u64]) -> fmt::Result {
    let mut names = names.split(' ');
    if let Some(command) = names.next() {
        f.write_str(command)?;
    }
    for word in words {
        match names.next() {
            Some(name) => write!(f, " {name}={word:x}")?,
            None => write!(f, ",{word:x}")?,
        }
    }
    Ok(())
}
