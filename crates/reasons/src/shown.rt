//! Bytes as text for people.

use std::fmt;

/// How many bytes are shown.
const MOST_SHOWN: usize = 200;

/// Bytes of a text that may hold anything: printable ASCII as it is, any other byte by its hex number, and only so many.
#[derive(Clone, Copy)]
pub struct Shown<'a>(pub &'a [u8]);

impl fmt::Display for Shown<'_> {
    fn fmt<W: fmt::Write>(&self, f: &mut fmt::Formatter<W>) -> fmt::Result {
        for byte in self.0.iter().take(MOST_SHOWN) {
            match *byte {
                b' '..=b'~' => f.write_char(char::from(*byte))?,
                byte => write!(f, "\\x{byte:02x}")?,
            }
        }
        f.write_str(if self.0.len() > MOST_SHOWN { " .." } else { "" })
    }
}
