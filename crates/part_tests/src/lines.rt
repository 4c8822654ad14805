//! Lines of tests, of which each has to hold.

use std::process::Abort;

/// The test ends at a line that doesn't hold, and names it.
pub(crate) fn expect_line<R: Abort + AllocGlobal>(rt: &R, holds: bool, line: &str) {
    assert!(rt; holds, "at {line}");
}
