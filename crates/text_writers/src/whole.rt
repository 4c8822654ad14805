//! A text is written whole or not at all.

ghost use Rattle.std.specs.Prelude.{◌≡◌, take, vec_capacity, OnOk, OnErr};

use std::alloc::AllocError;

/// Ends an append to a buffer that was this long before it: where memory was refused, what was appended is taken back.
pub(crate) fn all_or_nothing(
    out: &mut Vec<u8>,
    start: usize,
    appended: Result<(), AllocError>,
) -> Result<(), AllocError>
    ensures result { result ≡ appended }
    ensures ok { OnOk result (out.new.items ≡ out.old.items) }
    ensures err { OnErr result (out.new.items ≡ take start out.old.items) }
    ensures capacity { vec_capacity out.new ≡ vec_capacity out.old }
{
    if appended.is_err() {
        out.truncate(start);
    }
    appended
}
