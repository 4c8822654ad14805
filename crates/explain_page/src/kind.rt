//! Whether a file is a page of this program.

ghost use Rattle.std.specs.Prelude.{◌≡◌, nat_eq};
ghost use Rattle.std.specs.List.{starts_with};

use crate::own::START;

/// Whether bytes begin as each page does.
pub fn is_page(bytes: &[u8]) -> bool
    ensures { result ≡ starts_with nat_eq bytes.now START.now }
{
    bytes.starts_with(START)
}
