//! Where pages begin.

ghost use Rattle.std.specs.Prelude.{◌≡◌};
ghost use Rattle.rmm_spec.specs.Step.Terms as spec;

use crate::config::GRANULE_BYTES;

/// Whether a page begins at the address.
pub fn is_page(address: u64) -> bool
    ensures { result ≡ spec.is_page address }
{
    address % GRANULE_BYTES == 0
}
