//! Whether two possibilities have the same parts.

ghost use Rattle.std.specs.Prelude.{◌≡◌, IsTrue};

use realm_desc::Rem;
use rmm_spec::Measurement;

/// Whether they are of the same CPUs.
pub(crate) fn same_places(one: &[bool; 8], other: &[bool; 8]) -> bool
    ensures { IsTrue result → one.now ≡ other.now }
{
    one == other
}

/// Whether both are there and the same, or neither is there.
pub(crate) fn same_value(one: &Option<Rem>, other: &Option<Rem>) -> bool
    ensures { IsTrue result → one.now ≡ other.now }
{
    match one {
        None => other.is_none(),
        Some(one) => match other {
            Some(other) => same_measurement(one.measurement(), other.measurement()),
            None => false,
        },
    }
}

/// Whether both are of one hash and have the same bytes.
fn same_measurement(one: &Measurement, other: &Measurement) -> bool
    ensures { IsTrue result → one.now ≡ other.now }
{
    match one {
        Measurement::Sha256(bytes) => match other {
            Measurement::Sha256(second) => bytes == second,
            Measurement::Sha512(_) => false,
        },
        Measurement::Sha512(bytes) => match other {
            Measurement::Sha512(second) => bytes == second,
            Measurement::Sha256(_) => false,
        },
    }
}
