//! Realm extensible measurements.

ghost use Rattle.std.specs.Prelude.{◌≡◌, ◌++◌};
ghost use Rattle.sha2.specs.Sha256.{sha256};
ghost use Rattle.sha2.specs.Sha512.{sha512};
ghost use Rattle.rmm_spec.specs.Measure.{rem_extended, rem_start};

use crate::feed::{AT_ONCE, digest_of_two};
use rmm_spec::Measurement;
use sha2::{Digest, Sha256, Sha512};
use std::marker::Model;

/// A realm extensible measurement, 32 bytes or 64 by the realm's hash.
#[derive(Clone, Copy)]
pub struct Rem {
    measurement: Measurement,
}

impl Model for Rem {
    ghost use Rattle.rmm_spec.specs.declared.measurement.Measurement.{Measurement};

    ghost Value = { Measurement };

    ghost view = { λ rem. rem.measurement };

    ghost inverse = { λ measurement. record { measurement = measurement } };
}

impl Rem {
    /// The REM of a realm that is made now with the hash of the number `algo`: 1 is SHA-512, and SHA-256 stands for any other.
    #[tactic(auto, unfolding(rmm_spec::specs::Measure::rem_start))]
    pub fn start(algo: u64) -> Rem
        ensures { result ≡ rem_start algo }
    {
        let measurement = if algo == 1 {
            Measurement::Sha512([0; 64])
        } else {
            Measurement::Sha256([0; 32])
        };
        Rem { measurement }
    }

    /// Its bytes, behind the hash that made them.
    pub fn measurement(&self) -> &Measurement
        ensures { result.now ≡ self.now }
    {
        &self.measurement
    }
}

/// The REM after it was extended by `bytes`.
#[tactic(auto, unfolding(rmm_spec::specs::Measure::rem_extended))]
pub fn extend_bytes(rem: &Rem, bytes: &[u8]) -> Rem
    ensures { result ≡ rem_extended rem.now bytes.now }
{
    let measurement = match &rem.measurement {
        Measurement::Sha256(old) => Measurement::Sha256(extended_256(old, bytes)),
        Measurement::Sha512(old) => Measurement::Sha512(extended_512(old, bytes)),
    };
    Rem { measurement }
}

// Apart, so that a digest is moved in whole words.
#[inline(never)]
fn extended_256(old: &[u8; 32], bytes: &[u8]) -> [u8; 32]
    ensures { result ≡ sha256 (old.now ++ bytes.now) }
{
    if bytes.len() > 8 * AT_ONCE {
        return digest_in_two(old, bytes);
    }
    let mut buffer = [0; 32 + 8 * AT_ONCE];
    digest_of_two::<Sha256>(&mut buffer[..32 + bytes.len()], old, bytes)
}

// The same, however many bytes they are.
#[inline(never)]
fn digest_in_two(old: &[u8; 32], bytes: &[u8]) -> [u8; 32]
    ensures { result ≡ sha256 (old.now ++ bytes.now) }
{
    let mut hasher = Sha256::new_with_prefix(old);
    hasher.update(bytes);
    hasher.finalize()
}

// Apart, since its hasher is large.
#[inline(never)]
fn extended_512(old: &[u8; 64], bytes: &[u8]) -> [u8; 64]
    ensures { result ≡ sha512 (old.now ++ bytes.now) }
{
    let mut hasher = Sha512::new_with_prefix(old);
    hasher.update(bytes);
    hasher.finalize()
}
