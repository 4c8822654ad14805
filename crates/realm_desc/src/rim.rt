//! The realm initial measurement.

ghost use Rattle.std.specs.Prelude.{◌≡◌, ◌++◌};
ghost use Rattle.sha2.specs.Sha256.{sha256};
ghost use Rattle.sha2.specs.Sha512.{sha512};
ghost use Rattle.rmm_spec.specs.Measure.{rim_begin, rim_extended, words_bytes};

use crate::feed::{AT_ONCE, digest_at_once, digest_by_words};
use crate::known::{RIM_OF_39_BITS, RIM_OF_48_BITS, with_first_rec};
use rmm_spec::{FunctionId, Measurement};
use sha2::{Sha256, Sha512};
use std::marker::Model;

/// A realm initial measurement, 32 bytes or 64 by the realm's hash.
#[derive(Clone, Copy)]
pub struct Rim {
    measurement: Measurement,
}

impl Model for Rim {
    ghost use Rattle.rmm_spec.specs.declared.measurement.Measurement.{Measurement};

    ghost Value = { Measurement };

    ghost view = { λ rim. rim.measurement };

    ghost inverse = { λ measurement. record { measurement = measurement } };
}

impl Rim {
    /// Its bytes, behind the hash that made them.
    pub fn measurement(&self) -> &Measurement
        ensures { result.now ≡ self.now }
    {
        &self.measurement
    }
}

/// The RIM of a realm that is made now: its address space has 2 to the `width` bytes and is walked from `level` on,
/// and `algo` is the number of the hash that it asked for: 1 is SHA-512, and SHA-256 stands for any other.
pub fn begin(width: u64, level: u64, algo: u64) -> Rim
    ensures { result ≡ rim_begin width level algo }
{
    match (width, level, algo) {
        (0x27, 1, 0) => Rim {
            measurement: Measurement::Sha256(RIM_OF_39_BITS),
        },
        (0x30, 0, 0) => Rim {
            measurement: Measurement::Sha256(RIM_OF_48_BITS),
        },
        _ => hashed(width, level, algo),
    }
}

// The same by the hasher.
#[inline(never)]
#[tactic(auto, unfolding(rmm_spec::specs::Measure::rim_begin, rmm_spec::specs::Function::number_of))]
fn hashed(width: u64, level: u64, algo: u64) -> Rim
    ensures { result ≡ rim_begin width level algo }
{
    let words = [FunctionId::RealmCreate.number(), width, level, algo];
    let measurement = if algo == 1 {
        Measurement::Sha512(digest_by_words::<Sha512>(&[], &words))
    } else {
        Measurement::Sha256(digest_by_words::<Sha256>(&[], &words))
    };
    Rim { measurement }
}

/// The RIM after a command that is measured by `words`.
#[tactic(auto, unfolding(rmm_spec::specs::Measure::rim_extended))]
pub fn extend_words(rim: &Rim, words: &[u64]) -> Rim
    ensures { result ≡ rim_extended rim.now words.now }
{
    let measurement = match &rim.measurement {
        Measurement::Sha256(old) => Measurement::Sha256(extended_256(old, words)),
        Measurement::Sha512(old) => Measurement::Sha512(extended_512(old, words)),
    };
    Rim { measurement }
}

fn extended_256(old: &[u8; 32], words: &[u64]) -> [u8; 32]
    ensures { result ≡ sha256 (old.now ++ words_bytes words.now) }
{
    match with_first_rec(old, words) {
        Some(known) => known,
        None => digest_256(old, words),
    }
}

// By the hasher, apart, so that a digest is moved in whole words.
#[inline(never)]
fn digest_256(old: &[u8; 32], words: &[u64]) -> [u8; 32]
    ensures { result ≡ sha256 (old.now ++ words_bytes words.now) }
{
    if words.len() > AT_ONCE {
        return digest_by_words::<Sha256>(old, words);
    }
    let mut bytes = [0; 32 + 8 * AT_ONCE];
    digest_at_once::<Sha256>(&mut bytes[..32 + 8 * words.len()], old, words)
}

// Apart, since its hasher is large.
#[inline(never)]
fn extended_512(old: &[u8; 64], words: &[u64]) -> [u8; 64]
    ensures { result ≡ sha512 (old.now ++ words_bytes words.now) }
{
    if words.len() > AT_ONCE {
        return digest_by_words::<Sha512>(old, words);
    }
    let mut bytes = [0; 64 + 8 * AT_ONCE];
    digest_at_once::<Sha512>(&mut bytes[..64 + 8 * words.len()], old, words)
}
