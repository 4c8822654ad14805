//! What a call does to a register.

ghost use Rattle.std.specs.Prelude.{◌≡◌, Some, take};
ghost use Rattle.rmm_spec.specs.Measure.{rem_extended, words_bytes};
ghost use Rattle.verdict_laws.specs.Registers.{value_after};
ghost use Rattle.registers.specs.Leads.{call_done};

use byteorder::{ByteOrder, LittleEndian};
use realm_desc::{Rem, extend_bytes};
use std::cmp::min;

/// How many bytes the words of an extension have.
const BYTES: usize = 0x40;

/// A register begins with the hash of a number, or is extended by the first bytes of words, or is read.
#[derive(Clone, Copy)]
pub(crate) enum Done {
    Begins(u64),
    Extends { size: u64, values: [u64; 8] },
    Reads,
}

/// The register after the call. Where its realm isn't there, it is extended to none.
pub(crate) fn value_after(call: &Done, value: &Option<Rem>) -> Option<Rem>
    ensures { result ≡ value_after (Some (call_done call.now)) value.now }
{
    match call {
        Done::Begins(algo) => Some(Rem::start(*algo)),
        Done::Extends { size, values } => match value {
            Some(rem) => Some(extended(rem, *size, values)),
            None => None,
        },
        Done::Reads => *value,
    }
}

/// The register after it was extended by so many bytes of the values, or by all of them where they are fewer.
fn extended(rem: &Rem, size: u64, values: &[u64; 8]) -> Rem
    ensures { result ≡ rem_extended rem.now (take size (words_bytes values.now)) }
{
    let bytes = bytes_of(values);
    extend_bytes(rem, first_bytes(&bytes, size))
}

/// So many bytes, or all of them where they are fewer.
fn first_bytes(bytes: &[u8; BYTES], size: u64) -> &[u8]
    ensures { result.now ≡ take size bytes.now }
{
    &bytes[..min(size, BYTES as u64) as usize]
}

/// Each value as 8 bytes, the lowest of them first.
#[tactic(auto, unfolding(rmm_spec::specs::Measure::words_bytes))]
fn bytes_of(values: &[u64; 8]) -> [u8; BYTES]
    ensures { result ≡ words_bytes values.now }
{
    let mut bytes = [0; BYTES];
    LittleEndian::write_u64_into(values, &mut bytes);
    bytes
}
