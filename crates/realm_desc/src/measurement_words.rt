//! A measurement as the words by which a realm reads it.

ghost use Rattle.std.specs.Prelude.{◌≡◌};
ghost use Rattle.rmm_spec.specs.declared.measurement.Measurement.TheVariants.{Sha256, Sha512};
ghost use Rattle.rmm_spec.specs.Measure.{measurement_words, words_bytes};

use byteorder::{ByteOrder, LittleEndian};

/// A measurement by SHA-256 as four words, as a realm reads it.
pub fn words(measurement: &[u8; 32]) -> [u64; 4]
    ensures value { result ≡ measurement_words (Sha256 measurement.now) }
    ensures back { words_bytes result ≡ measurement.now }
{
    let mut words = [0; 4];
    LittleEndian::read_u64_into(measurement, &mut words);
    words
}

/// A measurement by SHA-512 as eight words, as a realm reads it.
pub fn words8(measurement: &[u8; 64]) -> [u64; 8]
    ensures value { result ≡ measurement_words (Sha512 measurement.now) }
    ensures back { words_bytes result ≡ measurement.now }
{
    let mut words = [0; 8];
    LittleEndian::read_u64_into(measurement, &mut words);
    words
}
