//! One measurement, extended again and again.

use anyhow::{Result, bail};
use realm_desc::{Rem, Rim, begin, extend_bytes, extend_words, words};
use rmm_spec::Measurement;

/// Prints the last measurement as four words. Each extension hashes 96 bytes: the 32 of the measurement, and 64 bytes or eight words.
pub(crate) fn extend(rt: &impl Print, kind: &str, count: u64) -> Result<()> {
    match kind {
        "bytes" => print(rt, extended_by_bytes(count).measurement()),
        "words" => print(rt, extended_by_words(count).measurement()),
        _ => bail!("bytes or words?"),
    }
}

fn print(rt: &impl Print, measurement: &Measurement) -> Result<()> {
    let Measurement::Sha256(bytes) = measurement else {
        bail!("no measurement by SHA-256");
    };
    let [w0, w1, w2, w3] = words(bytes);
    println!(rt; "{w0:x} {w1:x} {w2:x} {w3:x}")?;
    Ok(())
}

// The start of a REM, extended so often by the bytes 0 to 63.
fn extended_by_bytes(count: u64) -> Rem {
    let mut block = [0; 64];
    for i in 0..64 {
        block[i] = i as u8;
    }
    let mut rem = Rem::start(0);
    for _ in 0..count {
        rem = extend_bytes(&rem, &block);
    }
    rem
}

// The RIM of a new realm, extended so often by the words 0 to 7.
fn extended_by_words(count: u64) -> Rim {
    let mut rim = begin(0x27, 1, 0);
    for _ in 0..count {
        rim = extend_words(&rim, &[0, 1, 2, 3, 4, 5, 6, 7]);
    }
    rim
}
