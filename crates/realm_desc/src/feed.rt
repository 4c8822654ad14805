//! What a hasher takes: a measurement, and what extends it.

ghost use Rattle.std.specs.Prelude.{◌≡◌, List, ℕ, ◌+◌, ◌*◌, ◌++◌, length};
ghost use Rattle.rmm_spec.specs.Measure.{words_bytes};

use byteorder::{ByteOrder, LittleEndian};
use sha2::Digest;

/// How many words are taken in one piece with what they extend.
pub(crate) const AT_ONCE: usize = 8;

/// The digest of some bytes and the words behind them, laid side by side into the first of these, which has just room for both.
#[tactic(auto, unfolding(rmm_spec::specs::Measure::words_bytes))]
pub(crate) fn digest_at_once<D: Digest>(bytes: &mut [u8], old: &[u8], words: &[u64]) -> D::Output
    requires { length bytes.old ≡ length old.now + 8 * length words.now }
    ensures { D.digest_of (old.now ++ words_bytes words.now) result }
{
    let (front, back) = bytes.split_at_mut(old.len());
    front.copy_from_slice(old);
    LittleEndian::write_u64_into(words, back);
    let message: &[u8] = bytes;
    D::digest(message)
}

/// The same word by word, however many they are.
pub(crate) fn digest_by_words<D: Digest>(old: &[u8], words: &[u64]) -> D::Output
    ensures { D.digest_of (old.now ++ words_bytes words.now) result }
{
    let mut hasher = D::new_with_prefix(old);
    feed_each(&mut hasher, words);
    hasher.finalize()
}

// The bytes of the words, after what the hasher holds.
fn feed_each<D: Digest>(hasher: &mut D, words: &[u64])
    ensures { (m : List ℕ) → D.holds hasher.old m → D.holds hasher.new (m ++ words_bytes words.now) }
{
    for word in words {
        let mut bytes = [0; 8];
        LittleEndian::write_u64(&mut bytes, *word);
        hasher.update(&bytes);
    }
}

/// The same of some bytes and those behind them.
pub(crate) fn digest_of_two<D: Digest>(buffer: &mut [u8], old: &[u8], bytes: &[u8]) -> D::Output
    requires { length buffer.old ≡ length old.now + length bytes.now }
    ensures { D.digest_of (old.now ++ bytes.now) result }
{
    let (front, back) = buffer.split_at_mut(old.len());
    front.copy_from_slice(old);
    back.copy_from_slice(bytes);
    let message: &[u8] = buffer;
    D::digest(message)
}
