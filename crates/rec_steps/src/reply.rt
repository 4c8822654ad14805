//! Words of a reply.

ghost use Rattle.std.specs.Prelude.{◌≡◌, ◌≤◌, length};

use arrayvec::ArrayVec;

/// The words of a reply.
pub(crate) fn reply_words(words: &[u64]) -> ArrayVec<u64, 10>
    requires { length words.now ≤ 10 }
    ensures { result.items ≡ words.now }
{
    let mut copy = ArrayVec::new();
    copy.try_extend_from_slice(words).unwrap();
    copy
}
