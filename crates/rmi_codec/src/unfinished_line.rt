//! The beginning of a line.

ghost use Rattle.std.specs.Prelude.{◌≡◌, ◌<◌, ◌↔◌, ◌++◌, [], length, false, IsTrue};
ghost use Rattle.rmm_spec.specs.Text.{HasNoNewline};

use arrayvec::ArrayVec;
use std::marker::Model;

/// How many bytes of a line are kept at most.
pub const MOST_BYTES: usize = 256;

/// The first bytes of a line whose newline hasn't come.
#[derive(Drop)]
pub struct UnfinishedLine {
    bytes: ArrayVec<u8, MOST_BYTES>,
}

impl Model for UnfinishedLine {
    ghost use Rattle.std.specs.Prelude.{ℕ, List};
    ghost use Rattle.rmm_spec.specs.Text.{HasNoNewline};

    ghost Value = { List ℕ };

    ghost view = { λ line. line.bytes.items };

    ghost invariant = { λ line. HasNoNewline line.bytes.items };
}

impl UnfinishedLine {
    /// No byte yet.
    pub fn new() -> UnfinishedLine
        ensures { result ≡ [] }
    {
        UnfinishedLine {
            bytes: ArrayVec::new(),
        }
    }

    pub fn is_empty(&self) -> bool
        ensures { IsTrue result ↔ (self.now ≡ []) }
    {
        self.bytes.is_empty()
    }

    /// The bytes so far.
    pub fn bytes(&self) -> &[u8]
        ensures bytes { result.now ≡ self.now }
        ensures no_newline { HasNoNewline self.now }
    {
        self.bytes.as_slice()
    }

    /// Keeps more bytes of the line and returns true, where it isn't too long with them. Else nothing changes.
    pub fn extend(&mut self, more: &[u8]) -> bool
        requires { HasNoNewline more.now }
        ensures kept { IsTrue result → self.new ≡ self.old ++ more.now }
        ensures too_long { result ≡ false → MOST_BYTES < length (self.old ++ more.now) }
        ensures no_newline { HasNoNewline (self.old ++ more.now) }
        ensures same { result ≡ false → self.new ≡ self.old }
    {
        self.bytes.try_extend_from_slice(more).is_ok()
    }

    /// Forgets the line, which has ended.
    pub fn clear(&mut self)
        ensures { self.new ≡ [] }
    {
        self.bytes.clear();
    }
}
