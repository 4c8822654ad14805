//! A page that grows.

ghost use Rattle.std.specs.Prelude.{◌≡◌, ◌<◌, ◌++◌, [], List, ℕ, decimal, length, OnOk, OnErr};
ghost use Rattle.explain_page.specs.Escaped.{escaped};
ghost use Rattle.explain_page.specs.Pieces.{IsWritten};

use crate::escaping::push_escaped;
use itoa::Buffer;
use std::alloc::{AllocError, Global};
use std::marker::{Model, PhantomData};

/// The pieces of markup that a program itself holds. Each has one text.
pub trait Markup {
    ghost text: { Self → List ℕ };

    fn text(self) -> &'static [u8]
        ensures { result.now ≡ text self };
}

/// The HTML that was written so far: pieces of markup of the program's own, numbers, and escaped texts.
#[derive(Drop)]
pub struct Page<M: Markup> {
    bytes: Vec<u8>,
    own: PhantomData<M>,
}

impl<M: Markup> Model for Page<M> {
    ghost use Rattle.std.specs.Prelude.{◌-◌, vec_len, vec_capacity};
    ghost use Rattle.explain_page.specs.Pieces.{IsWritten, PageView};

    ghost Value = { PageView };

    ghost view = { λ p. record { bytes = p.bytes.items; room = vec_capacity p.bytes - vec_len p.bytes } };

    ghost invariant = { λ p. IsWritten M.text p.bytes.items };
}

impl<M: Markup> Page<M> {
    /// An empty page.
    pub fn new(alloc: Global) -> Page<M>
        ensures { result.bytes ≡ [] }
    {
        Page {
            bytes: Vec::new(alloc),
            own: PhantomData,
        }
    }

    /// Appends a piece of the program's own as it is.
    pub fn say(&mut self, markup: M) -> Result<(), AllocError>
        ensures ok { OnOk result (self.new.bytes ≡ self.old.bytes ++ M.text markup) }
        ensures err { OnErr result (self.new.bytes ≡ self.old.bytes) }
        ensures full { OnErr result (self.old.room < length (M.text markup)) }
    {
        self.bytes.extend_from_slice(markup.text())
    }

    /// Appends a number in decimals.
    pub fn number(&mut self, number: u64) -> Result<(), AllocError>
        ensures ok { OnOk result (self.new.bytes ≡ self.old.bytes ++ decimal number) }
        ensures err { OnErr result (self.new.bytes ≡ self.old.bytes) }
        ensures full { OnErr result (self.old.room < length (decimal number)) }
    {
        let mut digits = Buffer::new();
        let text = digits.format(number);
        self.bytes.extend_from_slice(text.as_bytes())
    }

    /// Appends a text from elsewhere, escaped.
    pub fn text(&mut self, bytes: &[u8]) -> Result<(), AllocError>
        ensures ok { OnOk result (self.new.bytes ≡ self.old.bytes ++ escaped bytes.now) }
        ensures err { OnErr result (self.new.bytes ≡ self.old.bytes) }
        ensures full { OnErr result (self.old.room < length (escaped bytes.now)) }
    {
        let start = self.bytes.len();
        let pushed = push_escaped(&mut self.bytes, bytes);
        if pushed.is_err() {
            self.bytes.truncate(start);
        }
        pushed
    }

    /// What was written.
    pub fn as_bytes(&self) -> &[u8]
        ensures { result.now ≡ self.now.bytes }
    {
        self.bytes.as_slice()
    }

    /// Law: what was written consists of pieces.
    pub fn consists_of_pieces(&self)
        ensures { IsWritten M.text self.now.bytes }
    {
        let _fact = &self.bytes;
    }
}
