//! Texts, read to histories.

ghost use Rattle.std.specs.Prelude.{◌≡◌, ◌≢◌, ◌<◌, ℕ, List, [], ◌++◌, Ok, Err, IfOk, IfErr, OnOk};
ghost use Rattle.rmi_codec.specs.Newlines.{newlines};
ghost use Rattle.rmm_spec.specs.HistoryText.{InHistories, IsHistoryText};
ghost use Rattle.rmm_spec.specs.Text.{IsBadLine};
ghost use Rattle.history.specs.Faults.{IsFaultOf, EventEndsIn};
ghost use Rattle.history.specs.declared.fault.HistoryFault.TheVariants.{NoMemory};

use crate::beginning::Beginning;
use crate::fault::HistoryFault;
use crate::history::History;
use std::alloc::Global;
use std::marker::Model;

/// Reads a history from a text that comes in pieces, in one pass. Contracts see the bytes given so far, or the fault by which
/// the reader has failed. It keeps what is recorded, and of a line that isn't whole at most 256 bytes.
#[derive(Drop)]
pub struct Reader {
    beginning: Beginning,
    failed: Option<HistoryFault>,
}

impl Model for Reader {
    ghost use Rattle.std.specs.Prelude.{ℕ, List, Result};
    ghost use Rattle.history.specs.declared.fault.HistoryFault.{HistoryFault};
    ghost use Rattle.history.specs.Pieces.{given_or_fault};

    ghost Value = { Result (List ℕ) HistoryFault };

    ghost view = { λ reader. given_or_fault reader.beginning reader.failed };
}

impl Reader {
    /// No byte yet.
    pub fn new(alloc: Global) -> Reader
        ensures { result ≡ Ok [] }
    {
        Reader {
            beginning: Beginning::new(alloc),
            failed: None,
        }
    }

    /// Reads the next bytes. A bad line is told only once it is bad whatever follows, and at the latest with its newline.
    /// A reader that has failed tells the same fault from then on.
    pub fn feed(&mut self, piece: &[u8]) -> Result<(), HistoryFault>
        ensures given { IfOk self.old (λ given. OnOk result (self.new ≡ Ok (given ++ piece.now))) }
        ensures fault { IfOk self.old (λ given. IfErr result (λ fault. (more : List ℕ) → IsFaultOf (given ++ (piece.now ++ more)) fault)) }
        ensures memory { IfOk self.old (λ given. result ≡ Err NoMemory → EventEndsIn given piece.now) }
        ensures timely { IfOk self.new (λ given. (line : ℕ) → IsBadLine InHistories given line → newlines given < line) }
        ensures fails { IfErr result (λ fault. self.new ≡ Err fault) }
        ensures failed { IfErr self.old (λ fault. result ≡ Err fault) }
    {
        if let Some(fault) = self.failed {
            return Err(fault);
        }
        match self.beginning.take(piece) {
            Ok(()) => {
                let _fact = self.beginning.well_begun();
                Ok(())
            }
            Err(fault) => {
                self.failed = Some(fault);
                Err(fault)
            }
        }
    }

    /// The history of the text, which ends here. A last line without a newline is bad.
    pub fn finish(self) -> Result<History, HistoryFault>
        ensures found { IfOk self (λ given. IfOk result (λ history. IsHistoryText given history.recorded)) }
        ensures fault { IfOk self (λ given. IfErr result (IsFaultOf given)) }
        ensures no_memory { IfOk self (λ given. result ≢ Err NoMemory) }
        ensures failed { IfErr self (λ fault. result ≡ Err fault) }
    {
        let Reader { beginning, failed } = self;
        match failed {
            None => beginning.finish(),
            Some(fault) => Err(fault),
        }
    }
}

/// Reads a history. A line that would be its 1,000,001st is bad, and so is the first of a text without any.
pub fn read(alloc: Global, text: &[u8]) -> Result<History, HistoryFault>
    ensures found { IfOk result (λ history. IsHistoryText text.now history.recorded) }
    ensures fault { IfErr result (IsFaultOf text.now) }
{
    let mut reader = Reader::new(alloc);
    reader.feed(text)?;
    reader.finish()
}
