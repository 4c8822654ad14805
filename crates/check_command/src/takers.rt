//! What takes the two texts: a history's reader, the session of a certificate, or nobody.

use checker::Session;
use devices::Taker;
use history::{HistoryFault, Reader};
use std::alloc::AllocError;

/// A history's reader, which takes what is there also behind its bad line.
#[derive(Drop)]
pub(crate) struct Recording(pub(crate) Reader);

impl Taker for Recording {
    ghost use Rattle.check_command.specs.Taken.{HasTaken, RefusesEvent};

    ghost has_taken = { λ recording _ text. HasTaken recording.0 text };

    ghost refuses = { λ recording piece. RefusesEvent recording.0 piece };

    fn take(&mut self, piece: &[u8]) -> Result<(), AllocError> {
        match self.0.feed(piece) {
            Err(HistoryFault::NoMemory) => Err(AllocError),
            Err(HistoryFault::BadLine(_)) => Ok(()),
            Ok(()) => Ok(()),
        }
    }
}

/// A session, which judges the certificate as it takes it.
#[derive(Drop)]
pub(crate) struct Judging(pub(crate) Session);

impl Taker for Judging {
    ghost use Rattle.rmm_spec.specs.HistoryText.{IsHistoryText};
    ghost use Rattle.std.specs.Prelude.{◌≡◌, false};
    ghost use Rattle.checker.specs.Session.{HasJudged, IsRefusedIn};

    ghost has_taken = { λ judging history text. IsHistoryText history judging.0.history.recorded × HasJudged judging.0 text
        × (judging.0.refused ≡ false) };

    ghost refuses = { λ judging piece. judging.0.refused ≡ false → IsRefusedIn judging.0 piece };

    fn take(&mut self, piece: &[u8]) -> Result<(), AllocError> {
        self.0.feed(piece)
    }
}

/// Takes a text of which nothing is asked.
#[derive(Drop)]
pub(crate) struct Unread;

impl Taker for Unread {
    ghost use Rattle.std.specs.Prelude.{⊤};

    ghost has_taken = { λ _ _ _. ⊤ };

    ghost refuses = { λ _ _. ⊥ };

    fn take(&mut self, _piece: &[u8]) -> Result<(), AllocError> {
        Ok(())
    }
}
