//! Addresses of a realm's memory.

ghost use Rattle.std.specs.Prelude.{◌≡◌};

use std::marker::Model;

/// An address of a realm's own memory (DEN0137, IPA), in bytes.
#[derive(Clone, Copy)]
pub struct Ipa {
    address: u64,
}

impl Model for Ipa {
    ghost use Rattle.std.specs.Prelude.{ℕ};

    ghost Value = { ℕ };

    ghost view = { λ a. a.address };

    ghost inverse = { λ n. record { address = n } };
}

impl Ipa {
    pub fn new(address: u64) -> Self
        ensures { result ≡ address }
    {
        Ipa { address }
    }

    pub fn address(self) -> u64
        ensures { result ≡ self }
    {
        self.address
    }
}
