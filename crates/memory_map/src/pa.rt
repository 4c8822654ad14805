//! Addresses of the machine's memory.

ghost use Rattle.std.specs.Prelude.{◌≡◌};

use std::marker::Model;

/// An address of physical memory, in bytes.
#[derive(Clone, Copy, Default, PartialEq)]
pub struct Pa {
    address: u64,
}

impl Model for Pa {
    ghost use Rattle.std.specs.Prelude.{ℕ};

    ghost Value = { ℕ };

    ghost view = { λ a. a.address };

    ghost inverse = { λ n. record { address = n } };
}

impl Pa {
    pub fn new(address: u64) -> Self
        ensures { result ≡ address }
    {
        Pa { address }
    }

    pub fn address(self) -> u64
        ensures { result ≡ self }
    {
        self.address
    }
}
