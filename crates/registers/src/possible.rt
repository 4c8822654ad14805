//! What an order of a register's calls may have come to.

ghost use Rattle.std.specs.Prelude.{◌≡◌, ◌<◌, IsTrue, false, Some, None};
ghost use Rattle.verdict_laws.specs.Registers.{at_first, is_placed, with_placed};
ghost use Rattle.registers.specs.Leads.{call_done};

use crate::done::{Done, value_after};
use crate::same::{same_places, same_value};
use realm_desc::Rem;
use std::marker::Model;

/// The CPUs whose open calls stand in it, and the register after it, where its realm is there.
#[derive(Clone, Copy)]
pub(crate) struct Possible {
    placed: [bool; 8],
    value: Option<Rem>,
}

impl Model for Possible {
    ghost use Rattle.verdict_laws.specs.Registers.{Possibility};

    ghost Value = { Possibility };

    ghost view = { λ p. record { placed = p.placed; value = p.value } };

    ghost inverse = { λ p. record { placed = p.placed; value = p.value } };
}

impl Possible {
    /// Before any call.
    pub(crate) fn at_first() -> Possible
        ensures { result ≡ at_first }
    {
        Possible {
            placed: [false; 8],
            value: None,
        }
    }

    /// Whether the open call of the CPU stands in it.
    pub(crate) fn is_placed(&self, cpu: u8) -> bool
        requires { cpu < 8 }
        ensures { result ≡ is_placed self.now cpu }
    {
        self.placed[usize::from(cpu)]
    }

    /// The register after it.
    pub(crate) fn value(&self) -> &Option<Rem>
        ensures { result.now ≡ self.now.value }
    {
        &self.value
    }

    /// What it comes to by the call of the CPU, which is open after it or not.
    pub(crate) fn with(&self, cpu: u8, placed: bool, call: &Done) -> Possible
        requires { cpu < 8 }
        ensures { result ≡ with_placed self.now cpu placed (Some (call_done call.now)) }
    {
        let mut after = self.placed;
        after[usize::from(cpu)] = placed;
        Possible {
            placed: after,
            value: value_after(call, &self.value),
        }
    }

    /// The same where the call of the CPU isn't open any more.
    pub(crate) fn without(&self, cpu: u8) -> Possible
        requires { cpu < 8 }
        ensures { result ≡ with_placed self.now cpu false None }
    {
        let mut placed = self.placed;
        placed[usize::from(cpu)] = false;
        Possible {
            placed,
            value: self.value,
        }
    }

    /// Whether both are one.
    pub(crate) fn is_same(&self, other: &Possible) -> bool
        ensures { IsTrue result → self.now ≡ other.now }
    {
        same_places(&self.placed, &other.placed) && same_value(&self.value, &other.value)
    }
}
