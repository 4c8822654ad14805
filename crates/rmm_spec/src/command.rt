//! A command: a function and its words.

use crate::call::Call;
use crate::function_id::FunctionId;
use arrayvec::ArrayVec;

/// A command as its caller gives it. A word that the function wants and that isn't there counts as zero.
#[derive(Drop, PartialEq)]
pub struct Command {
    pub function: FunctionId,
    pub words: ArrayVec<u64, 10>,
}

impl Command {
    ghost use Rattle.std.specs.Prelude.{◌≡◌};
    ghost use Rattle.rmm_spec.specs.Call.{call_of};

    /// The command with its words by name.
    pub fn call(&self) -> Call
        ensures { result ≡ call_of self.now }
    {
        Call::of(self.function, self.words.as_slice())
    }
}
