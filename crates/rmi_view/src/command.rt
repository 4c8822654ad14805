//! Commands, seen where their words lie.

use crate::words::owned;
use rmm_spec::{Call, Command, FunctionId};

/// A command whose words lie elsewhere.
#[derive(Clone, Copy)]
pub struct CommandRef<'a> {
    pub function: FunctionId,
    pub words: &'a [u64],
}

impl<'a> CommandRef<'a> {
    ghost use Rattle.std.specs.Prelude.{◌≡◌, ◌≤◌, length};
    ghost use Rattle.rmm_spec.specs.Call.{call_of};
    ghost use Rattle.rmi_view.specs.Seen.{command_seen};

    pub fn of(command: &'a Command) -> CommandRef<'a>
        ensures seen { command_seen result ≡ command.now }
        ensures few { length result.words.now ≤ 10 }
    {
        CommandRef {
            function: command.function,
            words: command.words.as_slice(),
        }
    }

    /// A command of its own.
    pub fn to_command(self) -> Command
        requires { length self.words.now ≤ 10 }
        ensures { result ≡ command_seen self.entry }
    {
        Command {
            function: self.function,
            words: owned(self.words),
        }
    }

    /// The command with its words by name.
    pub fn call(self) -> Call
        ensures { result ≡ call_of (command_seen self.entry) }
    {
        Call::of(self.function, self.words)
    }
}

ghost use Rattle.std.specs.Prelude.{◌≡◌};

/// The same command once more.
pub fn copied_command(command: &Command) -> Command
    ensures { result ≡ command.now }
{
    CommandRef::of(command).to_command()
}
