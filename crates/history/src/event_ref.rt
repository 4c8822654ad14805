//! Events, seen where their parts lie.

ghost use Rattle.std.specs.Prelude.{◌≡◌};
ghost use Rattle.history.specs.Entry.{HasFewWords};
ghost use Rattle.history.specs.EventRef.{event_seen};

use rmi_view::{CommandRef, ReplyRef};
use rmm_spec::Event;

/// An event whose command or reply lies elsewhere. An event of its own is large to move.
#[derive(Clone, Copy)]
pub enum EventRef<'a> {
    Called {
        cpu: u8,
        number: u32,
        command: CommandRef<'a>,
    },
    Returned {
        cpu: u8,
        number: u32,
        reply: ReplyRef<'a>,
    },
}

impl<'a> EventRef<'a> {
    pub fn of(event: &'a Event) -> EventRef<'a>
        ensures { event_seen result ≡ event.now }
    {
        match event {
            Event::Called {
                cpu,
                number,
                command,
            } => EventRef::Called {
                cpu: *cpu,
                number: *number,
                command: CommandRef::of(command),
            },
            Event::Returned { cpu, number, reply } => EventRef::Returned {
                cpu: *cpu,
                number: *number,
                reply: ReplyRef::of(reply),
            },
        }
    }

    /// An event of its own.
    pub fn to_event(self) -> Event
        requires { HasFewWords (event_seen self) }
        ensures { result ≡ event_seen self.entry }
    {
        match self {
            EventRef::Called {
                cpu,
                number,
                command,
            } => Event::Called {
                cpu,
                number,
                command: command.to_command(),
            },
            EventRef::Returned { cpu, number, reply } => Event::Returned {
                cpu,
                number,
                reply: reply.to_reply(),
            },
        }
    }
}
