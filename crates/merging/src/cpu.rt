//! A CPU between two moments.

ghost use Rattle.std.specs.Prelude.{◌≡◌, ◌+◌, ◌<◌, ◌^◌, IfSome, IfNone};
ghost use Rattle.merging.specs.SeenEvents.{happened_seen, moment_seen, HasFewWords};
ghost use Rattle.merging.specs.Refusals.{IsMisfit};
ghost use Rattle.merging.specs.Run.{Fits, stand_after, start};
ghost use Rattle.merging.specs.Seen.{phase_seen, stand_seen};

use crate::fault::Refusal;
use crate::{HappenedRef, MomentRef};
use rmm_spec::Reply;

/// Where a CPU is with its last command.
#[derive(Drop)]
pub enum Phase {
    /// It has returned, or there was none.
    Idle,
    Called,
    /// It took effect, and is to give this reply.
    Committed(Reply),
}

/// A CPU after its last moment: that one's line, and how often it has called and returned.
#[derive(Drop)]
pub struct Cpu {
    pub line: u32,
    pub calls: u32,
    pub returns: u32,
    pub phase: Phase,
}

impl Cpu {
    /// Before its first moment.
    pub fn new() -> Cpu
        ensures { stand_seen result ≡ start }
    {
        Cpu {
            line: 0,
            calls: 0,
            returns: 0,
            phase: Phase::Idle,
        }
    }

    /// The CPU after one more moment.
    pub fn after(&self, slot: HappenedRef<'_>) -> Cpu
        requires calls { self.now.calls + 1 < 2 ^ 32 }
        requires returns { self.now.returns + 1 < 2 ^ 32 }
        requires few { HasFewWords (moment_seen slot.moment) }
        ensures { stand_seen result ≡ stand_after (stand_seen self.now) (happened_seen slot.entry) }
    {
        match slot.moment {
            MomentRef::Call(_) => Cpu {
                line: slot.line,
                calls: self.calls + 1,
                returns: self.returns,
                phase: Phase::Called,
            },
            MomentRef::Commit(reply) => Cpu {
                line: slot.line,
                calls: self.calls,
                returns: self.returns,
                phase: Phase::Committed(reply.to_reply()),
            },
            MomentRef::Return(_) => Cpu {
                line: slot.line,
                calls: self.calls,
                returns: self.returns + 1,
                phase: Phase::Idle,
            },
        }
    }
}

/// Why a moment can't be next in a phase, where it can't.
pub fn misfit(phase: &Phase, moment: MomentRef<'_>) -> Option<Refusal>
    ensures some { IfSome result (λ refusal. IsMisfit refusal (phase_seen phase.now) (moment_seen moment.entry)) }
    ensures none { IfNone result (Fits (phase_seen phase.now) (moment_seen moment.entry)) }
{
    match moment {
        MomentRef::Call(_) => match phase {
            Phase::Idle => None,
            Phase::Called => Some(Refusal::CallInCall),
            Phase::Committed(_) => Some(Refusal::CallInCall),
        },
        MomentRef::Commit(_) => match phase {
            Phase::Idle => Some(Refusal::CommitOutside),
            Phase::Called => None,
            Phase::Committed(_) => Some(Refusal::CommitTwice),
        },
        MomentRef::Return(given) => match phase {
            Phase::Idle => Some(Refusal::ReturnOutside),
            Phase::Called => Some(Refusal::ReturnUncommitted),
            Phase::Committed(committed) => {
                if given.is(committed) {
                    None
                } else {
                    Some(Refusal::OtherReply)
                }
            }
        },
    }
}
