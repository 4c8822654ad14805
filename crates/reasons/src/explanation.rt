//! What is told of a verdict.

ghost use Rattle.std.specs.Prelude.{◌≡◌};
ghost use Rattle.reasons.specs.Verdict.{verdict_of, reason_of};

use crate::before::StateBefore;
use crate::facts::Fact;
use crate::flaw::Flaw;
use crate::named_call::{EarlierStep, NamedCall, UnfinishedCall};
use crate::owner_rows::OwnerRow;
use crate::since::{LateCommit, Since};
use rmm_spec::{Accepted, Reason, Refusal, Reply, Verdict};

/// A line that isn't in its grammar, counted from 1, its bytes without a newline, and why it isn't.
#[derive(Clone, Copy)]
pub struct BadLine<'a> {
    pub line: u64,
    pub bytes: &'a [u8],
    pub flaw: Flaw<'a>,
}

/// What a linearization leaves: how many lines it has of how many calls, on how many CPUs, and whose each granule is at the
/// end.
#[derive(Drop)]
pub struct Summary {
    pub count: u64,
    pub calls: u64,
    pub cpus: u8,
    pub owners: Vec<OwnerRow>,
}

/// A word of a reply, counted from 0, which isn't the specification's: the one that the line claims, and the one that is specified, where
/// each has one. Where the specification leaves the choice of an end, the least is specified.
#[derive(Clone, Copy)]
pub struct WrongWord {
    pub index: u8,
    pub claimed: Option<u64>,
    pub specified: Option<u64>,
}

/// What decides that a line is refused.
#[derive(Clone, Copy)]
pub enum Deciding {
    /// The condition of the specified refusal, which read this.
    Condition(Fact),
    /// Each condition of the command holds, and the line claims a refusal.
    Accepted,
    /// Each condition holds, and the line claims a reply with another word.
    Word(WrongWord),
}

/// A line whose reply the specification doesn't give after the lines before.
#[derive(Drop)]
pub struct RefusedLine {
    pub call: NamedCall,
    /// The reply that the line claims: the recorded one, or an unfinished line's own.
    pub claimed: Reply,
    /// What the specification answers there: what is done, or the condition that doesn't hold.
    pub specified: Result<Accepted, Refusal>,
    pub deciding: Deciding,
    /// Since which step that is so.
    pub since: Since,
    /// Of a condition on all RECs of a realm or on all entries of a table: the step that made so the one that it names.
    pub put: Option<EarlierStep>,
    /// A later step with which the condition would hold.
    pub late: Option<LateCommit>,
    /// The state before the step, as far as its command names it.
    pub before: StateBefore,
    /// The greatest end that the specification allows, where it leaves the choice of one.
    pub farthest: Option<u64>,
}

/// Why a step fails. Steps count the lines of the certificate from 1.
#[derive(Drop)]
pub enum Cause {
    /// The history has no such call.
    Unknown {
        cpu: u8,
        number: u32,
    },
    /// The line of an earlier step names the call.
    Repeated {
        call: NamedCall,
        earlier: u64,
    },
    /// A kept line names an unfinished call, or an unfinished line a finished one.
    Kind {
        call: NamedCall,
    },
    /// The call returned before the other call was made, which the line of an earlier step names.
    Order {
        call: NamedCall,
        earlier: u64,
        other: NamedCall,
    },
    /// The specification doesn't give that reply there.
    Reply(RefusedLine),
    /// The call returned, and no line names it.
    Missing(NamedCall),
}

/// A verdict with what stands behind it.
#[derive(Drop)]
pub enum Explanation<'a> {
    /// The history isn't in its grammar.
    HistoryFault(BadLine<'a>),
    /// The history is in its grammar, and the certificate isn't.
    CertificateFault(BadLine<'a>),
    /// A linearization, with the calls that never returned.
    Yes {
        summary: Summary,
        unfinished: Vec<UnfinishedCall>,
    },
    /// The first step that fails, and why, with the calls that never returned.
    No {
        step: u64,
        cause: Cause,
        unfinished: Vec<UnfinishedCall>,
    },
}

impl Explanation<'_> {
    /// The verdict that is explained.
    pub fn verdict(&self) -> Verdict
        ensures { result ≡ verdict_of self.now }
    {
        match self {
            Explanation::HistoryFault(bad) => Verdict::HistoryFault(bad.line),
            Explanation::CertificateFault(bad) => Verdict::CertificateFault(bad.line),
            Explanation::Yes { summary, .. } => Verdict::Yes(summary.count),
            Explanation::No { step, cause, .. } => Verdict::No {
                step: *step,
                reason: reason_of(cause),
            },
        }
    }
}

// The reason of a cause.
fn reason_of(cause: &Cause) -> Reason
    ensures { result ≡ reason_of cause.now }
{
    match cause {
        Cause::Unknown { .. } => Reason::Unknown,
        Cause::Repeated { .. } => Reason::Repeated,
        Cause::Kind { .. } => Reason::Kind,
        Cause::Order { .. } => Reason::Order,
        Cause::Reply(_) => Reason::Reply,
        Cause::Missing(call) => Reason::Missing(call.cpu, call.number),
    }
}
