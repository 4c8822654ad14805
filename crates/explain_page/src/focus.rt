//! What a picture points at.

use crate::calls::CallId;
use explain::{Cause, Explanation, NamedCall, RefusedLine, Since};

/// How a call is drawn.
#[derive(Clone, Copy)]
pub(crate) enum Role {
    Plain,
    /// The call of the step that fails.
    Failing,
    /// The call of the step behind the failing one.
    Cause,
}

/// The steps that are drawn, and the calls that stand out.
#[derive(Clone, Copy)]
pub(crate) struct Focus {
    /// The failing step, or the last one where none fails.
    pub(crate) last_step: u64,
    pub(crate) failing: Option<CallId>,
    pub(crate) cause: Option<CallId>,
}

impl Focus {
    pub(crate) fn of(explanation: &Explanation<'_>) -> Focus {
        match explanation {
            Explanation::HistoryFault(_) | Explanation::CertificateFault(_) => nothing(0),
            Explanation::Yes { summary, .. } => nothing(summary.count),
            Explanation::No { step, cause, .. } => of_cause(*step, cause),
        }
    }

    pub(crate) fn role(&self, call: CallId) -> Role {
        if self.failing == Some(call) {
            Role::Failing
        } else if self.cause == Some(call) {
            Role::Cause
        } else {
            Role::Plain
        }
    }
}

fn nothing(last_step: u64) -> Focus {
    Focus {
        last_step,
        failing: None,
        cause: None,
    }
}

fn of_cause(step: u64, cause: &Cause) -> Focus {
    match cause {
        Cause::Unknown { .. } => nothing(step),
        Cause::Repeated { call, .. } | Cause::Kind { call } | Cause::Missing(call) => {
            of_calls(step, call, None)
        }
        Cause::Order { call, other, .. } => of_calls(step, call, Some(id_of(other))),
        Cause::Reply(refused) => of_calls(step, &refused.call, behind(refused)),
    }
}

fn of_calls(last_step: u64, failing: &NamedCall, cause: Option<CallId>) -> Focus {
    Focus {
        last_step,
        failing: Some(id_of(failing)),
        cause,
    }
}

fn behind(refused: &RefusedLine) -> Option<CallId> {
    match &refused.since {
        Since::Turned(earlier)
        | Since::Never {
            set: Some(earlier),
            ..
        }
        | Since::Never {
            made: Some(earlier),
            set: None,
        } => Some(id_of(&earlier.call)),
        Since::Never {
            made: None,
            set: None,
        } => None,
    }
}

fn id_of(call: &NamedCall) -> CallId {
    CallId {
        cpu: call.cpu,
        number: call.number,
    }
}
