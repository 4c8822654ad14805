//! Why a certificate is a linearization of a history or isn't: the verdict with the reason for it, and a report of that.
//! It promises that the verdict explained is the one that `Judges` names of the two texts; that a refusal called specified is the
//! specification's after the lines before the step, by the first condition that fails there; that the step since which it fails is the last
//! at which it turned, or made what it is about; that the fact shown for it is so; and that a report is appended whole or not at all.
//! The program `rmmexplain` depends on it.
#![tactic(auto)]

mod before;
mod cause;
mod deciding;
mod earlier;
mod explained_run;
mod explaining;
mod fact;
mod farthest;
mod flaw;
mod late;
mod laws;
mod named_call;
mod replay;
mod reporting;
mod since;
mod steps;
mod track;
mod unfinished;
mod watch;

pub use explained_run::{ExplainedRun, Run, explain};
pub use explaining::explain_run;
pub use laws::words_are_read;
pub use reasons::{
    BadLine, Cause, Deciding, EarlierStep, EntryRead, Explanation, Fact, Flaw, GranuleBefore,
    LateCommit, Misplaced, NamedCall, RealmBefore, RecBefore, RefusedLine, Since, StateBefore,
    Summary, UnfinishedCall, WalkBefore, WrongWord,
};
pub use reporting::report;
