//! Since which step a refused line is what it is.

use crate::facts::Fact;
use crate::named_call::{EarlierStep, NamedCall};

/// Since which step what decides is as it is before the step that fails.
#[derive(Drop)]
pub enum Since {
    /// It was otherwise before this step, and never after it.
    Turned(EarlierStep),
    /// It was never otherwise, since `made` made the realm or the REC that it is about, or else since the opening. The last step that
    /// changed what it is read from is `set`, where one did.
    Never {
        made: Option<EarlierStep>,
        set: Option<EarlierStep>,
    },
}

/// A step after the one that fails, of a call that overlaps its call: after it the condition would hold.
#[derive(Drop)]
pub struct LateCommit {
    pub step: u64,
    pub call: NamedCall,
    /// What the condition would read then.
    pub makes: Fact,
}
