//! Since which step a refused line is what it is, as lines.

use crate::explanation::Deciding;
use crate::facts::Fact;
use crate::facts_text::TagText;
use crate::named_call::EarlierStep;
use crate::since::{LateCommit, Since};
use std::fmt;

/// Since which step it is so, of what decides.
#[derive(Clone, Copy)]
pub(crate) struct SinceText<'a> {
    pub(crate) since: &'a Since,
    pub(crate) deciding: Deciding,
}

impl fmt::Display for SinceText<'_> {
    fn fmt<W: fmt::Write>(&self, f: &mut fmt::Formatter<W>) -> fmt::Result {
        match (self.since, self.deciding) {
            (Since::Turned(earlier), _) => write!(f, "since {earlier}"),
            (Since::Never { .. }, Deciding::Condition(Fact::Nothing | Fact::Word { .. })) => Ok(()),
            (Since::Never { made, set }, Deciding::Condition(_)) => {
                write_never(f, made.as_ref(), set.as_ref())
            }
            (Since::Never { .. }, Deciding::Accepted) => f.write_str(
                "and did so in every state before\n",
            ),
            (Since::Never { set, .. }, Deciding::Word(_)) => write_set(f, set.as_ref()),
        }
    }
}

fn write_never<W: fmt::Write>(
    f: &mut fmt::Formatter<W>,
    made: Option<&EarlierStep>,
    set: Option<&EarlierStep>,
) -> fmt::Result {
    match made {
        Some(made) => write!(f, "it never held since {made}")?,
        None => f.write_str("it never held before\n")?,
    }
    match (made, set) {
        (Some(made), Some(set)) if made.step == set.step => Ok(()),
        _ => write_set(f, set),
    }
}

fn write_set<W: fmt::Write>(f: &mut fmt::Formatter<W>, set: Option<&EarlierStep>) -> fmt::Result {
    match set {
        Some(set) => write!(f, "what it is read from was last changed by {set}"),
        None => Ok(()),
    }
}

impl fmt::Display for EarlierStep {
    fn fmt<W: fmt::Write>(&self, f: &mut fmt::Formatter<W>) -> fmt::Result {
        let (step, call) = (self.step, &self.call);
        write!(f, "step {step}, which names {call}")
    }
}

impl fmt::Display for LateCommit {
    fn fmt<W: fmt::Write>(&self, f: &mut fmt::Formatter<W>) -> fmt::Result {
        let (step, cpu, number) = (self.step, self.call.cpu, self.call.number);
        write!(
            f,
            "step {step} (call {number} of CPU {cpu}, which overlaps this call) makes "
        )?;
        match self.makes {
            Fact::Tag {
                granule,
                found: Some(found),
                ..
            } => {
                let found = TagText(found);
                write!(f, "{granule:x} {found}")?;
            }
            _ => f.write_str("it hold")?,
        }
        f.write_str(": was its commit recorded too late?\n")
    }
}
