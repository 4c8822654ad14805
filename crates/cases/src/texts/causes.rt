//! Since which step a run is refused.

use anyhow::Result;
use explain::{Cause, Deciding, EarlierStep, Explanation, RefusedLine, Since, explain};
use std::alloc::Global;
use std::fmt::Write;

/// Since which step the last line is refused, on one line.
pub(crate) fn since(alloc: Global, history: &str, certificate: &str) -> Result<String> {
    line_of(
        alloc,
        &explain(alloc, history.as_bytes(), certificate.as_bytes())?,
    )
}

fn line_of(alloc: Global, explanation: &Explanation<'_>) -> Result<String> {
    let mut line = String::new(alloc);
    if let Explanation::No {
        cause: Cause::Reply(refused),
        ..
    } = explanation
    {
        write_refused(&mut line, refused)?;
    }
    line.push_str("\n")?;
    Ok(line)
}

fn write_refused(line: &mut String, refused: &RefusedLine) -> Result<()> {
    let sinced = &refused.since;
    match refused.deciding {
        Deciding::Condition(_) => write_since(line, sinced)?,
        Deciding::Accepted => {
            line.push_str("accepted, ")?;
            write_since(line, sinced)?;
        }
        Deciding::Word(word) => {
            write!(line, "word {}", word.index)?;
            if let Since::Never { set, .. } = sinced {
                write_step(line, ", set by", set)?;
            }
        }
    }
    write_step(line, ", the one by", &refused.put)?;
    match &refused.late {
        Some(late) => {
            let step = late.step;
            write!(line, ", late {step}")?;
        }
        None => {}
    }
    Ok(())
}

fn write_since(line: &mut String, since: &Since) -> Result<()> {
    match since {
        Since::Turned(earlier) => {
            let step = earlier.step;
            write!(line, "turned by {step}")?;
        }
        Since::Never { made, set } => {
            line.push_str("never")?;
            write_step(line, " since", made)?;
            write_step(line, ", set by", set)?;
        }
    }
    Ok(())
}

fn write_step(line: &mut String, before: &str, earlier: &Option<EarlierStep>) -> Result<()> {
    if let Some(earlier) = earlier {
        let step = earlier.step;
        write!(line, "{before} {step}")?;
    }
    Ok(())
}
