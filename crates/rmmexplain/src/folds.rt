//! What a page has folded away: the state before the step that fails, and the steps of the granules that its command names.

use command_words::named;
use explain::{Cause, ExplainedRun, Explanation, RefusedLine, Run};
use explain_page::Fold;
use run_steps::granule_steps;
use std::alloc::{AllocError, Global};

/// A text with its title.
#[derive(Drop)]
pub(crate) struct Section {
    title: String,
    text: String,
}

/// The sections as a page takes them.
pub(crate) fn folds_of(alloc: Global, sections: &[Section]) -> Result<Vec<Fold<'_>>, AllocError> {
    let mut folds = Vec::new(alloc);
    for section in sections {
        folds.push(Fold {
            title: section.title.as_bytes(),
            text: section.text.as_bytes(),
        })?;
    }
    Ok(folds)
}

/// The sections of the page of a run.
pub(crate) fn sections_of(
    alloc: Global,
    told: &ExplainedRun<'_>,
) -> Result<Vec<Section>, AllocError> {
    let mut sections = Vec::new(alloc);
    if let (
        Some(run),
        Explanation::No {
            cause: Cause::Reply(line),
            ..
        },
    ) = (&told.run, &told.explanation)
    {
        push_before(alloc, line, &mut sections)?;
        push_granules(alloc, run, line, &mut sections)?;
    }
    Ok(sections)
}

fn push_before(
    alloc: Global,
    line: &RefusedLine,
    sections: &mut Vec<Section>,
) -> Result<(), AllocError> {
    let before = &line.before;
    sections.push(Section {
        title: String::from_str(alloc, "The state before the step that fails")?,
        text: format!(in alloc; "{before}")?,
    })?;
    Ok(())
}

fn push_granules(
    alloc: Global,
    run: &Run,
    line: &RefusedLine,
    sections: &mut Vec<Section>,
) -> Result<(), AllocError> {
    let names = named(&line.call.call.command.call());
    for name in names.as_slice() {
        sections.push(granule_section(alloc, run, name.granule)?)?;
    }
    Ok(())
}

fn granule_section(alloc: Global, run: &Run, granule: u64) -> Result<Section, AllocError> {
    let steps = granule_steps(alloc, &run.history, &run.certificate, granule)?;
    Ok(Section {
        title: format!(in alloc; "The steps of granule {granule:x}")?,
        text: format!(in alloc; "{steps}")?,
    })
}
