//! Pages.

ghost use Rattle.std.specs.Prelude.{◌≡◌, ◌++◌, IfOk, OnOk, OnErr};
ghost use Rattle.explain_page.specs.Pieces.{IsWritten};
ghost use Rattle.explain.specs.Explained.{verdict_of};
ghost use Rattle.explain_page.specs.Own.{own_text};
ghost use Rattle.explain_page.specs.Page.{AppendsPage, AppendsReport};

use crate::focus::Focus;
use crate::head::head_of;
use crate::marks::Mark;
use crate::own::{Frame, Own, Page};
use crate::picture::write_picture;
use crate::report_lines::write_lines;
use explain::{ExplainedRun, report};
use std::alloc::{AllocError, Global};

/// A text that a page has folded away, under its title.
#[derive(Clone, Copy)]
pub struct Fold<'a> {
    pub title: &'a [u8],
    pub text: &'a [u8],
}

/// What a page has besides the report.
#[derive(Clone, Copy)]
pub struct Extent<'a> {
    /// How many events its picture shows at most.
    pub around: usize,
    pub folds: &'a [Fold<'a>],
}

/// Appends the page of an explained run, or nothing where memory is refused. `end` stands at the end of its report. Where a text has
/// a malformed line there is no diagram.
pub fn append_page(
    alloc: Global,
    told: &ExplainedRun<'_>,
    extent: Extent<'_>,
    end: &[u8],
    out: &mut Vec<u8>,
) -> Result<(), AllocError>
    ensures ok { OnOk result (AppendsPage (verdict_of told.now.explanation) end.now out.old.items out.new.items) }
    ensures err { OnErr result (out.new.items ≡ out.old.items) }
{
    let mut text = Vec::new(alloc);
    report(alloc, &told.explanation, &mut text)?;
    text.extend_from_slice(end)?;
    let head = head_of(alloc, &told.explanation.verdict())?;
    let mut body = Page::new(alloc);
    let marks = write_front(alloc, &mut body, told, extent, text.as_slice())?;
    write_report(&mut body, text.as_slice(), marks.as_slice())?;
    let page = joined(alloc, head.as_bytes(), body.as_bytes())?;
    out.extend_from_slice(page.as_slice())?;
    Ok(())
}

fn joined(alloc: Global, head: &[u8], body: &[u8]) -> Result<Vec<u8>, AllocError>
    ensures { IfOk result (λ page. page.items ≡ head.now ++ body.now) }
{
    let mut page = head.to_vec(alloc)?;
    page.extend_from_slice(body)?;
    Ok(page)
}

// All between the head and the report: returns the steps of the table.
fn write_front(
    alloc: Global,
    page: &mut Page,
    told: &ExplainedRun<'_>,
    extent: Extent<'_>,
    report: &[u8],
) -> Result<Vec<Mark>, AllocError>
    ensures { OnOk result (IsWritten own_text page.new.bytes) }
{
    let marks = write_run(alloc, page, told, extent.around, report)?;
    for fold in extent.folds {
        write_fold(page, *fold)?;
    }
    let _fact = page.consists_of_pieces();
    Ok(marks)
}

fn write_run(
    alloc: Global,
    page: &mut Page,
    told: &ExplainedRun<'_>,
    around: usize,
    report: &[u8],
) -> Result<Vec<Mark>, AllocError> {
    match &told.run {
        Some(run) => {
            let focus = Focus::of(&told.explanation);
            write_picture(alloc, page, run, &focus, around, report)
        }
        None => {
            page.say(Own::Frame(Frame::NoPicture))?;
            Ok(Vec::new(alloc))
        }
    }
}

fn write_fold(page: &mut Page, fold: Fold<'_>) -> Result<(), AllocError> {
    page.say(Own::Frame(Frame::Fold))?;
    page.text(fold.title)?;
    page.say(Own::Frame(Frame::FoldTitled))?;
    page.text(fold.text)?;
    page.say(Own::Frame(Frame::FoldEnd))
}

// The report, and the end of the page.
fn write_report(page: &mut Page, text: &[u8], marks: &[Mark]) -> Result<(), AllocError>
    ensures { OnOk result (AppendsReport page.old.bytes page.new.bytes text.now) }
{
    page.say(Own::Frame(Frame::Report))?;
    write_lines(page, text, marks)?;
    page.say(Own::Frame(Frame::End))?;
    Ok(())
}
