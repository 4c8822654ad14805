//! The head of a page: its title, its style sheet and its headline.

ghost use Rattle.std.specs.Prelude.{◌≡◌, ◌++◌, IfOk, OnOk};
ghost use Rattle.explain_page.specs.Pieces.{texts};
ghost use Rattle.rmm_spec.specs.VerdictText.{verdict_line};
ghost use Rattle.explain_page.specs.Head.{head_pieces, head_text, headline_pieces, style_pieces, title_pieces};

use crate::Page;
use crate::own::Head;
use checker::{Verdict, verdict_text};
use std::alloc::{AllocError, Global};

/// The head of a page, up to its headline's end. The title and the headline are the verdict's line.
pub(crate) fn head_of(alloc: Global, verdict: &Verdict) -> Result<Page<Head>, AllocError>
    ensures { IfOk result (λ head. head.bytes ≡ texts head_text (head_pieces (verdict_line verdict.now))) }
{
    let mut line = Vec::new(alloc);
    verdict_text(verdict, &mut line)?;
    let mut head = Page::new(alloc);
    write_title(&mut head, line.as_slice())?;
    write_style(&mut head)?;
    write_headline(&mut head, line.as_slice())?;
    Ok(head)
}

#[tactic(auto, unfolding(crate::specs::Head::title_pieces, crate::specs::Pieces::texts))]
fn write_title(head: &mut Page<Head>, line: &[u8]) -> Result<(), AllocError>
    ensures { OnOk result (head.new.bytes ≡ head.old.bytes ++ texts head_text (title_pieces line.now)) }
{
    head.say(Head::Start)?;
    head.text(line)
}

#[tactic(auto, unfolding(crate::specs::Head::style_pieces, crate::specs::Pieces::texts))]
fn write_style(head: &mut Page<Head>) -> Result<(), AllocError>
    ensures { OnOk result (head.new.bytes ≡ head.old.bytes ++ texts head_text style_pieces) }
{
    head.say(Head::Style)?;
    head.say(Head::TextStyle)?;
    head.say(Head::PictureStyle)
}

#[tactic(auto, unfolding(crate::specs::Head::headline_pieces, crate::specs::Pieces::texts))]
fn write_headline(head: &mut Page<Head>, line: &[u8]) -> Result<(), AllocError>
    ensures { OnOk result (head.new.bytes ≡ head.old.bytes ++ texts head_text (headline_pieces line.now)) }
{
    head.say(Head::Heading)?;
    head.text(line)?;
    head.say(Head::HeadingEnd)
}
