//! Links between a bar and its row.

use crate::own::{Own, Page, Tag};
use std::alloc::AllocError;

/// Opens what leads from the bar of a step to its row, which `close_link` ends. It is what a row leads to.
pub(crate) fn open_bar(page: &mut Page, step: u64) -> Result<(), AllocError> {
    page.say(Own::Tag(Tag::Bar))?;
    page.number(step)?;
    page.say(Own::Tag(Tag::BarRow))?;
    page.number(step)?;
    page.say(Own::Tag(Tag::LinkStart))
}

pub(crate) fn close_link(page: &mut Page) -> Result<(), AllocError> {
    page.say(Own::Tag(Tag::LinkEnd))
}

/// Writes a step's number, which leads to its bar.
pub(crate) fn link_to_bar(page: &mut Page, step: u64) -> Result<(), AllocError> {
    page.say(Own::Tag(Tag::ToBar))?;
    page.number(step)?;
    page.say(Own::Tag(Tag::LinkStart))?;
    page.number(step)?;
    close_link(page)
}
