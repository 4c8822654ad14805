//! The shapes of a picture, as SVG.

use crate::own::{Attribute, Class, Own, Page, Tag};
use std::alloc::AllocError;

/// A rectangle.
#[derive(Clone, Copy)]
pub(crate) struct Area {
    pub(crate) x: u64,
    pub(crate) y: u64,
    pub(crate) width: u64,
    pub(crate) height: u64,
}

/// Draws a rectangle of a class.
pub(crate) fn rectangle(page: &mut Page, class: Class, area: Area) -> Result<(), AllocError> {
    page.say(Own::Tag(Tag::Rectangle))?;
    page.say(Own::Class(class))?;
    page.say(Own::Tag(Tag::Quote))?;
    place(page, area)?;
    page.say(Own::Tag(Tag::Close))
}

fn place(page: &mut Page, area: Area) -> Result<(), AllocError> {
    attribute(page, Attribute::X, area.x)?;
    attribute(page, Attribute::Y, area.y)?;
    attribute(page, Attribute::Width, area.width)?;
    attribute(page, Attribute::Height, area.height)
}

/// Draws a disc around a point.
pub(crate) fn disc(
    page: &mut Page,
    class: Class,
    (x, y): (u64, u64),
    radius: u64,
) -> Result<(), AllocError> {
    page.say(Own::Tag(Tag::Disc))?;
    page.say(Own::Class(class))?;
    page.say(Own::Tag(Tag::Quote))?;
    attribute(page, Attribute::CenterX, x)?;
    attribute(page, Attribute::CenterY, y)?;
    attribute(page, Attribute::Radius, radius)?;
    page.say(Own::Tag(Tag::Close))
}

/// Opens a line of words at a point, which `close_words` ends.
pub(crate) fn open_words(page: &mut Page, class: Class, x: u64, y: u64) -> Result<(), AllocError> {
    page.say(Own::Tag(Tag::Words))?;
    page.say(Own::Class(class))?;
    page.say(Own::Tag(Tag::Quote))?;
    attribute(page, Attribute::X, x)?;
    attribute(page, Attribute::Y, y)?;
    page.say(Own::Tag(Tag::WordsStart))
}

pub(crate) fn close_words(page: &mut Page) -> Result<(), AllocError> {
    page.say(Own::Tag(Tag::WordsEnd))
}

/// Writes an attribute with a number.
pub(crate) fn attribute(page: &mut Page, name: Attribute, number: u64) -> Result<(), AllocError> {
    page.say(Own::Attribute(name))?;
    page.number(number)?;
    page.say(Own::Tag(Tag::Quote))
}
