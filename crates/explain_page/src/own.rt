//! The pieces of markup that the program itself holds. All else in a page is a number or an escaped text.

ghost use Rattle.explain_page.specs.Own.{own_text};

mod attribute;
mod class;
mod frame;
mod head;
mod table;
mod tag;
mod words;

use crate::Markup;
pub(crate) use attribute::Attribute;
pub(crate) use class::Class;
pub(crate) use frame::Frame;
pub(crate) use head::{Head, START};
pub(crate) use table::Table;
pub(crate) use tag::Tag;
pub(crate) use words::Words;

/// What stands behind the head of a page, of such pieces.
pub(crate) type Page = crate::Page<Own>;

/// A piece of markup.
#[derive(Clone, Copy)]
pub(crate) enum Own {
    Frame(Frame),
    Tag(Tag),
    Attribute(Attribute),
    Class(Class),
    Words(Words),
    Table(Table),
}

impl Markup for Own {
    ghost text = { own_text };

    #[tactic(auto, unfolding(crate::specs::Own::own_text))]
    fn text(self) -> &'static [u8] {
        match self {
            Own::Frame(piece) => piece.text(),
            Own::Tag(piece) => piece.text(),
            Own::Attribute(piece) => piece.text(),
            Own::Class(piece) => piece.text(),
            Own::Words(piece) => piece.text(),
            Own::Table(piece) => piece.text(),
        }
    }
}
