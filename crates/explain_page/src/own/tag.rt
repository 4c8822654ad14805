//! The tags of a picture's shapes.

ghost use Rattle.std.specs.Prelude.{◌≡◌};
ghost use Rattle.explain_page.specs.Own.{tag_text};

/// A tag, or a part of one.
#[derive(Clone, Copy)]
pub(crate) enum Tag {
    /// A rectangle, up to its class. So are the disc and the words.
    Rectangle,
    Disc,
    Words,
    /// Where the words of a shape begin.
    WordsStart,
    WordsEnd,
    /// A line through points.
    Line,
    Comma,
    Space,
    Quote,
    /// The end of a shape without words.
    Close,
    /// Shapes with a title.
    Group,
    /// The title of shapes that are a link.
    Title,
    GroupTitled,
    GroupEnd,
    /// A bar that leads to its row, up to its own number, to that of the row, and to its shapes.
    Bar,
    BarRow,
    LinkStart,
    /// The beginning of a report's line, up to its number, and its end.
    LineStart,
    LineEnd,
    /// What leads to a bar or to a row, up to its number.
    ToBar,
    ToRow,
    LinkEnd,
}

impl Tag {
    pub(crate) fn text(self) -> &'static [u8]
        ensures { result.now ≡ tag_text self }
    {
        match self {
            Tag::Rectangle => b"<rect class=\"",
            Tag::Disc => b"<circle class=\"",
            Tag::Words => b"<text class=\"",
            Tag::WordsStart => b">",
            Tag::WordsEnd => b"</text>\n",
            Tag::Line => b"<polyline class=\"order\" points=\"",
            Tag::Comma => b",",
            Tag::Space => b" ",
            Tag::Quote => b"\"",
            Tag::Close => b"/>\n",
            Tag::Group => b"<g><title>",
            Tag::Title => b"<title>",
            Tag::GroupTitled => b"</title>",
            Tag::GroupEnd => b"</g>\n",
            Tag::Bar => b"<a id=\"b",
            Tag::BarRow => b"\" href=\"#s",
            Tag::LinkStart => b"\">",
            Tag::LineStart => b"<span id=\"r",
            Tag::LineEnd => b"</span>",
            Tag::ToBar => b"<a href=\"#b",
            Tag::ToRow => b"<a href=\"#s",
            Tag::LinkEnd => b"</a>",
        }
    }
}
