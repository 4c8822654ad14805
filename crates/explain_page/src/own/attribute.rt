//! The attributes that have a number.

ghost use Rattle.std.specs.Prelude.{◌≡◌};
ghost use Rattle.explain_page.specs.Own.{attribute_text};

/// An attribute's name, with the space before it and the first quote.
#[derive(Clone, Copy)]
pub(crate) enum Attribute {
    X,
    Y,
    Width,
    Height,
    CenterX,
    CenterY,
    Radius,
    /// It has two numbers behind two zeros.
    ViewBox,
}

impl Attribute {
    pub(crate) fn text(self) -> &'static [u8]
        ensures { result.now ≡ attribute_text self }
    {
        match self {
            Attribute::X => b" x=\"",
            Attribute::Y => b" y=\"",
            Attribute::Width => b" width=\"",
            Attribute::Height => b" height=\"",
            Attribute::CenterX => b" cx=\"",
            Attribute::CenterY => b" cy=\"",
            Attribute::Radius => b" r=\"",
            Attribute::ViewBox => b" viewBox=\"0 0 ",
        }
    }
}
