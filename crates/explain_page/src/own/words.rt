//! The words between the numbers of a picture.

ghost use Rattle.std.specs.Prelude.{◌≡◌};
ghost use Rattle.explain_page.specs.Own.{words_text};

/// Words for people, without tags.
#[derive(Clone, Copy)]
pub(crate) enum Words {
    Cpu,
    Line,
    CallsOf,
    CpusOnLines,
    To,
    Of,
    OfTheHistory,
    ShownLines,
    AndLines,
}

impl Words {
    pub(crate) fn text(self) -> &'static [u8]
        ensures { result.now ≡ words_text self }
    {
        match self {
            Words::Cpu => b"CPU ",
            Words::Line => b"line",
            Words::CallsOf => b"The calls of ",
            Words::CpusOnLines => b" CPUs on lines ",
            Words::To => b" to ",
            Words::Of => b" of ",
            Words::OfTheHistory => b" of the history",
            Words::ShownLines => b"shown: lines ",
            Words::AndLines => b" and ",
        }
    }
}
