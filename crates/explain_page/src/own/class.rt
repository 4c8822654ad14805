//! The classes of a picture's shapes, as the style sheet names them.

ghost use Rattle.std.specs.Prelude.{◌≡◌};
ghost use Rattle.explain_page.specs.Own.{class_text};

/// The class of a shape, or its classes.
#[derive(Clone, Copy)]
pub(crate) enum Class {
    Lane,
    OddLane,
    Cpu,
    Small,
    Strip,
    Shown,
    FailingTick,
    CauseTick,
    Bar,
    FailingBar,
    CauseBar,
    Name,
    NameAtEnd,
    Mark,
    FailingMark,
    Step,
    FailingStep,
    Hit,
    Gap,
}

impl Class {
    pub(crate) fn text(self) -> &'static [u8]
        ensures { result.now ≡ class_text self }
    {
        match self {
            Class::Lane => b"lane",
            Class::OddLane => b"lane odd",
            Class::Cpu => b"cpu",
            Class::Small => b"small",
            Class::Strip => b"strip",
            Class::Shown => b"shown",
            Class::FailingTick => b"tick failing",
            Class::CauseTick => b"tick cause",
            Class::Bar => b"bar",
            Class::FailingBar => b"bar failing",
            Class::CauseBar => b"bar cause",
            Class::Name => b"name",
            Class::NameAtEnd => b"name end",
            Class::Mark => b"mark",
            Class::FailingMark => b"mark failing",
            Class::Step => b"step",
            Class::FailingStep => b"step failing",
            Class::Hit => b"hit",
            Class::Gap => b"gap",
        }
    }
}
