//! The head of a page, up to its headline's end: what alone has a style sheet.

ghost use Rattle.std.specs.Prelude.{◌≡◌};
ghost use Rattle.explain_page.specs.Head.{head_text};

use crate::Markup;

/// A part of the head.
#[derive(Clone, Copy)]
pub(crate) enum Head {
    /// All up to the title's words. By its first lines a page of this program is known.
    Start,
    Style,
    TextStyle,
    PictureStyle,
    /// All from the style sheet's end to the headline's words.
    Heading,
    HeadingEnd,
}

impl Markup for Head {
    ghost text = { head_text };

    #[tactic(auto, unfolding(crate::specs::Head::head_text))]
    fn text(self) -> &'static [u8] {
        match self {
            Head::Start => START,
            Head::Style => b"</title>\n<style>\n",
            Head::TextStyle => TEXT_STYLE,
            Head::PictureStyle => PICTURE_STYLE,
            Head::Heading => b"</style>\n</head>\n<body>\n<main>\n<h1>",
            Head::HeadingEnd => b"</h1>\n",
        }
    }
}

pub(crate) const START: &[u8] =
    b"<!DOCTYPE html>\n<html lang=\"en\">\n<head>\n<meta charset=\"utf-8\">\n\
<meta name=\"generator\" content=\"rmmexplain\">\n\
<meta name=\"viewport\" content=\"width=device-width, initial-scale=1\">\n<title>";

const TEXT_STYLE: &[u8] =
    b"body{margin:0;font:16px/1.5 system-ui,sans-serif;color:#111;background:#fff}\n\
main{max-width:1200px;margin:0 auto;padding:16px}\n\
h1{font-size:1.6rem;margin:0 0 12px;overflow-wrap:anywhere}\n\
h2{font-size:1.1rem;margin:20px 0 8px}\n\
pre{margin:0;font:14px/1.5 ui-monospace,monospace;white-space:pre-wrap;overflow-wrap:anywhere}\n\
.report{padding:12px;border:1px solid #777;background:#f6f6f6}\n\
figure{margin:0}\n\
figcaption{margin:8px 0;max-width:72ch}\n\
details{margin:8px 0}\n\
label{margin-right:12px}\n\
.scroll{overflow-x:auto;border:1px solid #777;direction:rtl}\n\
table{border-collapse:collapse}\n\
th,td{border:1px solid #777;padding:2px 8px;text-align:left;vertical-align:top}\n\
tr.failing{background:#fde4e1;outline:2px solid #b3261e}\n\
tr.cause{background:#fff1d6}\n";

const PICTURE_STYLE: &[u8] = b"svg{display:block;margin:0 auto;direction:ltr}\n\
#fit:checked~.scroll svg{width:100%;height:auto}\n\
#double:checked~.scroll svg{width:200%;height:auto}\n\
#fourfold:checked~.scroll svg{width:400%;height:auto}\n\
:target{outline:3px solid #0b57d0}\n\
a:target .hit{stroke:#0b57d0;stroke-width:3}\n\
.hit{fill:#fff;fill-opacity:0}\n\
.gap{fill:#fff;stroke:#777;stroke-dasharray:4 4}\n\
text{font:11px ui-monospace,monospace;fill:#111}\n\
.cpu{font-size:13px;font-weight:bold}\n\
.step{text-anchor:middle;paint-order:stroke;stroke:#fff;stroke-width:3px}\n\
.step.failing{font-weight:bold;font-size:14px}\n\
.lane{fill:#fff}\n\
.lane.odd{fill:#f1f1f1}\n\
.bar{fill:#d5e3f0;stroke:#34506b}\n\
.bar.failing{fill:url(#hatch);stroke:#b3261e;stroke-width:3}\n\
.bar.cause{fill:url(#dots);stroke:#8a5300;stroke-width:2;stroke-dasharray:5 2}\n\
.name{paint-order:stroke;stroke:#fff;stroke-width:3px;font-weight:bold}\n\
.end{text-anchor:end}\n\
.order{fill:none;stroke:#111;stroke-width:1.5;stroke-linejoin:round}\n\
.mark{fill:#111;stroke:#fff}\n\
.mark.failing{fill:#b3261e;stroke:#111;stroke-width:2}\n\
.strip{fill:#e4e4e4;stroke:#777}\n\
.shown{fill:#fff;stroke:#111;stroke-width:2}\n\
.tick.failing{fill:#b3261e}\n\
.tick.cause{fill:#8a5300}\n\
.key{padding:0 4px;border:2px solid #b3261e;background:repeating-linear-gradient(45deg,#b3261e 0 2px,#fde4e1 2px 6px)}\n\
.key.cause{border:2px dashed #8a5300;background:radial-gradient(#8a5300 1px,#fff1d6 1.5px) 0 0/6px 6px}\n\
.key.failing,.key.cause{text-shadow:0 0 3px #fff,0 0 3px #fff,0 0 3px #fff}\n";
