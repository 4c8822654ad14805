//! The frames of the picture, of what is folded away, and of the report.

ghost use Rattle.std.specs.Prelude.{◌≡◌};
ghost use Rattle.explain_page.specs.Own.{frame_text};

/// A part of the frame.
#[derive(Clone, Copy)]
pub(crate) enum Frame {
    NoPicture,
    /// The beginning of the picture, up to its width.
    Figure,
    /// Up to the words of the picture's title.
    FigureTitle,
    /// What a screen reader says of the picture, and the fillings of the bars that stand out.
    Patterns,
    /// What the shapes mean.
    Legend,
    /// What is folded away, up to its title, from there to its text, and its end.
    Fold,
    FoldTitled,
    FoldEnd,
    Report,
    End,
}

impl Frame {
    pub(crate) fn text(self) -> &'static [u8]
        ensures { result.now ≡ frame_text self }
    {
        match self {
            Frame::NoPicture => NO_PICTURE,
            Frame::Figure => FIGURE,
            Frame::FigureTitle => b"\">\n<title id=\"picture-title\">",
            Frame::Patterns => PATTERNS,
            Frame::Legend => LEGEND,
            Frame::Fold => b"<details>\n<summary>",
            Frame::FoldTitled => b"</summary>\n<pre>",
            Frame::FoldEnd => b"</pre>\n</details>\n",
            Frame::Report => b"<h2 id=\"report\">Report</h2>\n<pre class=\"report\">",
            Frame::End => b"</pre>\n</main>\n</body>\n</html>\n",
        }
    }
}

const NO_PICTURE: &[u8] = b"<p>There is no diagram: one of the texts has a malformed line.</p>\n";

const FIGURE: &[u8] =
    b"<figure>\n<input type=\"radio\" name=\"zoom\" id=\"natural\" checked><label for=\"natural\">natural size</label>\n\
<input type=\"radio\" name=\"zoom\" id=\"fit\"><label for=\"fit\">as wide as the page</label>\n\
<input type=\"radio\" name=\"zoom\" id=\"double\"><label for=\"double\">twice that</label>\n\
<input type=\"radio\" name=\"zoom\" id=\"fourfold\"><label for=\"fourfold\">four times</label>\n\
<div class=\"scroll\" tabindex=\"0\">\n<svg xmlns=\"http://www.w3.org/2000/svg\" role=\"img\" \
aria-labelledby=\"picture-title picture-text\"";

const PATTERNS: &[u8] =
    b"</title>\n<desc id=\"picture-text\">A lane for each CPU, with a bar for each call and a numbered mark for each step. \
The table below the diagram has the same steps with their calls.</desc>\n\
<defs>\n<pattern id=\"hatch\" width=\"6\" height=\"6\" patternUnits=\"userSpaceOnUse\" patternTransform=\"rotate(45)\">\
<rect width=\"6\" height=\"6\" fill=\"#fde4e1\"/><rect width=\"2\" height=\"6\" fill=\"#b3261e\"/></pattern>\n\
<pattern id=\"dots\" width=\"6\" height=\"6\" patternUnits=\"userSpaceOnUse\">\
<rect width=\"6\" height=\"6\" fill=\"#fff1d6\"/><circle cx=\"3\" cy=\"3\" r=\"1.2\" fill=\"#8a5300\"/></pattern>\n</defs>\n";

const LEGEND: &[u8] =
    b"</svg>\n</div>\n<figcaption>A lane for each CPU. Each call is a bar from its call to its return. \
The marks are the steps in the claimed order, joined by a line: a step takes effect within its call's bar. \
<span class=\"key failing\">Hatched</span> is the call that fails, <span class=\"key cause\">dotted</span> the one that caused it. \
A strip above the lanes, where there is one, is the whole history; \
where the cause is far off, its surroundings are drawn first, and a dashed gap stands for the lines between. \
A bar leads to its row of the table, and a row to its bar.</figcaption>\n</figure>\n";
