//! The table of a picture's steps.

ghost use Rattle.std.specs.Prelude.{◌≡◌};
ghost use Rattle.explain_page.specs.Own.{table_text};

/// A part of the table.
#[derive(Clone, Copy)]
pub(crate) enum Table {
    Start,
    /// The beginning of a row, up to the number by which it is found.
    Row,
    FailingRow,
    CauseRow,
    /// From there to the step's number.
    Number,
    /// Between a step's number and its call.
    Call,
    RowEnd,
    /// The end of a row whose step the report names: up to the number of its line, and from there on.
    InReport,
    InReportEnd,
    End,
}

impl Table {
    pub(crate) fn text(self) -> &'static [u8]
        ensures { result.now ≡ table_text self }
    {
        match self {
            Table::Start => START,
            Table::Row => b"<tr id=\"s",
            Table::FailingRow => b"<tr class=\"failing\" id=\"s",
            Table::CauseRow => b"<tr class=\"cause\" id=\"s",
            Table::Number => b"\"><th scope=\"row\">",
            Table::Call => b"</th><td><pre>",
            Table::RowEnd => b"</pre></td></tr>\n",
            Table::InReport => b"</pre><a href=\"#r",
            Table::InReportEnd => b"\">in the report</a></td></tr>\n",
            Table::End => b"</tbody>\n</table>\n</details>\n",
        }
    }
}

const START: &[u8] = b"<details>\n<summary>The steps of the picture as a table</summary>\n<table>\n\
<thead><tr><th scope=\"col\">Step</th><th scope=\"col\">Call</th></tr></thead>\n<tbody>\n";
