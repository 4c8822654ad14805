//! A text that would be markup, and markup beside it.

use explain_page::{Markup, Page};
use std::process::Abort;
use std::test::Fail;

enum Paragraph {
    Start,
    Titled,
    End,
}

impl Markup for Paragraph {
    ghost use Rattle.std.specs.Prelude.{codes};
    ghost use Rattle.part_tests.specs.declared.pages.Paragraph.TheVariants.{Start, Titled, End};

    ghost text = { elim [ Start ↦ codes "<p title=\"" | Titled ↦ codes "\">" | End ↦ codes "</p>" ] };

    fn text(self) -> &'static [u8] {
        match self {
            Paragraph::Start => b"<p title=\"",
            Paragraph::Titled => b"\">",
            Paragraph::End => b"</p>",
        }
    }
}

fn write_paragraph(page: &mut Page<Paragraph>) -> Result<(), Fail> {
    page.say(Paragraph::Start)?;
    page.text(b"a \"b\" & 'c'")?;
    page.say(Paragraph::Titled)?;
    page.text("</p><script>1 < 2 \u{e9}".as_bytes())?;
    page.number(1_000_000)?;
    page.say(Paragraph::End)?;
    Ok(())
}

#[test]
fn text_that_would_be_markup(rt: HostRuntime) -> Result<(), Fail> {
    let mut page = Page::new(rt.alloc());
    write_paragraph(&mut page)?;
    let expected =
        "<p title=\"a &quot;b&quot; &amp; &#39;c&#39;\">&lt;/p&gt;&lt;script&gt;1 &lt; 2 \u{e9}1000000</p>";
    assert!(rt; page.as_bytes() == expected.as_bytes());
    Ok(())
}
