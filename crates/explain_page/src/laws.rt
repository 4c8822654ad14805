//! Laws of escaped texts and of pages.

ghost use Rattle.std.specs.Prelude.{◌≡◌, List, true};
ghost use Rattle.std.specs.List.{filter, list_all};
ghost use Rattle.explain_page.specs.Escaped.{escaped, is_plain, marks_up};
ghost use Rattle.explain_page.specs.Pieces.{Piece, is_own, texts};

use crate::growing::Markup;

/// Law: an escaped text has no angle bracket and no quote.
pub fn escaped_plain(bytes: &[u8])
    ensures { list_all is_plain (escaped bytes.now) ≡ true }
{
    let _fact = bytes;
}

/// Law: the angle brackets and quotes of a page are those of its own pieces, in their order.
pub fn own_pieces_mark_up<M: Markup>()
    ensures { (pieces : List (Piece M)) → filter marks_up (texts M.text pieces) ≡ filter marks_up (texts M.text (filter is_own pieces)) }
{}
