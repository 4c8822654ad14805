//! What is printed of what was found.

ghost use Rattle.std.specs.Prelude.{◌≡◌, ◌+◌, [], ◌∷◌, ◌++◌, OnOk, codes};
ghost use Rattle.rmm_spec.specs.Text.{decimal};
ghost use Rattle.finding.specs.Told.{found_status, found_text};

use crate::finding::Found;
use std::alloc::AllocError;
use text_writers::{push_decimal, write_certificate};

/// Appends the order, or a line that there is none or that none was found, and of none the line of the return that no order survives. Where memory
/// is refused, a beginning of it may have been appended.
pub fn append_found(found: &Found, text: &mut Vec<u8>) -> Result<(), AllocError>
    ensures { OnOk result (text.new.items ≡ text.old.items ++ found_text found.now) }
{
    match found {
        Found::Order(certificate) => write_certificate(certificate, text),
        Found::None(None) => text.extend_from_slice(b"none\n"),
        Found::None(Some(place)) => append_lost(*place, text),
        Found::GaveUp(_) => text.extend_from_slice(b"gave up\n"),
    }
}

/// Appends the line of a return that no order survives, by its place.
fn append_lost(place: u32, text: &mut Vec<u8>) -> Result<(), AllocError>
    ensures { OnOk result (text.new.items ≡ text.old.items ++ (codes "none\nno order survives line " ++ (decimal (place + 2) ++ 10 ∷ []))) }
{
    text.extend_from_slice(b"none\nno order survives line ")?;
    push_decimal(text, place as u64 + 2)?;
    text.push(b'\n')?;
    Ok(())
}

/// The exit status of a program that prints it.
pub fn status_of(found: &Found) -> u8
    ensures { result ≡ found_status found.now }
{
    match found {
        Found::Order(_) => 0,
        Found::None(_) => 1,
        Found::GaveUp(_) => 4,
    }
}
