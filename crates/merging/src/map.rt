//! The map of names, written as a text.

ghost use Rattle.std.specs.Prelude.{◌≡◌, ◌+◌, ◌<◌, ◌++◌, drop, length, IfOk, OnOk, string_bytes};
ghost use Rattle.merging.specs.Map.{map_from, map_line};

use crate::names::Names;
use std::alloc::{AllocError, Global};

/// A line for each address, with its name behind it: both in hex, in the order of first appearances.
pub fn map_text(alloc: Global, names: &Names) -> Result<Vec<u8>, AllocError>
    ensures { IfOk result (λ text. text.items ≡ map_from 0 names.now) }
{
    let mut text = Vec::new(alloc);
    for number in 0..names.len() {
        push_next(alloc, &mut text, names, number)?;
    }
    Ok(text)
}

// Appends the line of the number that is next.
fn push_next(
    alloc: Global,
    text: &mut Vec<u8>,
    names: &Names,
    number: usize,
) -> Result<(), AllocError>
    requires number { number < length names.now }
    requires so_far { text.old.items ++ map_from number (drop number names.now) ≡ map_from 0 names.now }
    ensures { OnOk result (text.new.items ++ map_from (number + 1) (drop (number + 1) names.now) ≡ map_from 0 names.now) }
{
    let _fact = names.len();
    let address = names.address(number);
    push_line(alloc, text, address, 4096 * number as u64)
}

// Appends a line.
fn push_line(alloc: Global, text: &mut Vec<u8>, address: u64, name: u64) -> Result<(), AllocError>
    ensures { OnOk result (text.new.items ≡ text.old.items ++ map_line address name) }
{
    let line = line_of(alloc, address, name)?;
    text.extend_from_slice(line.as_bytes())
}

fn line_of(alloc: Global, address: u64, name: u64) -> Result<String, AllocError>
    ensures { IfOk result (λ line. string_bytes line ≡ map_line address name) }
{
    format!(in alloc; "{address:x} {name:x}\n")
}
