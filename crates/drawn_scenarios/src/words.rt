//! Words that are likely to fit a function, by their names.

ghost use Rattle.std.specs.Prelude.{◌<◌};

use crate::dice::Dice;
use crate::drawing::Granules;
use memory_map::GRANULE_BYTES;
use rmm_spec::FunctionId;

/// What some words of a command say together: an address space, an entry at an address, or a stretch of entries.
#[derive(Clone, Copy)]
pub(crate) struct Place {
    width: u64,
    level: u64,
    ipa: u64,
    top: u64,
}

/// A place for the function's words.
pub(crate) fn drawn_place(function: FunctionId, dice: &mut Dice) -> Place {
    let names = function.row().names;
    if has_name(names, "width") {
        drawn_space(dice)
    } else if has_name(names, "level") {
        drawn_entry(function, dice)
    } else if !has_name(names, "base") {
        of_stretch(drawn_ipa(dice, 12), 0)
    } else if has_name(names, "rd") && !has_name(names, "rec") {
        drawn_stretch(dice)
    } else {
        let base = dice.below(4) * GRANULE_BYTES;
        of_stretch(base, dice.below(7) * GRANULE_BYTES)
    }
}

/// Whether a function walks tables: it has an address, or is a host's with a stretch.
pub(crate) fn walks(function: FunctionId) -> bool {
    let names = function.row().names;
    has_name(names, "ipa") || (has_name(names, "base") && has_name(names, "rd"))
}

// Whether a word of the function has the name.
fn has_name(names: &str, name: &str) -> bool {
    for other in names.split(' ') {
        if other == name {
            return true;
        }
    }
    false
}

fn of_stretch(ipa: u64, top: u64) -> Place {
    Place {
        width: 0,
        level: 3,
        ipa,
        top,
    }
}

fn drawn_space(dice: &mut Dice) -> Place {
    let (width, level) = match dice.below(16) {
        0 => (0x28, 1),
        1 | 2 | 3 | 4 | 5 | 6 => (0x30, 0),
        _ => (0x27, 1),
    };
    Place {
        width,
        level,
        ipa: 0,
        top: 0,
    }
}

// Of a table that is made or destroyed, or of an entry that is read.
fn drawn_entry(function: FunctionId, dice: &mut Dice) -> Place {
    let level = match dice.below(16) {
        0 => dice.below(5),
        1 | 2 => 1,
        3..9 => 2,
        _ => 3,
    };
    let shift = match function {
        FunctionId::RttReadEntry => covered(level + 1),
        _ => covered(level),
    };
    Place {
        width: 0,
        level,
        ipa: drawn_ipa(dice, shift),
        top: 0,
    }
}

// Of a few entries.
fn drawn_stretch(dice: &mut Dice) -> Place {
    let shift = covered(2 + dice.below(3));
    let base = drawn_ipa(dice, shift);
    of_stretch(base, base.wrapping_add(1 + dice.below(4) << shift))
}

// How many bits of an address a table of the level covers.
fn covered(level: u64) -> u64
    ensures { result < 64 }
{
    match level {
        0 => 48,
        1 => 39,
        2 => 30,
        3 => 21,
        _ => 12,
    }
}

// An address among the first of each level, in one half or the other, that is a multiple of two to so many.
fn drawn_ipa(dice: &mut Dice, shift: u64) -> u64
    requires { shift < 64 }
{
    let half = [
        0,
        0,
        0,
        0,
        0,
        0x40_0000_0000,
        0x40_0000_0000,
        0x8000_0000_0000,
    ][dice.below(8) as usize];
    let ipa = half | dice.below(2) << 30 | dice.below(2) << 21 | dice.below(3) << 12;
    ipa >> shift << shift
}

/// A word of that name, which is no granule's address.
pub(crate) fn drawn_word(name: &str, place: Place, granules: Granules<'_>, dice: &mut Dice) -> u64 {
    match name {
        "width" => place.width,
        "level" => place.level,
        "ipa" | "base" => place.ipa,
        "top" => place.top,
        "vmid" => granules.vmid(dice),
        "algo" => dice.below(16) / 15,
        "flags" => dice.below(9) % 4 % 2,
        "ripas" | "mpidr" => dice.below(3),
        "i" => dice.below(6),
        "size" => dice.below(0x42),
        "imm" => dice.below(0x1_1000),
        "pa" => dice.below(64) * GRANULE_BYTES,
        _ => dice.word(),
    }
}
