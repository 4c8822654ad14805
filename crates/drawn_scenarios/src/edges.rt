//! Commands with words at the edges of what a word can be, as a host that means harm would send them.

use crate::dice::Dice;
use crate::drawing::{Granules, drawn_command, drawn_function};
use rmm_spec::Command;

/// Nothing, the ends of a page, bits past any address, and the greatest word.
const EDGES: [u64; 7] = [0, 1, 0xfff, 0x1000, 1 << 52, 1 << 63, u64::MAX];

/// Those that are no granule and no VMID.
const LONE_EDGES: [u64; 4] = [0xfff, 1 << 52, 1 << 63, u64::MAX];

/// One of the functions with likely words, of which one or two are edges.
pub fn edged_command(granules: Granules<'_>, dice: &mut Dice) -> Command {
    let function = drawn_function(dice);
    let mut command = drawn_command(function, granules, dice);
    put_edge(&mut command, granules, dice);
    if dice.one_in(2) {
        put_edge(&mut command, granules, dice);
    }
    command
}

// Puts an edge into the place of one of the words, where there are any.
fn put_edge(command: &mut Command, granules: Granules<'_>, dice: &mut Dice) {
    let edge = if granules.sharing.is_apart() {
        LONE_EDGES[dice.below(4) as usize]
    } else {
        EDGES[dice.below(7) as usize]
    };
    let count = command.words.len() as u64;
    if count > 0 {
        command.words[dice.below(count) as usize] = edge;
    }
}
