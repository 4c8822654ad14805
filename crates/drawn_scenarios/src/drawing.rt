//! A command that is drawn for a machine of which each granule's tag is known.

ghost use Rattle.std.specs.Prelude.{◌<◌, length};

use crate::dice::Dice;
use crate::sharing::Sharing;
use crate::words::{drawn_place, drawn_word};
use arrayvec::ArrayVec;
use command_words::{Name, named};
use memory_map::GRANULE_BYTES;
use reasons::OwnerRow;
use rmm_spec::{Call, Command, FunctionId, Tag};

/// How often a granule is drawn before one with another tag does.
const GRANULE_DRAWS: u32 = 16;

/// How often a function is drawn before one is taken that seldom comes.
const FUNCTION_DRAWS: u32 = 64;

/// How often the most frequent functions come.
const MOST_OFTEN: u64 = 15;

/// Words of which each is its own place.
const PLACES: [u64; 10] = [0, 1, 2, 3, 4, 5, 6, 7, 8, 9];

/// A machine's granules, from which a CPU draws.
#[derive(Clone, Copy)]
pub struct Granules<'a> {
    pub rows: &'a [OwnerRow],
    pub cpu: u8,
    pub sharing: Sharing,
}

impl Granules<'_> {
    ghost use Rattle.std.specs.Prelude.{◌<◌, length};

    /// The address of a granule, most often one with this tag.
    pub(crate) fn draw(self, dice: &mut Dice, tag: Tag) -> u64 {
        let mut address = self.any_address(dice);
        if self.rows.is_empty() || dice.one_in(32) {
            return address;
        }
        for _draw in 0..GRANULE_DRAWS {
            let row = &self.rows[self.place(dice)];
            address = row.granule.address();
            if row.tag == tag {
                break;
            }
        }
        address
    }

    // An address that is drawn without a look at the machine: often no granule's, and no other CPU's where none are shared.
    fn any_address(self, dice: &mut Dice) -> u64 {
        let half = GRANULE_BYTES / 2;
        let place = dice.below(self.sharing.halves());
        if self.sharing.is_apart() {
            return place.wrapping_mul(GRANULE_BYTES).wrapping_add(half);
        }
        place.wrapping_mul(half)
    }

    // Most often one of the CPU's own.
    fn place(self, dice: &mut Dice) -> usize
        requires { 0 < length self.rows.now }
        ensures { result < length self.entry.rows.now }
    {
        let count = self.rows.len() as u64;
        let place = if self.sharing.is_strayed(dice) {
            dice.below(count)
        } else {
            self.sharing.own_place(self.cpu, dice) % count
        };
        place as usize
    }

    // A realm's VMID.
    pub(crate) fn vmid(self, dice: &mut Dice) -> u64 {
        let number = dice.below(32);
        if self.sharing.is_apart() {
            return u64::from(self.cpu) * 32 + number;
        }
        number
    }
}

/// One of the functions. Those that make something come more often than those that end it.
pub(crate) fn drawn_function(dice: &mut Dice) -> FunctionId {
    let functions = FunctionId::all();
    for _draw in 0..FUNCTION_DRAWS {
        let function = functions[dice.below(functions.len() as u64) as usize];
        if dice.below(MOST_OFTEN) < often(function) {
            return function;
        }
    }
    FunctionId::Exit
}

// How often a function is drawn, of so many times that it could be.
fn often(function: FunctionId) -> u64 {
    match function {
        FunctionId::RttCreate | FunctionId::GranuleDelegate => 15,
        FunctionId::RecCreate | FunctionId::RecEnter => 12,
        FunctionId::DataCreate | FunctionId::DataCreateUnknown => 6,
        FunctionId::Exit => 5,
        FunctionId::RttMapUnprotected | FunctionId::RttInitRipas | FunctionId::RttSetRipas => 4,
        FunctionId::IpaStateSet | FunctionId::HostCall => 3,
        FunctionId::GranuleUndelegate
        | FunctionId::RealmDestroy
        | FunctionId::RecDestroy
        | FunctionId::RttUnmapUnprotected
        | FunctionId::CpuOff
        | FunctionId::SystemOff => 1,
        _ => 2,
    }
}

/// The function with words that are likely to fit it. The last of its names stands for all words that are left.
pub(crate) fn drawn_command(
    function: FunctionId,
    granules: Granules<'_>,
    dice: &mut Dice,
) -> Command {
    let mut words = drawn_words(function, granules, dice);
    for _word in words.len()..function.row().words {
        let _ = words.try_push(dice.word());
    }
    Command { function, words }
}

// A word for each name: a granule with the tag that is needed there, or another by the name.
fn drawn_words(function: FunctionId, granules: Granules<'_>, dice: &mut Dice) -> ArrayVec<u64, 10> {
    let needed = named(&Call::of(function, &PLACES));
    let place = drawn_place(function, dice);
    let mut words = ArrayVec::new();
    for name in function.row().names.split(' ').skip(1) {
        let word = match tag_at(needed.as_slice(), words.len() as u64) {
            Some(tag) => granules.draw(dice, tag),
            None => drawn_word(name, place, granules, dice),
        };
        let _ = words.try_push(word);
    }
    words
}

// The tag that the word at a place needs, where each word is its own place.
fn tag_at(names: &[Name], place: u64) -> Option<Tag> {
    for name in names {
        if name.granule == place {
            return Some(name.tag);
        }
    }
    None
}
