//! Addresses with their names.

ghost use Rattle.std.specs.Prelude.{◌≡◌, ℕ, ◌<◌, ◌≤◌, [], length, slice_get, Some, Err, OnOk, OnErr};
ghost use Rattle.merging.specs.SeenEvents.{moment_seen};
ghost use Rattle.rmi_view.specs.Seen.{reply_seen};
ghost use Rattle.merging.specs.Names.{added, addresses_among, addresses_of, called, names_from, number_in};
ghost use Rattle.merging.specs.declared.names.NameFault.TheVariants.{TooMany};
ghost use Rattle.merging.specs.Renamed.{moment_addresses, reply_addresses};
ghost use Rattle.rmm_spec.specs.declared.version.Version.TheVariants.{Large};
ghost use Rattle.rmm_spec.specs.HistoryText.{granule_limit};

use crate::MomentRef;
use crate::roles::{Role, answer_roles, command_roles, role_at};
use memory_map::MOST_GRANULES;
use rmi_view::ReplyRef;
use rmm_spec::FunctionId;
use std::alloc::{AllocError, Global};
use std::collections::HashMap;
use std::marker::Model;

/// How many names there are at most.
pub const MOST_NAMES: usize = MOST_GRANULES as usize;

/// Why an address got no name.
#[derive(Clone, Copy)]
pub enum NameFault {
    /// There are as many names as there may be.
    TooMany,
    NoMemory,
}

impl From<AllocError> for NameFault {
    ghost use Rattle.std.specs.Prelude.{◌≡◌};
    ghost use Rattle.merging.specs.declared.names.NameFault.TheVariants.{NoMemory};

    ghost from_gives = { λ _ e. e ≡ NoMemory };

    fn from(_error: AllocError) -> NameFault {
        NameFault::NoMemory
    }
}

/// Which words are granules' addresses, and how many get a name.
#[derive(Clone, Copy)]
pub struct Limits {
    /// Where the monitor's memory ends: a granule's address is below it.
    pub memory: u64,
    pub most: usize,
}

/// Addresses in the order of their first appearances.
#[derive(Drop)]
pub struct Names {
    addresses: Vec<u64>,
    numbers: HashMap<u64, u64>,
}

impl Model for Names {
    ghost use Rattle.std.specs.Prelude.{◌≡◌, ℕ, ◌≤◌, List, length, nat_eq};
    ghost use Rattle.std.specs.HashMap.{get};
    ghost use Rattle.merging.specs.Names.{number_in};
    ghost use Rattle.rmm_spec.specs.declared.version.Version.TheVariants.{Large};
    ghost use Rattle.rmm_spec.specs.HistoryText.{granule_limit};

    ghost Value = { List ℕ };

    ghost view = { λ names. names.addresses.items };

    ghost invariant = { λ names. ((address : ℕ) → get nat_eq names.numbers address ≡ number_in names.addresses.items address)
        × (length names.addresses.items ≤ granule_limit Large) };
}

impl Names {
    /// No address yet.
    pub fn new(alloc: Global) -> Names
        ensures { result ≡ [] }
    {
        Names {
            addresses: Vec::new(alloc),
            numbers: HashMap::new(alloc),
        }
    }

    /// How many addresses have a name.
    pub fn len(&self) -> usize
        ensures len { result ≡ length self.now }
        ensures most { result ≤ MOST_NAMES }
    {
        self.addresses.len()
    }

    /// The address of a number.
    pub fn address(&self, number: usize) -> u64
        requires { number < length self.now }
        ensures { slice_get self.now number ≡ Some result }
    {
        self.addresses[number]
    }

    /// The law that numbers are small.
    #[tactic(auto, using(crate::proofs::NameLaws::small_number))]
    fn few(&self)
        ensures { (address n : ℕ) → number_in self.now address ≡ Some n → n < granule_limit Large }
    {
        let _fact = &self.addresses;
    }

    /// The number of an address.
    fn number(&self, address: u64) -> Option<u64>
        ensures { result ≡ number_in self.now address }
    {
        self.numbers.get(&address).copied()
    }

    /// Gives an address a name where it has none, and a name more isn't one too many. Else nothing changes.
    fn take(&mut self, address: u64, most: usize) -> Result<(), NameFault>
        requires { most ≤ MOST_NAMES }
        ensures ok { OnOk result (self.new ≡ added self.old address) }
        ensures most { OnOk result (length self.old ≤ most → length self.new ≤ most) }
        ensures err { OnErr result (self.new ≡ self.old) }
        ensures too_many { result ≡ Err TooMany → most < length (added self.old address) }
    {
        if self.number(address).is_some() {
            return Ok(());
        }
        if most <= self.addresses.len() {
            return Err(NameFault::TooMany);
        }
        enter(&mut self.addresses, &mut self.numbers, address)?;
        Ok(())
    }

    /// Gives each address of a moment a name, on a CPU whose last call was of that function. A fault may leave some without one.
    pub fn take_moment(
        &mut self,
        limits: Limits,
        last: Option<FunctionId>,
        moment: MomentRef<'_>,
    ) -> Result<(), NameFault>
        requires { limits.most ≤ MOST_NAMES }
        ensures ok { OnOk result (self.new ≡ names_from self.old (moment_addresses limits.memory last (moment_seen moment.entry))) }
        ensures few { OnOk result (length self.old ≤ limits.most → length self.new ≤ limits.most) }
        ensures too_many { result ≡ Err TooMany
            → limits.most < length (names_from self.old (moment_addresses limits.memory last (moment_seen moment.entry))) }
    {
        match moment {
            MomentRef::Call(command) => self.take_words(
                limits,
                command_roles(command.function),
                command.words,
            ),
            MomentRef::Commit(reply) | MomentRef::Return(reply) => self.take_reply(
                limits, last, reply,
            ),
        }
    }

    /// The same for a reply.
    fn take_reply(
        &mut self,
        limits: Limits,
        last: Option<FunctionId>,
        reply: ReplyRef<'_>,
    ) -> Result<(), NameFault>
        requires { limits.most ≤ MOST_NAMES }
        ensures ok { OnOk result (self.new ≡ names_from self.old (reply_addresses limits.memory last (reply_seen reply.entry))) }
        ensures few { OnOk result (length self.old ≤ limits.most → length self.new ≤ limits.most) }
        ensures too_many { result ≡ Err TooMany
            → limits.most < length (names_from self.old (reply_addresses limits.memory last (reply_seen reply.entry))) }
    {
        match reply {
            ReplyRef::Ok(words) => self.take_words(limits, answer_roles(last, words), words),
            ReplyRef::Err(_, _) => Ok(()),
            ReplyRef::Misplaced => Ok(()),
        }
    }

    /// The same for words with these roles.
    fn take_words(&mut self, limits: Limits, roles: &[Role], words: &[u64]) -> Result<(), NameFault>
        requires { limits.most ≤ MOST_NAMES }
        ensures ok { OnOk result (self.new ≡ names_from self.old (addresses_among limits.memory roles.now 0 words.now)) }
        ensures few { OnOk result (length self.old ≤ limits.most → length self.new ≤ limits.most) }
        ensures too_many { result ≡ Err TooMany
            → limits.most < length (names_from self.old (addresses_among limits.memory roles.now 0 words.now)) }
    {
        for place in 0..words.len() {
            self.take_word(limits, role_at(roles, place), words[place])?;
        }
        Ok(())
    }

    /// The same for a word.
    fn take_word(&mut self, limits: Limits, role: Role, word: u64) -> Result<(), NameFault>
        requires { limits.most ≤ MOST_NAMES }
        ensures ok { OnOk result (self.new ≡ names_from self.old (addresses_of limits.memory role word)) }
        ensures few { OnOk result (length self.old ≤ limits.most → length self.new ≤ limits.most) }
        ensures too_many { result ≡ Err TooMany → limits.most < length (names_from self.old (addresses_of limits.memory role word)) }
    {
        if !is_address(limits.memory, role, word) {
            return Ok(());
        }
        self.take(word, limits.most)
    }

    /// What a word is called, on a machine of so many granules.
    pub(crate) fn called(&self, granules: u64, role: Role, word: u64) -> u64
        requires { granules ≤ MOST_NAMES }
        ensures { result ≡ called self.now granules role word }
    {
        let _fact = self.few();
        match role {
            Role::Granule => match self.number(word) {
                Some(number) => 4096 * number,
                None => 4096 * granules,
            },
            Role::Page => match self.number(word) {
                Some(number) => 4096 * number,
                None => word,
            },
            Role::Other => word,
        }
    }
}

ghost use Rattle.merging.specs.Names as spec;
ghost use Rattle.std.specs.Prelude.{◌++◌, ◌∷◌, ◌==◌, if◌then◌else◌, nat_eq};
ghost use Rattle.std.specs.HashMap.{get};

// Puts an address behind all others, with its number. Where memory is refused, nothing changes.
fn enter(
    addresses: &mut Vec<u64>,
    numbers: &mut HashMap<u64, u64>,
    address: u64,
) -> Result<(), AllocError>
    ensures ok { OnOk result (addresses.new.items ≡ addresses.old.items ++ address ∷ []) }
    ensures numbers { OnOk result ((other : ℕ) → get nat_eq numbers.new other
        ≡ (if address == other then Some (length addresses.old.items) else get nat_eq numbers.old other)) }
    ensures kept { OnErr result (addresses.new.items ≡ addresses.old.items) }
    ensures numbers_kept { OnErr result ((other : ℕ) → get nat_eq numbers.new other ≡ get nat_eq numbers.old other) }
{
    addresses.reserve(1)?;
    put_number(numbers, address, addresses.len() as u64)?;
    addresses.push_reserved(address);
    Ok(())
}

// Puts an address with its number. Where memory is refused, nothing changes.
fn put_number(numbers: &mut HashMap<u64, u64>, address: u64, number: u64) -> Result<(), AllocError>
    ensures ok { OnOk result ((other : ℕ) → get nat_eq numbers.new other
        ≡ (if address == other then Some number else get nat_eq numbers.old other)) }
    ensures kept { OnErr result ((other : ℕ) → get nat_eq numbers.new other ≡ get nat_eq numbers.old other) }
{
    match numbers.insert(address, number) {
        Ok(_) => Ok(()),
        Err(_) => Err(AllocError),
    }
}

// Whether a word is one that gets a name.
fn is_address(memory: u64, role: Role, word: u64) -> bool
    ensures { result ≡ spec.is_address memory role word }
{
    match role {
        Role::Granule | Role::Page => word.is_multiple_of(4096) && word < memory,
        Role::Other => false,
    }
}
