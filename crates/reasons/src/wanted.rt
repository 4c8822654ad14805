//! What is wanted next of a line.

ghost use Rattle.std.specs.Prelude.{◌≡◌, ◌↔◌, [], ◌∷◌, Some, false, IsTrue, IfSome, MatchOption};
ghost use Rattle.rmm_spec.specs.declared.version.Version.{Version};
ghost use Rattle.rmm_spec.specs.HistoryText.{mark};
ghost use Rattle.rmm_spec.specs.Text.{parts_of};
ghost use Rattle.reasons.specs.Wanted.{IsNumber, IsWord, Leads, MayEnd, behind_number};
ghost use Rattle.reasons.specs.declared.wanted.Wanted.TheVariants as wanted;

use memory_map::granule_limit;
use rmi_codec::{Parts, decimal_from, next_word, words_of};
use rmm_spec::Version;

/// What a line says by its letter.
#[derive(Clone, Copy)]
pub enum Role {
    Call,
    Return,
    Keep,
    Unfinished,
}

/// What a line's next part has to be.
#[derive(Clone, Copy)]
pub enum Wanted {
    /// The name of the format.
    Format,
    /// How many granules a machine of the version has.
    Granules { version: Version },
    /// How many CPUs there are.
    Cpus,
    /// An event's letter, on a machine of so many CPUs.
    EventLetter { cpus: u8 },
    /// The letter of a certificate's line.
    LineLetter,
    /// One of so many CPUs.
    Cpu { cpus: u8, role: Role },
    /// The number of a call.
    Number { role: Role },
    /// A function's number.
    Function,
    /// A word of a command, of which so many are left.
    Words { left: usize },
    /// The form of a reply.
    Form,
    /// A word of a reply, of which there may be so many more.
    MoreWords { left: usize },
    /// The status of a refusal.
    Status,
    /// The index of a refusal.
    Index,
    /// The line's end.
    End,
}

impl Wanted {
    /// What is wanted behind a part, where it can stand here.
    pub(crate) fn after(self, part: &[u8]) -> Option<Wanted>
        requires plain { parts_of part.now ≡ part.now ∷ [] }
        ensures found { IfSome result (Leads self part.now) }
        ensures only { (next : Wanted) → Leads self part.now next → result ≡ Some next }
    {
        match self {
            Wanted::Format => format(part),
            Wanted::Granules { version } => when(
                is_number(part, 1, granule_limit(version) + 1),
                Wanted::Cpus,
            ),
            Wanted::Cpus => when(is_number(part, 1, 9), Wanted::End),
            Wanted::EventLetter { cpus } => event_letter(cpus, part),
            Wanted::LineLetter => line_letter(part),
            Wanted::Cpu { cpus, role } => when(
                is_number(part, 0, u64::from(cpus)),
                Wanted::Number { role },
            ),
            Wanted::Number { role } => when(is_number(part, 0, 1_000_000), role.behind_number()),
            Wanted::Function => function(part),
            Wanted::Words { left } => {
                let shorter = left.checked_sub(1)?;
                when(is_word(part), Wanted::Words { left: shorter })
            }
            Wanted::Form => form(part),
            Wanted::MoreWords { left } => {
                let shorter = left.checked_sub(1)?;
                when(is_word(part), Wanted::MoreWords { left: shorter })
            }
            Wanted::Status => when(is_number(part, 0, 256), Wanted::Index),
            Wanted::Index => when(is_number(part, 0, 256), Wanted::End),
            Wanted::End => None,
        }
    }

    /// Whether the line may end here.
    pub(crate) fn may_end(self) -> bool
        ensures { IsTrue result ↔ MayEnd self }
    {
        match self {
            Wanted::Words { left } => left == 0,
            Wanted::MoreWords { .. } | Wanted::End => true,
            _ => false,
        }
    }
}

impl Role {
    // What follows the number of the call.
    fn behind_number(self) -> Wanted
        ensures { result ≡ behind_number self }
    {
        match self {
            Role::Call => Wanted::Function,
            Role::Return | Role::Unfinished => Wanted::Form,
            Role::Keep => Wanted::End,
        }
    }
}

// What is wanted next, where a test holds.
fn when(holds: bool, next: Wanted) -> Option<Wanted>
    ensures { MatchOption result (holds ≡ false) (λ found. IsTrue holds × (found ≡ next)) }
{
    if holds { Some(next) } else { None }
}

// What is wanted behind the name of a version's format.
fn format(part: &[u8]) -> Option<Wanted>
    ensures found { IfSome result (Leads wanted.Format part.now) }
    ensures only { (next : Wanted) → Leads wanted.Format part.now next → result ≡ Some next }
{
    match version_of(part) {
        Some(version) => Some(Wanted::Granules { version }),
        None => None,
    }
}

// The version whose format has the name.
fn version_of(part: &[u8]) -> Option<Version>
    ensures found { IfSome result (λ version. part.now ≡ mark version) }
    ensures only { (version : Version) → part.now ≡ mark version → result ≡ Some version }
{
    match part {
        b"rmh1" => Some(Version::One),
        b"rmh2" => Some(Version::Two),
        b"rml1" => Some(Version::Large),
        _ => None,
    }
}

// Whether a part is a decimal from the least number to below the limit.
fn is_number(part: &[u8], least: u64, limit: u64) -> bool
    ensures { IsTrue result ↔ IsNumber least limit part.now }
{
    match decimal_from(part) {
        Some(number) => least <= number && number < limit,
        None => false,
    }
}

// Whether a part is a word.
fn is_word(part: &[u8]) -> bool
    requires plain { parts_of part.now ≡ part.now ∷ [] }
    ensures { IsTrue result ↔ IsWord part.now }
{
    let mut parts = Parts::of(part);
    next_word(&mut parts).is_some()
}

fn event_letter(cpus: u8, part: &[u8]) -> Option<Wanted>
    ensures found { IfSome result (Leads (wanted.EventLetter cpus) part.now) }
    ensures only { (next : Wanted) → Leads (wanted.EventLetter cpus) part.now next → result ≡ Some next }
{
    if cpus == 0 {
        return None;
    }
    if part == b"c".as_slice() {
        return Some(Wanted::Cpu {
            cpus,
            role: Role::Call,
        });
    }
    let role = Role::Return;
    when(part == b"r".as_slice(), Wanted::Cpu { cpus, role })
}

fn line_letter(part: &[u8]) -> Option<Wanted>
    ensures found { IfSome result (Leads wanted.LineLetter part.now) }
    ensures only { (next : Wanted) → Leads wanted.LineLetter part.now next → result ≡ Some next }
{
    if part == b"k".as_slice() {
        return Some(Wanted::Cpu {
            cpus: 8,
            role: Role::Keep,
        });
    }
    let role = Role::Unfinished;
    when(part == b"u".as_slice(), Wanted::Cpu { cpus: 8, role })
}

fn function(part: &[u8]) -> Option<Wanted>
    requires plain { parts_of part.now ≡ part.now ∷ [] }
    ensures found { IfSome result (Leads wanted.Function part.now) }
    ensures only { (next : Wanted) → Leads wanted.Function part.now next → result ≡ Some next }
{
    let function = Parts::of(part).next_function()?;
    let left = words_of(function);
    Some(Wanted::Words { left })
}

fn form(part: &[u8]) -> Option<Wanted>
    ensures found { IfSome result (Leads wanted.Form part.now) }
    ensures only { (next : Wanted) → Leads wanted.Form part.now next → result ≡ Some next }
{
    if part == b"ok".as_slice() {
        return Some(Wanted::MoreWords { left: 10 });
    }
    if part == b"err".as_slice() {
        return Some(Wanted::Status);
    }
    when(part == b"misplaced".as_slice(), Wanted::End)
}
