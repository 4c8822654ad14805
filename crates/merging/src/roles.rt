//! Which words are addresses.

ghost use Rattle.std.specs.Prelude.{◌≡◌};
ghost use Rattle.merging.specs.Roles.{answer_roles, command_roles, entry_roles, reply_roles, role_at};

use rmm_spec::FunctionId;

/// What a word of a command or a reply is.
#[derive(Clone, Copy)]
pub enum Role {
    /// A granule's address. A word that is none is called as one past the last.
    Granule,
    /// A page's address, which needn't be a granule's. A word that is none keeps its value.
    Page,
    /// Any other word, such as an IPA. It keeps its value.
    Other,
}

static NONE: [Role; 0] = [];

static FIRST: [Role; 1] = [Role::Granule];

static FIRST_TWO: [Role; 2] = [Role::Granule, Role::Granule];

static MAPPED: [Role; 3] = [Role::Granule, Role::Other, Role::Page];

static LOADED: [Role; 4] = [Role::Granule, Role::Granule, Role::Other, Role::Granule];

static REC: [Role; 6] = [
    Role::Granule,
    Role::Granule,
    Role::Other,
    Role::Other,
    Role::Granule,
    Role::Granule,
];

static ENTRY: [Role; 3] = [Role::Other, Role::Other, Role::Page];

/// What the first words of a function's command are. Those behind them are other words.
#[tactic(auto, unfolding(crate::specs::Roles::command_roles))]
pub(crate) fn command_roles(function: FunctionId) -> &'static [Role]
    ensures { result.now ≡ command_roles function }
{
    match function {
        FunctionId::DataCreate => LOADED.as_slice(),
        FunctionId::RecCreate => REC.as_slice(),
        FunctionId::RttMapUnprotected => MAPPED.as_slice(),
        FunctionId::DataCreateUnknown
        | FunctionId::RealmCreate
        | FunctionId::RttCreate
        | FunctionId::RttSetRipas => FIRST_TWO.as_slice(),
        FunctionId::GranuleDelegate
        | FunctionId::GranuleUndelegate
        | FunctionId::DataDestroy
        | FunctionId::RealmActivate
        | FunctionId::RealmDestroy
        | FunctionId::RecDestroy
        | FunctionId::RecEnter
        | FunctionId::RttDestroy
        | FunctionId::RttReadEntry
        | FunctionId::RttUnmapUnprotected
        | FunctionId::RttFold
        | FunctionId::RttInitRipas => FIRST.as_slice(),
        _ => NONE.as_slice(),
    }
}

/// What the first words are that a call gave, of that function, if one was made.
pub(crate) fn answer_roles(last: Option<FunctionId>, words: &[u64]) -> &'static [Role]
    ensures { result.now ≡ answer_roles last words.now }
{
    match last {
        Some(function) => reply_roles(function, words),
        None => NONE.as_slice(),
    }
}

// What the first words are that a call of the function gave.
#[tactic(auto, unfolding(crate::specs::Roles::reply_roles))]
fn reply_roles(function: FunctionId, words: &[u64]) -> &'static [Role]
    ensures { result.now ≡ reply_roles function words.now }
{
    match function {
        FunctionId::DataDestroy | FunctionId::RttDestroy | FunctionId::RttFold => FIRST.as_slice(),
        FunctionId::RttReadEntry => entry_roles(words.get(1).copied().unwrap_or(0)),
        _ => NONE.as_slice(),
    }
}

// What the first words are that tell an entry in that state.
fn entry_roles(state: u64) -> &'static [Role]
    ensures { result.now ≡ entry_roles state }
{
    if state == 1 || state == 2 {
        ENTRY.as_slice()
    } else {
        NONE.as_slice()
    }
}

/// What the word at a place is.
pub(crate) fn role_at(roles: &[Role], place: usize) -> Role
    ensures { result ≡ role_at roles.now place }
{
    roles.get(place).copied().unwrap_or(Role::Other)
}
