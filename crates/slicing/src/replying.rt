//! What calls may be replied in any state.

ghost use Rattle.std.specs.Prelude.{◌≡◌, ℕ, Bool, false, IfNone, IfSome};
ghost use Rattle.rmi_view.specs.Seen.{reply_seen};
ghost use Rattle.verdict_laws.specs.Replying as laws;

use crate::plan::GRANULE;
use command_words::{is_page, words_allow};
use rmi_view::ReplyRef;
use rmm_spec::Call;

/// The addresses of the smallest realm's protected half: each realm has addresses of 39 bits at least.
pub(crate) const SMALLEST_HALF: u64 = 1 << 38;

/// Whether a call that is given may be replied so: where its own words aren't allowed it is refused for them.
pub(crate) fn may_answer(call: &Call, reply: ReplyRef<'_>) -> bool
    ensures { result ≡ laws.may_answer call.now (reply_seen reply.entry) }
{
    match reply {
        ReplyRef::Ok(words) => words_allow(call) && gives(call, words),
        ReplyRef::Err(status, index) => {
            let is_allowed = words_allow(call);
            status == 1 && index == 0 && (has_input_row(call) || !is_allowed)
                || is_allowed && refuses_with(call, status, index)
        }
        ReplyRef::Misplaced => false,
    }
}

/// Whether a call that is carried out may be replied these words.
#[tactic(auto, unfolding(verdict_laws::specs::Replying::gives))]
fn gives(call: &Call, words: &[u64]) -> bool
    ensures { result ≡ laws.gives call.now words.now }
{
    match call {
        Call::DataDestroy { .. } | Call::RecEnter { .. } | Call::RttRemove { .. } =>
            match only_word(words) {
                Some(word) => is_page(word),
                None => false,
            },
        Call::RttInitRipas { base, top, .. } | Call::RttSetRipas { base, top, .. } => {
            match only_word(words) {
                Some(end) => may_end(*base, *top, end),
                None => false,
            }
        }
        Call::MeasurementRead { .. } => words.len() == 4 || words.len() == 8,
        Call::RttReadEntry { level, .. } => reports_entry(*level, words),
        Call::RealmConfig => words.len() == 2,
        Call::IpaStateGet { .. } => match only_word(words) {
            Some(word) => is_ripas(word),
            None => false,
        },
        Call::Exit => words.len() == 4,
        _ => words.is_empty(),
    }
}

/// The word, where there is just one.
fn only_word(words: &[u64]) -> Option<u64>
    ensures some { IfSome result (λ word. (passes : ℕ → Bool) → laws.is_one passes words.now ≡ passes word) }
    ensures none { IfNone result ((passes : ℕ → Bool) → laws.is_one passes words.now ≡ false) }
{
    match words {
        [word] => Some(*word),
        _ => None,
    }
}

/// Whether it is a RIPAS' number.
fn is_ripas(number: u64) -> bool
    ensures { result ≡ laws.is_ripas number }
{
    number <= 2
}

/// Whether the words report an entry of the level or one above it: its level, its state, its address and its RIPAS.
fn reports_entry(level: u64, words: &[u64]) -> bool
    ensures { result ≡ laws.reports_entry level words.now }
{
    words.len() == 4 && words[0] <= level && words[1] <= 2 && is_ripas(words[3])
}

/// Whether a stretch from base to top, of which some pages at its beginning are set, may end there.
fn may_end(base: u64, top: u64, end: u64) -> bool
    ensures { result ≡ laws.may_end base top end }
{
    base < end && end <= top && (end - base).is_multiple_of(GRANULE)
}

/// Whether rows on what it finds may refuse the call with the status and the index.
fn refuses_with(call: &Call, status: u8, index: u8) -> bool
    ensures { result ≡ laws.refuses_with call.now status index }
{
    match status {
        2 => index < realm_indices(call),
        3 => index == 0 && has_rec_row(call),
        4 => has_row_at_level(call, index),
        _ => false,
    }
}

/// Whether rows on what it finds may refuse the call as they do its own words.
#[tactic(auto, unfolding(verdict_laws::specs::Replying::has_input_row))]
fn has_input_row(call: &Call) -> bool
    ensures { result ≡ laws.has_input_row call.now }
{
    match call {
        Call::IpaStateSet { top, .. } => *top > SMALLEST_HALF,
        Call::IpaStateGet { ipa } => *ipa >= SMALLEST_HALF,
        Call::MeasurementRead { .. }
        | Call::MeasurementExtend { .. }
        | Call::RealmConfig
        | Call::HostCall { .. }
        | Call::CpuOff
        | Call::SystemOff
        | Call::Exit => false,
        _ => true,
    }
}

/// With how many indices, from 0 on, rows on the realm refuse the call.
#[tactic(auto, unfolding(verdict_laws::specs::Replying::realm_indices))]
fn realm_indices(call: &Call) -> u8
    ensures { result ≡ laws.realm_indices call.now }
{
    match call {
        Call::DataCreate { .. }
        | Call::RealmActivate { .. }
        | Call::RealmDestroy { .. }
        | Call::RecCreate { .. }
        | Call::RttInitRipas { .. } => 1,
        Call::RecEnter { .. } => 2,
        _ => 0,
    }
}

/// Whether a row on a REC may refuse it.
#[tactic(auto, unfolding(verdict_laws::specs::Replying::has_rec_row))]
fn has_rec_row(call: &Call) -> bool
    ensures { result ≡ laws.has_rec_row call.now }
{
    matches!(
        call,
        Call::RecDestroy { .. } | Call::RecEnter { .. } | Call::RttSetRipas { .. }
    )
}

/// Whether there are pages from base up to top.
fn is_stretch(base: u64, top: u64) -> bool
    ensures { result ≡ laws.is_stretch base top }
{
    is_page(base) && is_page(top) && base < top
}

/// Whether a row on a table may, with the level.
#[tactic(auto, unfolding(verdict_laws::specs::Replying::has_row_at_level))]
fn has_row_at_level(call: &Call, index: u8) -> bool
    ensures { result ≡ laws.has_row_at_level call.now index }
{
    match call {
        Call::DataCreate { .. }
        | Call::DataCreateUnknown { .. }
        | Call::DataDestroy { .. }
        | Call::RttMapUnprotected { .. }
        | Call::RttUnmapUnprotected { .. }
        | Call::RttInitRipas { .. } => index <= 3,
        Call::RttSetRipas { base, top, .. } => {
            index <= if is_stretch(*base, *top) { 2 } else { 3 }
        }
        Call::RttCreate { level, .. } => u64::from(index) <= level.saturating_sub(1),
        Call::RttRemove { level, .. } => u64::from(index) <= *level,
        _ => false,
    }
}
