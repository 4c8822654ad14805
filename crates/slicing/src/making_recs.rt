//! What calls make of facts of RECs, and of the RIPAS that these ask for.

ghost use Rattle.std.specs.Prelude.{◌≡◌};
ghost use Rattle.rmi_view.specs.Seen.{reply_seen};
ghost use Rattle.verdict_laws.specs.Facts as laws;

use crate::making::ends_past;
use rmi_view::ReplyRef;
use rmm_spec::Call;
use verdict_laws::{ExitReason, Fact, Standing};

/// Whether the call makes the fact, where it is carried out and its CPU stands there: a REC leaves, and so it is of it.
#[tactic(auto, unfolding(verdict_laws::specs::Facts::leaves_with))]
pub(crate) fn leaves_with(fact: Fact, call: &Call, standing: Standing) -> bool
    ensures { result ≡ laws.leaves_with fact call.now standing }
{
    match call {
        Call::Exit => match standing {
            Standing::Inside { rec, reason } => is_left_with(fact, rec, reason),
            Standing::Outside => false,
        },
        _ => false,
    }
}

/// Whether the call makes the fact, where it is carried out with that reply and another holds before: the REC asks for that.
pub(crate) fn makes_with(other: Fact, fact: Fact, call: &Call, reply: ReplyRef<'_>) -> bool
    ensures { result ≡ laws.makes_with other fact call.now (reply_seen reply.entry) }
{
    match other {
        Fact::RunsOrAsksTo {
            rec,
            ripas: asked,
            ..
        } => match fact {
            Fact::HasRipas { rd, ipa, ripas } => {
                ripas == asked && sets_ripas(call, reply, rec, rd, ipa)
            }
            _ => false,
        },
        _ => false,
    }
}

/// Whether the call, carried out with that reply, sets the RIPAS that the REC asks for, and the address has an entry there of the last level.
#[tactic(auto, unfolding(verdict_laws::specs::Facts::sets_ripas))]
pub(crate) fn sets_ripas(call: &Call, reply: ReplyRef<'_>, rec: u64, rd: u64, ipa: u64) -> bool
    ensures { result ≡ laws.sets_ripas call.now (reply_seen reply.entry) rec rd ipa }
{
    match call {
        Call::RttSetRipas {
            rd: other,
            rec: its_rec,
            base,
            ..
        } => rec == *its_rec && rd == *other && *base <= ipa && ends_past(*base, ipa, reply),
        _ => false,
    }
}

/// Whether the fact is so of a REC that leaves for the reason.
fn is_left_with(fact: Fact, at: u64, reason: ExitReason) -> bool
    ensures { result ≡ laws.is_left_with fact at reason }
{
    if let Fact::Idle { rec } = fact {
        return rec == at;
    }
    let ExitReason::RipasChange {
        base: from,
        top: its_top,
        ripas: its_ripas,
    } = reason
    else {
        return false;
    };
    match fact {
        Fact::AsksFrom { rec, base } => rec == at && base == from,
        Fact::RunsOrAsksWithin { rec, least, most } => {
            rec == at && least == from && least <= most
        }
        Fact::RunsOrAsksTo { rec, top, ripas } => {
            rec == at && top == its_top && ripas == its_ripas && from < its_top
        }
        _ => false,
    }
}

#[tactic(auto, unfolding(verdict_laws::specs::Facts::makes_owned))]
pub(crate) fn makes_owned(call: &Call, rec: u64, rd: u64) -> bool
    ensures { result ≡ laws.makes_owned call.now rec rd }
{
    match call {
        Call::RecCreate {
            rd: its_rd,
            rec: other,
            ..
        } => rec == *other && rd == *its_rd,
        _ => false,
    }
}

#[tactic(auto, unfolding(verdict_laws::specs::Facts::makes_runnable))]
pub(crate) fn makes_runnable(call: &Call, rec: u64) -> bool
    ensures { result ≡ laws.makes_runnable call.now rec }
{
    match call {
        Call::RecCreate {
            rec: other,
            flags,
            ..
        } => rec == *other && *flags == 1,
        _ => false,
    }
}

#[tactic(auto, unfolding(verdict_laws::specs::Facts::enters))]
pub(crate) fn enters(call: &Call, rec: u64) -> bool
    ensures { result ≡ laws.enters call.now rec }
{
    match call {
        Call::RecEnter { rec: other } => rec == *other,
        _ => false,
    }
}

/// Whether the call makes a REC that asks for nothing, or sets what one asked for up to the address.
#[tactic(auto, unfolding(verdict_laws::specs::Facts::moves_request))]
pub(crate) fn moves_request(call: &Call, reply: ReplyRef<'_>, rec: u64, base: u64) -> bool
    ensures { result ≡ laws.moves_request call.now (reply_seen reply.entry) rec base }
{
    match call {
        Call::RecCreate { rec: other, .. } => rec == *other && base == 0,
        Call::RttSetRipas { rec: other, .. } => rec == *other && is_told(base, reply),
        _ => false,
    }
}

/// Whether an address is one of these.
pub(crate) fn is_within(least: u64, most: u64, address: u64) -> bool
    ensures { result ≡ laws.is_within least most address }
{
    least <= address && address <= most
}

/// Whether the address is all that is replied.
pub(crate) fn is_told(address: u64, reply: ReplyRef<'_>) -> bool
    ensures { result ≡ laws.is_told address (reply_seen reply.entry) }
{
    match reply {
        ReplyRef::Ok([word]) => address == *word,
        _ => false,
    }
}
