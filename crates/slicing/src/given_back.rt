//! What a call gives back or leaves unused, as its words and its reply say.

ghost use Rattle.std.specs.Prelude.{◌≡◌, ℕ, ◌==◌, Bool, false, IfNone, IfSome};
ghost use Rattle.rmi_view.specs.Seen.{reply_seen};
ghost use Rattle.verdict_laws.specs.Separate as separate;
ghost use Rattle.verdict_laws.specs.Slices as spec;

use rmi_view::ReplyRef;
use rmm_spec::Call;

/// The granule that a call gives back without naming it, as its reply tells, where it does.
#[tactic(auto, unfolding(verdict_laws::specs::Separate::is_freed))]
pub fn freed(call: &Call, reply: ReplyRef<'_>) -> Option<u64>
    ensures some { IfSome result (λ granule. (g : ℕ) → separate.is_freed call.now (reply_seen reply.entry) g ≡ (granule == g)) }
    ensures none { IfNone result ((g : ℕ) → separate.is_freed call.now (reply_seen reply.entry) g ≡ false) }
{
    match call {
        Call::DataDestroy { .. } | Call::RttRemove { .. } => told_granule(reply),
        _ => None,
    }
}

/// The granule of which a reply tells.
fn told_granule(reply: ReplyRef<'_>) -> Option<u64>
    ensures some { IfSome result (λ granule. (g : ℕ) → separate.tells_granule (reply_seen reply.entry) g ≡ (granule == g)) }
    ensures none { IfNone result ((g : ℕ) → separate.tells_granule (reply_seen reply.entry) g ≡ false) }
{
    match reply {
        ReplyRef::Ok([]) => Some(0),
        ReplyRef::Ok(words) => Some(words[0]),
        ReplyRef::Err(_, _) | ReplyRef::Misplaced => None,
    }
}

/// Whether the call, carried out with that reply, leaves the granule unused, and lent to the realm world or not.
#[tactic(auto, unfolding(verdict_laws::specs::Slices::leaves_unused))]
pub(crate) fn leaves_unused(call: &Call, reply: ReplyRef<'_>, granule: u64, lent: bool) -> bool
    ensures { result ≡ spec.leaves_unused call.now (reply_seen reply.entry) granule lent }
{
    match call {
        Call::GranuleDelegate { granule: other } => *other == granule && lent,
        Call::GranuleUndelegate { granule: other } => *other == granule && !lent,
        Call::RealmDestroy { rd } => *rd == granule && lent,
        Call::RecDestroy { rec } => *rec == granule && lent,
        other => freed(other, reply) == Some(granule) && lent,
    }
}

/// Whether the one call makes the realm or the REC that the other ends, with the granule as a part.
#[tactic(auto, unfolding(verdict_laws::specs::Slices::makes_part))]
pub(crate) fn makes_part(call: &Call, ending: &Call, granule: u64) -> bool
    ensures { result ≡ spec.makes_part call.now ending.now granule }
{
    match (call, ending) {
        (Call::RealmCreate { rd, root, .. }, Call::RealmDestroy { rd: other }) => {
            rd == other && *root == granule
        }
        (
            Call::RecCreate {
                rec,
                aux0,
                aux1,
                ..
            },
            Call::RecDestroy { rec: other },
        ) => rec == other && (*aux0 == granule || *aux1 == granule),
        _ => false,
    }
}

/// Whether the one call makes or ends what the other ends.
#[tactic(auto, unfolding(verdict_laws::specs::Slices::is_of_ended))]
pub(crate) fn is_of_ended(call: &Call, ending: &Call) -> bool
    ensures { result ≡ spec.is_of_ended call.now ending.now }
{
    match (call, ending) {
        (
            Call::RealmCreate { rd, .. } | Call::RealmDestroy { rd },
            Call::RealmDestroy { rd: other },
        ) => rd == other,
        (Call::RecCreate { rec, .. } | Call::RecDestroy { rec }, Call::RecDestroy { rec: other }) =>
            rec == other,
        _ => false,
    }
}
