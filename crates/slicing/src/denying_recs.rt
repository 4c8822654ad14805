//! Which replies deny what a REC is about.

ghost use Rattle.std.specs.Prelude.{◌≡◌};
ghost use Rattle.rmi_view.specs.Seen.{reply_seen};
ghost use Rattle.verdict_laws.specs.Denying as laws;

use crate::making_recs::is_within;
use rmi_view::ReplyRef;
use rmm_spec::Call;

/// Whether the call is carried out as if the REC asked for something from none of these addresses on.
#[tactic(auto, unfolding(verdict_laws::specs::Denying::asks_outside))]
pub(crate) fn asks_outside(
    call: &Call,
    reply: ReplyRef<'_>,
    rec: u64,
    least: u64,
    most: u64,
) -> bool
    ensures { result ≡ laws.asks_outside call.now (reply_seen reply.entry) rec least most }
{
    match call {
        Call::RecEnter { rec: other } => rec == *other && !is_told_within(least, most, reply),
        Call::RttSetRipas {
            rec: other,
            base: from,
            ..
        } => rec == *other && !is_within(least, most, *from),
        _ => false,
    }
}

/// Whether one of these addresses is all that is replied.
fn is_told_within(least: u64, most: u64, reply: ReplyRef<'_>) -> bool
    ensures { result ≡ laws.is_told_within least most (reply_seen reply.entry) }
{
    match reply {
        ReplyRef::Ok([word]) => is_within(least, most, *word),
        _ => false,
    }
}

/// Whether the call is refused where the REC runs.
#[tactic(auto, unfolding(verdict_laws::specs::Denying::needs_idle))]
pub(crate) fn needs_idle(call: &Call, rec: u64) -> bool
    ensures { result ≡ laws.needs_idle call.now rec }
{
    match call {
        Call::RecEnter { rec: other }
        | Call::RecDestroy { rec: other }
        | Call::RttSetRipas { rec: other, .. } => rec == *other,
        _ => false,
    }
}
