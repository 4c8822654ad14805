//! Calls of different realms, or on different granules, which may as well come the other way round.

ghost use Rattle.std.specs.Prelude.{◌≡◌, ◌==◌, ◌||◌, ℕ, true, false, IsTrue, IfSome, Some};
ghost use Rattle.rmm_spec.specs.declared.reply.Reply.{Reply};
ghost use Rattle.rmm_spec.specs.Locks.{is_named};
ghost use Rattle.rmm_spec.specs.Step.Terms.{named};
ghost use Rattle.rmi_view.specs.Seen.{reply_seen};
ghost use Rattle.verdict_laws.specs.Making as making;
ghost use Rattle.verdict_laws.specs.Separate as spec;
ghost use Rattle.finding.specs.MayPass.{MayPass};
ghost use Rattle.finding.specs.Next.{IsWorkOf};

use crate::apart::{lent, names, names_any};
use crate::next_call::NextCall;
use rmi_view::ReplyRef;
use rmm_spec::Call;
use slicing::freed;

/// Whether two calls make something, work on a realm's tables or lend a granule, of different realms if of any, and with no granule of both.
pub(crate) fn are_separate(one: &NextCall<'_>, two: &NextCall<'_>) -> bool
    ensures { IsTrue result → MayPass one.now two.now }
{
    if !is_of_kind(&one.call) {
        return false;
    }
    if !is_of_kind(&two.call) {
        return false;
    }
    if !differ(own_realm(&one.call), own_realm(&two.call)) {
        return false;
    }
    if !differ(taken_vmid(&one.call), taken_vmid(&two.call)) {
        return false;
    }
    let Some(first) = work_of(one) else {
        return false;
    };
    let Some(second) = work_of(two) else {
        return false;
    };
    are_of_other_granules(&first, &second)
}

/// A call with its reply, or with any where it doesn't return and gives nothing back.
#[derive(Clone, Copy)]
pub(crate) struct Work<'a> {
    call: Call,
    reply: ReplyRef<'a>,
}

/// A call where it is known what it gives back.
pub(crate) fn work_of<'a>(next: &NextCall<'a>) -> Option<Work<'a>>
    ensures { IfSome result (IsWorkOf next.now) }
{
    match next.reply {
        Some(reply) => Some(Work {
            call: next.call,
            reply,
        }),
        None if gives_back(&next.call) => None,
        None => Some(Work {
            call: next.call,
            reply: ReplyRef::Misplaced,
        }),
    }
}

/// Whether a call's reply tells what it gives back.
#[tactic(auto, unfolding(verdict_laws::specs::Separate::is_freed))]
fn gives_back(call: &Call) -> bool
    ensures { result ≡ false → (given : Reply) (g : ℕ) → spec.is_freed call.now given g ≡ false }
{
    matches!(call, Call::DataDestroy { .. } | Call::RttRemove { .. })
}

/// The realm whose tables a call works on.
#[tactic(auto, unfolding(verdict_laws::specs::Separate::table_realm))]
fn table_realm(call: &Call) -> Option<u64>
    ensures { result ≡ spec.table_realm call.now }
{
    match call {
        Call::DataCreate { rd, .. }
        | Call::DataCreateUnknown { rd, .. }
        | Call::DataDestroy { rd, .. }
        | Call::RealmActivate { rd }
        | Call::RttCreate { rd, .. }
        | Call::RttRemove { rd, .. }
        | Call::RttMapUnprotected { rd, .. }
        | Call::RttReadEntry { rd, .. }
        | Call::RttUnmapUnprotected { rd, .. }
        | Call::RttInitRipas { rd, .. } => Some(*rd),
        _ => None,
    }
}

/// Whether a call works on a realm's tables, or lends a granule or takes it back.
fn is_local(call: &Call) -> bool
    ensures { result ≡ spec.is_local call.now }
{
    table_realm(call).is_some() || lent(call).is_some()
}

/// Whether a call makes a realm or a REC, works on a realm's tables, or lends a granule or takes it back.
pub(crate) fn is_of_kind(call: &Call) -> bool
    ensures { result ≡ (making.is_making call.now || spec.is_local call.now) }
{
    is_making(call) || is_local(call)
}

#[tactic(auto, unfolding(verdict_laws::specs::Making::is_making))]
fn is_making(call: &Call) -> bool
    ensures { result ≡ making.is_making call.now }
{
    matches!(call, Call::RealmCreate { .. } | Call::RecCreate { .. })
}

/// The realm that a call makes, or for which it makes a REC.
#[tactic(auto, unfolding(verdict_laws::specs::Making::made_realm))]
fn made_realm(call: &Call) -> Option<u64>
    ensures { result ≡ making.made_realm call.now }
{
    match call {
        Call::RealmCreate { rd, .. } | Call::RecCreate { rd, .. } => Some(*rd),
        _ => None,
    }
}

/// That realm, or the realm on whose tables a call works.
fn own_realm(call: &Call) -> Option<u64>
    ensures { result ≡ making.own_realm call.now }
{
    match made_realm(call) {
        Some(rd) => Some(rd),
        None => table_realm(call),
    }
}

/// The VMID that a call takes for a realm, where it does.
#[tactic(auto, unfolding(verdict_laws::specs::Making::taken_vmid))]
pub(crate) fn taken_vmid(call: &Call) -> Option<u64>
    ensures { result ≡ making.taken_vmid call.now }
{
    match call {
        Call::RealmCreate { vmid, .. } => Some(*vmid),
        _ => None,
    }
}

/// Whether two numbers differ, where there are two.
fn differ(one: Option<u64>, two: Option<u64>) -> bool
    ensures { IsTrue result → (number other : ℕ) → one ≡ Some number → two ≡ Some other → ¬ (number ≡ other) }
{
    match (one, two) {
        (Some(number), Some(other)) => number != other,
        _ => true,
    }
}

/// Whether a call names a granule or gives it back.
pub(crate) fn works_on(work: &Work<'_>, granule: u64) -> bool
    ensures { result ≡ spec.works_on work.now.call (reply_seen work.now.reply) granule }
{
    names(&work.call, granule) || freed(&work.call, work.reply) == Some(granule)
}

/// Whether the first names the granule that the second gives back, if it does.
fn names_freed(one: &Work<'_>, two: &Work<'_>) -> bool
    ensures { result ≡ false → (g : ℕ) → spec.is_freed two.now.call (reply_seen two.now.reply) g ≡ true → is_named (named one.now.call) g ≡ false }
{
    match freed(&two.call, two.reply) {
        Some(granule) => names(&one.call, granule),
        None => false,
    }
}

/// Whether the second works on the granule that the first gives back, if it does.
fn works_on_freed(one: &Work<'_>, two: &Work<'_>) -> bool
    ensures { result ≡ false → (g : ℕ) → spec.is_freed one.now.call (reply_seen one.now.reply) g ≡ true
        → spec.works_on two.now.call (reply_seen two.now.reply) g ≡ false }
{
    match freed(&one.call, one.reply) {
        Some(granule) => works_on(two, granule),
        None => false,
    }
}

/// Whether the second works on no granule that the first works on.
fn are_of_other_granules(one: &Work<'_>, two: &Work<'_>) -> bool
    ensures { IsTrue result → (g : ℕ) → spec.works_on one.now.call (reply_seen one.now.reply) g ≡ true
        → spec.works_on two.now.call (reply_seen two.now.reply) g ≡ false }
{
    if names_any(&one.call, &two.call) {
        return false;
    }
    if names_freed(one, two) {
        return false;
    }
    !works_on_freed(one, two)
}
