//! What facts give together of RECs: that what is asked for has the pages of a call, that a REC's realm was activated, that no row on the REC
//! refuses a call, and of which RIPAS an address of its realm is.

ghost use Rattle.std.specs.Prelude.{◌≡◌};
ghost use Rattle.std.specs.List.{list_any};
ghost use Rattle.rmi_view.specs.Seen.{reply_seen};
ghost use Rattle.verdict_laws.specs.Denying as laws;

use crate::making::is_one_entry;
use crate::making_recs::is_told;
use command_words::is_page;
use rmi_view::ReplyRef;
use rmm_spec::Call;
use verdict_laws::Fact;

/// Whether the facts say that the REC asks for the pages, and there are some, unless it runs.
fn give_pages(facts: &[Fact], rec: u64, base: u64, top: u64) -> bool
    ensures { result ≡ laws.give_pages facts.now rec base top }
{
    base < top && is_page(top) && give_base(facts, rec, base) && give_top(facts, rec, top)
}

/// Whether one of the facts says that what the REC asks for begins at the address, unless it runs.
fn give_base(facts: &[Fact], rec: u64, base: u64) -> bool
    ensures { result ≡ list_any (laws.gives_base rec base) facts.now }
{
    facts.iter().any(|fact| gives_base(*fact, rec, base))
}

fn gives_base(fact: Fact, rec: u64, base: u64) -> bool
    ensures { result ≡ laws.gives_base rec base fact }
{
    match fact {
        Fact::AsksFrom {
            rec: other,
            base: its_base,
        } => rec == other && base == its_base,
        Fact::RunsOrAsksWithin {
            rec: other,
            least,
            most,
        } => rec == other && base == least && base == most,
        _ => false,
    }
}

/// Whether one of the facts says that what it asks for ends at the address or later, unless it runs.
fn give_top(facts: &[Fact], rec: u64, top: u64) -> bool
    ensures { result ≡ list_any (laws.gives_top rec top) facts.now }
{
    facts.iter().any(|fact| gives_top(*fact, rec, top))
}

fn gives_top(fact: Fact, rec: u64, top: u64) -> bool
    ensures { result ≡ laws.gives_top rec top fact }
{
    match fact {
        Fact::RunsOrAsksTo {
            rec: other,
            top: its_top,
            ..
        } => rec == other && top <= its_top,
        _ => false,
    }
}

/// Whether the call enters a REC whose realm was activated, as the facts say.
#[tactic(auto, unfolding(verdict_laws::specs::Denying::enters_run))]
pub(crate) fn enters_run(facts: &[Fact], call: &Call) -> bool
    ensures { result ≡ laws.enters_run facts.now call.now }
{
    match call {
        Call::RecEnter { rec } => give_owner(facts, *rec),
        _ => false,
    }
}

/// Whether one of the facts says that the REC is a realm's that was activated.
fn give_owner(facts: &[Fact], rec: u64) -> bool
    ensures { result ≡ list_any (laws.gives_owner facts.now rec) facts.now }
{
    facts.iter().any(|fact| gives_owner(facts, rec, *fact))
}

fn gives_owner(facts: &[Fact], rec: u64, fact: Fact) -> bool
    ensures { result ≡ laws.gives_owner facts.now rec fact }
{
    match fact {
        Fact::OwnedBy { rec: other, rd } => rec == other && give_run(facts, rd),
        _ => false,
    }
}

/// Whether one of the facts says that the realm was activated.
fn give_run(facts: &[Fact], rd: u64) -> bool
    ensures { result ≡ list_any (laws.gives_run rd) facts.now }
{
    facts.iter().any(|fact| gives_run(*fact, rd))
}

fn gives_run(fact: Fact, rd: u64) -> bool
    ensures { result ≡ laws.gives_run rd fact }
{
    match fact {
        Fact::Activated { rd: other } => rd == other,
        _ => false,
    }
}

/// Whether the facts say that no row on its REC refuses the call.
#[tactic(auto, unfolding(verdict_laws::specs::Denying::are_ready))]
pub(crate) fn are_ready(facts: &[Fact], call: &Call) -> bool
    ensures { result ≡ laws.are_ready facts.now call.now }
{
    match call {
        Call::RecEnter { rec } => give_idle(facts, *rec) && give_runnable(facts, *rec),
        Call::RecDestroy { rec } => give_idle(facts, *rec),
        Call::RttSetRipas { rd, rec, .. } => give_idle(facts, *rec) && give_realm(facts, *rec, *rd),
        _ => false,
    }
}

/// Whether the facts say that the call's REC runs, so that it is refused for that before what is asked for is looked at, or asks for its pages.
#[tactic(auto, unfolding(verdict_laws::specs::Denying::asks_pages))]
pub(crate) fn asks_pages(facts: &[Fact], call: &Call) -> bool
    ensures { result ≡ laws.asks_pages facts.now call.now }
{
    match call {
        Call::RttSetRipas { rec, base, top, .. } => {
            give_running(facts, *rec) || give_pages(facts, *rec, *base, *top)
        }
        _ => false,
    }
}

/// Whether one of the facts says that the REC runs.
fn give_running(facts: &[Fact], rec: u64) -> bool
    ensures { result ≡ list_any (laws.gives_running rec) facts.now }
{
    facts.iter().any(|fact| gives_running(*fact, rec))
}

fn gives_running(fact: Fact, rec: u64) -> bool
    ensures { result ≡ laws.gives_running rec fact }
{
    match fact {
        Fact::RunsOn { rec: other, .. } => rec == other,
        _ => false,
    }
}

/// Whether one of the facts says that the REC runs on no CPU.
fn give_idle(facts: &[Fact], rec: u64) -> bool
    ensures { result ≡ list_any (laws.gives_idle rec) facts.now }
{
    facts.iter().any(|fact| gives_idle(*fact, rec))
}

fn gives_idle(fact: Fact, rec: u64) -> bool
    ensures { result ≡ laws.gives_idle rec fact }
{
    match fact {
        Fact::Idle { rec: other } | Fact::AsksFrom { rec: other, .. } => rec == other,
        _ => false,
    }
}

/// Whether one of the facts says that the REC can run.
fn give_runnable(facts: &[Fact], rec: u64) -> bool
    ensures { result ≡ list_any (laws.gives_runnable rec) facts.now }
{
    facts.iter().any(|fact| gives_runnable(*fact, rec))
}

fn gives_runnable(fact: Fact, rec: u64) -> bool
    ensures { result ≡ laws.gives_runnable rec fact }
{
    match fact {
        Fact::Runnable { rec: other } => rec == other,
        _ => false,
    }
}

/// Whether one of the facts says that the REC is the realm's.
fn give_realm(facts: &[Fact], rec: u64, rd: u64) -> bool
    ensures { result ≡ list_any (laws.gives_realm rec rd) facts.now }
{
    facts.iter().any(|fact| gives_realm(*fact, rec, rd))
}

fn gives_realm(fact: Fact, rec: u64, rd: u64) -> bool
    ensures { result ≡ laws.gives_realm rec rd fact }
{
    match fact {
        Fact::OwnedBy {
            rec: other,
            rd: its_rd,
        } => rec == other && rd == its_rd,
        _ => false,
    }
}

/// Whether one of the facts says that an address of the REC's realm is of another RIPAS than the one that is replied.
pub(crate) fn give_other_ripas(facts: &[Fact], rec: u64, ipa: u64, reply: ReplyRef<'_>) -> bool
    ensures { result ≡ list_any (laws.gives_other_ripas facts.now rec ipa (reply_seen reply.entry)) facts.now }
{
    facts
        .iter()
        .any(|fact| gives_other_ripas(facts, rec, ipa, reply, *fact))
}

fn gives_other_ripas(facts: &[Fact], rec: u64, ipa: u64, reply: ReplyRef<'_>, fact: Fact) -> bool
    ensures { result ≡ laws.gives_other_ripas facts.now rec ipa (reply_seen reply.entry) fact }
{
    match fact {
        Fact::HasRipas { rd, ipa: at, ripas } => {
            is_one_entry(at, ipa) && !is_told(ripas, reply) && give_realm(facts, rec, rd)
        }
        _ => false,
    }
}
