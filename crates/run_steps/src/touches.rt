//! Which granules a step is about.

ghost use Rattle.std.specs.Prelude.{◌≡◌};
ghost use Rattle.rmm_spec.specs.Call.{call_of};
ghost use Rattle.run_steps.specs.Touched.{answer_touches, names, touches, touches_by, touches_realm, touches_rec, touches_tag};

use command_words::named;
use rmm_spec::{Accepted, Call, Change, RealmChange, RecChange, Refusal, StretchUse, TagChange};

/// Whether what a command is answered touches the granule.
pub(crate) fn answer_touches(answer: &Result<Accepted, Refusal>, granule: u64) -> bool
    ensures { result ≡ answer_touches answer.now granule }
{
    match answer {
        Ok(Accepted::Done { change, .. }) => touches(change, granule),
        Ok(Accepted::Reaches(stretch)) => touches_by(stretch.purpose, stretch.rd, granule),
        Err(_) => false,
    }
}

/// Whether a command names the granule.
pub(crate) fn names(call: &Call, granule: u64) -> bool
    ensures { result ≡ names call.now granule }
{
    let named = named(call);
    named.as_slice().iter().any(|name| granule == name.granule)
}

fn touches(change: &Change, granule: u64) -> bool
    ensures { result ≡ touches change.now granule }
{
    match *change {
        Change::Unchanged => false,
        Change::Retagged(changed) => granule == changed.granule,
        Change::RealmMade { rd, root, .. } => granule == rd || granule == root,
        Change::RealmDestroyed { rd, root } => granule == rd || granule == root,
        Change::RecMade {
            rd,
            rec,
            aux0,
            aux1,
            ..
        } => granule == rd || granule == rec || granule == aux0 || granule == aux1,
        Change::RecDestroyed { rec, aux0, aux1 } => {
            granule == rec || granule == aux0 || granule == aux1
        }
        Change::RecordsChanged { realm, rec } => {
            touches_realm(realm, granule) || touches_rec(rec, granule)
        }
        Change::TableMade { rtt, .. } | Change::TableDestroyed { rtt, .. } => granule == rtt,
        Change::EntriesChanged {
            page,
            realm,
            rec,
            ..
        } => {
            touches_tag(page, granule) || touches_realm(realm, granule) || touches_rec(rec, granule)
        }
    }
}

// A stretch is measured into its realm, or moves the request of its REC.
fn touches_by(purpose: StretchUse, rd: u64, granule: u64) -> bool
    ensures { result ≡ touches_by purpose rd granule }
{
    match purpose {
        StretchUse::Init => granule == rd,
        StretchUse::Requested { rec, .. } => granule == rec,
    }
}

fn touches_realm(change: Option<RealmChange>, granule: u64) -> bool
    ensures { result ≡ touches_realm change granule }
{
    match change {
        Some(change) => granule == change.rd,
        None => false,
    }
}

fn touches_rec(change: Option<RecChange>, granule: u64) -> bool
    ensures { result ≡ touches_rec change granule }
{
    match change {
        Some(change) => granule == change.rec,
        None => false,
    }
}

fn touches_tag(change: Option<TagChange>, granule: u64) -> bool
    ensures { result ≡ touches_tag change granule }
{
    match change {
        Some(change) => granule == change.granule,
        None => false,
    }
}
