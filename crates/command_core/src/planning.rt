//! What a CPU does next for its command, told by the cells that it holds.

ghost use Rattle.std.specs.Prelude.{◌≡◌, ◌<◌, false};
ghost use Rattle.rmm_spec.specs.Call.{call_of, class_of};
ghost use Rattle.rmm_spec.specs.Locks.{needs};
ghost use Rattle.command_core.specs.Seen.{cell_in, place_of};
ghost use Rattle.command_core.specs.Settled.{is_settled};
ghost use Rattle.command_core.specs.Plan.{IsPlanned, IsStep, is_ready};
ghost use Rattle.command_core.specs.Next as spec;
ghost use Rattle.command_core.specs.Pairs.{pair_cells};
ghost use Rattle.command_core.specs.Walks as walks;
ghost use Rattle.rmm_spec.specs.Rows.{all_allowed};
ghost use Rattle.rmm_spec.specs.Step.Terms as terms;
ghost use Rattle.rmi_view.specs.Callers.{class_from};
ghost use Rattle.command_words.specs.Names.{names_of};
ghost use Rattle.command_words.specs.Ways.{way_seen};

use crate::held_pairs::HeldPairs;
use crate::held_sight::HeldSight;
use crate::next::Next;
use crate::settling::is_settled;
use crate::taking::{is_downward, is_held, is_upward, least_missing};
use crate::ways::{keeps_realm, way_given};
use command_words::{Caller, Name, Terms, Way, needed, one, terms_of, two};
use granule_cells::{Cell, CpuPlace};
use memory_map::{Config, Pa};
use realm_desc::Rec;
use rmm_spec::{Call, Command, Tag};

// The granule is taken where that may be; else the last that was taken is freed. Where nothing is held, none can be freed.
fn taken(next: Pa, may_take: bool, held: &HeldPairs) -> Next
    ensures { result ≡ spec.taken next may_take (spec.last_taken (pair_cells held.now)) }
{
    if may_take {
        return Next::Take(next);
    }
    match held.held().last() {
        Some(last) => Next::Free(*last, None),
        None => Next::Take(next),
    }
}

fn take_named(config: &Config, names: &[Name], held: &HeldPairs, next: u64) -> Next
    ensures { result ≡ spec.take_named config.now names.now (pair_cells held.now) next }
{
    let may_take = is_upward(config, names, held, next);
    taken(Pa::new(next), may_take, held)
}

// The least that is named and missing is taken. Where none is, another stands for it, which can't be taken then.
fn take_least(sight: &HeldSight<'_>, keeps: bool, names: &[Name], other: u64) -> Next
    ensures { result ≡ spec.take_least sight.now.config.now keeps names.now (pair_cells sight.now.held.now) other }
{
    let next = least_missing(sight, keeps, names).unwrap_or(other);
    take_named(sight.config, names, sight.held, next)
}

fn take_part(
    config: &Config,
    names: &[Name],
    held: &HeldPairs,
    above: Pa,
    index: usize,
    next: Pa,
) -> Next
    requires { index < 512 }
    ensures { result ≡ spec.take_part config.now names.now (pair_cells held.now) above index next }
{
    let may_take = is_downward(config, names, held, above, index, next);
    taken(next, may_take, held)
}

// The part that a walk wants is taken. Where there is none, the realm stands for it, which can't be taken then.
fn take_wanted(sight: &HeldSight<'_>, call: &Call, way: &Way, names: &[Name]) -> Next
    ensures { result ≡ spec.take_wanted sight.now.config.now names.now (pair_cells sight.now.held.now) way.now.rd
        (walks.wanted sight.now.config.now call.now (pair_cells sight.now.held.now) (way_seen way.now)) }
{
    match sight.wanted(call, way) {
        None => taken(Pa::new(way.rd), false, sight.held),
        Some(part) => take_part(
            sight.config,
            names,
            sight.held,
            Pa::new(part.above),
            part.index as usize,
            Pa::new(part.next),
        ),
    }
}

// What the plan frees goes before what the walk wants.
fn free_or_take(sight: &HeldSight<'_>, call: &Call, way: &Way, names: &[Name], keeps: bool) -> Next
    ensures { result ≡ spec.free_or_take sight.now.config.now names.now (pair_cells sight.now.held.now) way.now.rd
        (walks.spare sight.now.config.now keeps (pair_cells sight.now.held.now) (way_seen way.now))
        (walks.wanted sight.now.config.now call.now (pair_cells sight.now.held.now) (way_seen way.now)) }
{
    match sight.spare(keeps, way) {
        Some(granule) => Next::Free(Pa::new(granule), None),
        None => take_wanted(sight, call, way, names),
    }
}

// A realm, and then its root.
#[tactic(auto, unfolding(realm_desc::specs::View::realm_record))]
fn take_root(config: &Config, names: &[Name], held: &HeldPairs, rd: Pa) -> Next
    ensures { result ≡ spec.take_root config.now names.now (pair_cells held.now) rd (cell_in rd (pair_cells held.now)) }
{
    match held.cell(rd) {
        Some(Cell::Rd(descriptor)) => take_part(
            config,
            names,
            held,
            rd,
            0,
            descriptor.realm().root,
        ),
        _ => take_named(config, names, held, rd.address()),
    }
}

// Which of the REC's two others comes next.
#[tactic(auto, unfolding(realm_desc::specs::View::rec_record))]
fn next_aux(rec: &Rec, held: &HeldPairs) -> Pa
    ensures { result ≡ spec.next_aux rec.now (pair_cells held.now) }
{
    if is_held(held, rec.aux0) {
        rec.aux1
    } else {
        rec.aux0
    }
}

// A REC, and then its two others.
fn take_auxes(config: &Config, names: &[Name], held: &HeldPairs, rec: Pa) -> Next
    ensures { result ≡ spec.take_auxes config.now names.now (pair_cells held.now) rec (cell_in rec (pair_cells held.now)) }
{
    match held.cell(rec) {
        Some(Cell::Rec(it)) => {
            let next = next_aux(it, held);
            take_part(config, names, held, rec, 0, next)
        }
        _ => take_named(config, names, held, rec.address()),
    }
}

// An Enter takes its REC, and frees it as it learns the realm.
#[tactic(auto, unfolding(rmm_spec::specs::Step::Terms::named, realm_desc::specs::View::rec_record))]
fn learn_realm(config: &Config, held: &HeldPairs, rec: Pa) -> Next
    ensures { result ≡ spec.learn_realm config.now (pair_cells held.now) rec (cell_in rec (pair_cells held.now)) }
{
    let names = one(needed(rec.address(), Tag::Rec));
    match held.cell(rec) {
        Some(Cell::Rec(it)) => Next::Free(rec, Some(it.owner)),
        _ => take_named(config, names.as_slice(), held, rec.address()),
    }
}

// With a realm learnt it takes the two by address, and begins anew where the REC is another realm's by now.
#[tactic(auto, unfolding(rmm_spec::specs::Step::Terms::named, realm_desc::specs::View::rec_record))]
fn take_realm(sight: &HeldSight<'_>, rec: Pa, rd: Pa) -> Next
    ensures { result ≡ spec.take_realm sight.now.config.now (pair_cells sight.now.held.now) rec rd (cell_in rec (pair_cells sight.now.held.now)) }
{
    let names = two(
        needed(rd.address(), Tag::Rd),
        needed(rec.address(), Tag::Rec),
    );
    match sight.held.cell(rec) {
        Some(Cell::Rec(it)) => {
            let may_take = rd == it.owner
                && is_upward(sight.config, names.as_slice(), sight.held, rd.address());
            taken(rd, may_take, sight.held)
        }
        _ => take_least(sight, true, names.as_slice(), rec.address()),
    }
}

fn next_to_enter(sight: &HeldSight<'_>, rec: Pa, learnt: Option<Pa>) -> Next
    ensures { result
        ≡ spec.next_to_enter sight.now.config.now rec (cell_in rec (pair_cells sight.now.held.now)) (pair_cells sight.now.held.now) learnt }
{
    match learnt {
        None => learn_realm(sight.config, sight.held, rec),
        Some(rd) => take_realm(sight, rec, rd),
    }
}

fn first_named(names: &[Name]) -> u64
    ensures { result ≡ spec.first_named names.now }
{
    match names.first() {
        Some(name) => name.granule,
        None => 0,
    }
}

// A command that walks no table takes what it names, and then its parts.
#[tactic(auto, unfolding(crate::specs::Next::next_with_parts))]
fn next_with_parts(sight: &HeldSight<'_>, call: &Call, names: &[Name], learnt: Option<Pa>) -> Next
    requires { names.now ≡ terms.named call.now }
    ensures { result ≡ spec.next_with_parts sight.now.config.now call.now learnt (pair_cells sight.now.held.now) }
{
    match *call {
        Call::RealmDestroy { rd } => take_root(sight.config, names, sight.held, Pa::new(rd)),
        Call::RecDestroy { rec } => take_auxes(sight.config, names, sight.held, Pa::new(rec)),
        Call::RecEnter { rec } => next_to_enter(sight, Pa::new(rec), learnt),
        _ => take_least(sight, true, names, first_named(names)),
    }
}

// A walk begins once all that is named is told.
fn next_to_walk(sight: &HeldSight<'_>, call: &Call, names: &[Name], way: &Way) -> Next
    requires { names.now ≡ terms.named call.now }
    ensures { result ≡ spec.next_to_walk sight.now.config.now call.now (pair_cells sight.now.held.now) (way_seen way.now) }
{
    let keeps = keeps_realm(call);
    if sight.are_told(call) {
        free_or_take(sight, call, way, names, keeps)
    } else {
        take_least(sight, keeps, names, first_named(names))
    }
}

fn next_outside(sight: &HeldSight<'_>, call: &Call, said: &Terms, learnt: Option<Pa>) -> Next
    requires allowed { said.now.allowed ≡ all_allowed (terms.words_of call.now) }
    requires names { names_of said.now.names ≡ terms.named call.now }
    ensures { result ≡ spec.next_outside sight.now.config.now call.now learnt (pair_cells sight.now.held.now) }
{
    let names = said.names.as_slice();
    match way_given(call, said.allowed) {
        None => next_with_parts(sight, call, names, learnt),
        Some(way) => next_to_walk(sight, call, names, &way),
    }
}

// A realm's call takes the REC and its realm, and then the tables that it walks.
fn next_to_read(sight: &HeldSight<'_>, call: &Call, rec: Pa, rd: Pa, names: &[Name]) -> Next
    requires { names.now ≡ spec.place_names rec rd }
    ensures { result ≡ spec.next_to_read sight.now.config.now call.now rec rd (pair_cells sight.now.held.now)
        (walks.way_inside call.now rec rd (pair_cells sight.now.held.now)) }
{
    match sight.way_inside(call, rec, rd) {
        None => take_least(sight, true, names, rec.address()),
        Some(way) => free_or_take(sight, call, &way, names, true),
    }
}

// An exit takes the REC alone.
fn next_inside(sight: &HeldSight<'_>, call: &Call, caller: Caller, rec: Pa, rd: Pa) -> Next
    requires { class_from caller ≡ class_of call.now }
    ensures { result ≡ spec.next_inside (class_of call.now) sight.now.config.now call.now rec rd (pair_cells sight.now.held.now) }
{
    let names = two(
        needed(rec.address(), Tag::Rec),
        needed(rd.address(), Tag::Rd),
    );
    let names = names.as_slice();
    match caller {
        Caller::Host => take_least(sight, true, names, rec.address()),
        Caller::Realm => next_to_read(sight, call, rec, rd, names),
        Caller::Rec => take_named(sight.config, names, sight.held, rec.address()),
    }
}

#[tactic(auto, unfolding(crate::specs::Next::next))]
fn next_for(sight: &HeldSight<'_>, call: &Call, place: &CpuPlace, learnt: Option<Pa>) -> Next
    ensures { result ≡ spec.next sight.now.config.now call.now (place_of place.now) learnt (pair_cells sight.now.held.now) }
{
    let said = terms_of(call);
    if is_settled(sight.config, call, &said, place, sight.held) {
        return Next::Ready;
    }
    match *place {
        CpuPlace::Outside => next_outside(sight, call, &said, learnt),
        CpuPlace::Inside { rec, rd } => next_inside(sight, call, said.caller, rec, rd),
    }
}

/// What a CPU at this place does next for a command's call, whatever it holds. What it has learnt is what the last free of this call
/// learnt, and nothing before the first.
pub fn next_step<'a>(
    config: &'a Config,
    call: &Call,
    place: &CpuPlace,
    learnt: Option<Pa>,
    held: &'a HeldPairs,
) -> Next
    ensures exact { result ≡ spec.next config.now call.now (place_of place.now) learnt (pair_cells held.now) }
    ensures settled { is_settled config.now call.now (place_of place.now) (pair_cells held.now) ≡ is_ready result }
    ensures step { is_ready result ≡ false
        → IsStep config.now call.now (place_of place.now) (needs (place_of place.now) learnt call.now) (pair_cells held.now) result }
{
    let sight = HeldSight {
        config,
        held,
        side: None,
    };
    next_for(&sight, call, place, learnt)
}

/// The same for a command, whose call is read off it.
pub fn next_lock(
    config: &Config,
    command: &Command,
    place: &CpuPlace,
    learnt: Option<Pa>,
    held: &HeldPairs,
) -> Next
    ensures exact { result ≡ spec.next config.now (call_of command.now) (place_of place.now) learnt (pair_cells held.now) }
    ensures settled { is_settled config.now (call_of command.now) (place_of place.now) (pair_cells held.now) ≡ is_ready result }
    ensures planned { IsPlanned config.now command.now (place_of place.now) learnt (pair_cells held.now) result }
{
    next_step(config, &command.call(), place, learnt, held)
}
