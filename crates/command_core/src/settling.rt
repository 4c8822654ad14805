//! Whether what is held settles a command, so that it takes no further lock.

ghost use Rattle.std.specs.Prelude.{◌≡◌, ◌||◌, option_map, option_copied};
ghost use Rattle.std.specs.List.{list_all};
ghost use Rattle.rmm_spec.specs.Call.{class_of};
ghost use Rattle.rmm_spec.specs.Lookup.{is_granule};
ghost use Rattle.rmm_spec.specs.Rows.{Needed, all_allowed};
ghost use Rattle.command_core.specs.Named as named;
ghost use Rattle.command_core.specs.Pairs.{pair_cells};
ghost use Rattle.command_core.specs.Seen.{cell_of, cell_in, place_of};
ghost use Rattle.command_core.specs.Settled as spec;
ghost use Rattle.command_core.specs.Unshaped.{is_unshaped_outside};
ghost use Rattle.command_core.specs.Walks.{way_taken, way_inside};
ghost use Rattle.rmm_spec.specs.Step.Terms as step_named;
ghost use Rattle.rmi_view.specs.Callers.{class_from};
ghost use Rattle.command_words.specs.Names.{names_of};

use crate::held_pairs::HeldPairs;
use crate::held_sight::HeldSight;
use crate::taking::{has_wrong, holds_all, is_granule, is_held};
use crate::unshaped::{self, is_misfit};
use crate::ways::way_given;
use command_words::{Caller, Name, Terms};
use granule_cells::{Cell, CpuPlace};
use memory_map::{Config, Pa};
use rmm_spec::Call;

// Whether each granule that is named is one.
fn are_granules(config: &Config, names: &[Name]) -> bool
    ensures { result ≡ list_all (λ (n : Needed). is_granule config.now.granules n.granule) names.now }
{
    names.iter().all(|name| is_granule(config, name.granule))
}

#[tactic(auto, unfolding(realm_desc::specs::View::realm_record))]
fn is_root_held(rd: Pa, held: &HeldPairs) -> bool
    ensures { result ≡ spec.is_root_held (cell_in rd (pair_cells held.now)) (pair_cells held.now) }
{
    match held.cell(rd) {
        Some(Cell::Rd(descriptor)) => is_held(held, descriptor.realm().root),
        _ => false,
    }
}

// A REC that runs isn't destroyed, whatever its parts are.
#[tactic(auto, unfolding(realm_desc::specs::View::rec_record))]
fn are_auxes_held(rec: Pa, held: &HeldPairs) -> bool
    ensures { result ≡ spec.are_auxes_held (cell_in rec (pair_cells held.now)) (pair_cells held.now) }
{
    match held.cell(rec) {
        Some(Cell::Rec(it)) => {
            it.cpu.is_some() || (is_held(held, it.aux0) && is_held(held, it.aux1))
        }
        _ => false,
    }
}

fn is_realm_in(cell: Option<&Cell>) -> bool
    ensures { result ≡ spec.is_realm_in (option_map cell_of (option_copied cell.entry)) }
{
    matches!(cell, Some(Cell::Rd(_)))
}

#[tactic(auto, unfolding(realm_desc::specs::View::rec_record))]
fn is_owner_held(rec: Pa, held: &HeldPairs) -> bool
    ensures { result ≡ spec.is_owner_held (cell_in rec (pair_cells held.now)) (pair_cells held.now) }
{
    match held.cell(rec) {
        Some(Cell::Rec(it)) => is_realm_in(held.cell(it.owner)),
        _ => false,
    }
}

// Whether all is held that the rows behind the command's words and tags read.
#[tactic(auto, unfolding(crate::specs::Settled::is_complete))]
fn is_complete(call: &Call, names: &[Name], held: &HeldPairs) -> bool
    requires { names.now ≡ step_named.named call.now }
    ensures { result ≡ spec.is_complete call.now (pair_cells held.now) }
{
    match *call {
        Call::RealmDestroy { rd } => is_root_held(Pa::new(rd), held),
        Call::RecDestroy { rec } => are_auxes_held(Pa::new(rec), held),
        Call::RecEnter { rec } => is_owner_held(Pa::new(rec), held),
        _ => holds_all(names, held),
    }
}

// Whether all is held that the rows read, and its walk is over where it walks.
fn is_all_held(sight: &HeldSight<'_>, call: &Call, allowed: bool, names: &[Name]) -> bool
    requires allowed { allowed ≡ all_allowed (step_named.words_of call.now) }
    requires names { names.now ≡ step_named.named call.now }
    ensures { result ≡ spec.is_all_held sight.now.config.now call.now (pair_cells sight.now.held.now) (way_taken call.now) }
{
    match way_given(call, allowed) {
        None => is_complete(call, names, sight.held),
        Some(way) => sight.is_walk_over(call, &way),
    }
}

// What settles a host's command but its words.
fn is_met(sight: &HeldSight<'_>, call: &Call, allowed: bool, names: &[Name]) -> bool
    requires allowed { allowed ≡ all_allowed (step_named.words_of call.now) }
    requires names { names.now ≡ step_named.named call.now }
    ensures { result ≡ (named.has_wrong (step_named.named call.now) (pair_cells sight.now.held.now)
        || is_unshaped_outside sight.now.config.now call.now (pair_cells sight.now.held.now)
        || spec.is_all_held sight.now.config.now call.now (pair_cells sight.now.held.now) (way_taken call.now)) }
{
    has_wrong(names, sight.held)
        || unshaped::is_unshaped_outside(sight, call)
        || is_all_held(sight, call, allowed, names)
}

#[tactic(auto, unfolding(crate::specs::Named::words_fit))]
fn is_settled_outside(sight: &HeldSight<'_>, call: &Call, terms: &Terms) -> bool
    requires caller { class_from terms.now.caller ≡ class_of call.now }
    requires allowed { terms.now.allowed ≡ all_allowed (step_named.words_of call.now) }
    requires names { names_of terms.now.names ≡ step_named.named call.now }
    ensures { result ≡ spec.is_settled_outside (class_of call.now) sight.now.config.now call.now (pair_cells sight.now.held.now) }
{
    match terms.caller {
        Caller::Host => {
            let names = terms.names.as_slice();
            !(terms.allowed && are_granules(sight.config, names))
                || is_met(sight, call, terms.allowed, names)
        }
        Caller::Realm | Caller::Rec => true,
    }
}

// Whether the walk of a realm's call, if it walks, is over.
fn is_read_over(sight: &HeldSight<'_>, call: &Call, rec: Pa, rd: Pa) -> bool
    ensures { result
        ≡ spec.is_read_over sight.now.config.now (pair_cells sight.now.held.now) (way_inside call.now rec rd (pair_cells sight.now.held.now)) }
{
    match sight.way_inside(call, rec, rd) {
        None => true,
        Some(way) => sight.is_at_end(true, &way),
    }
}

fn is_settled_inside(sight: &HeldSight<'_>, call: &Call, caller: Caller, rec: Pa, rd: Pa) -> bool
    requires { class_from caller ≡ class_of call.now }
    ensures { result ≡ spec.is_settled_inside (class_of call.now) sight.now.config.now call.now rec rd (pair_cells sight.now.held.now) }
{
    match caller {
        Caller::Host => true,
        Caller::Realm => {
            is_misfit(sight, call, rec, rd)
                || (is_held(sight.held, rec)
                    && is_held(sight.held, rd)
                    && is_read_over(sight, call, rec, rd))
        }
        Caller::Rec => is_misfit(sight, call, rec, rd) || is_held(sight.held, rec),
    }
}

/// Whether what is held settles a command.
#[tactic(auto, unfolding(crate::specs::Settled::is_settled))]
pub(crate) fn is_settled<'a>(
    config: &'a Config,
    call: &Call,
    terms: &Terms,
    place: &CpuPlace,
    held: &'a HeldPairs,
) -> bool
    requires caller { class_from terms.now.caller ≡ class_of call.now }
    requires allowed { terms.now.allowed ≡ all_allowed (step_named.words_of call.now) }
    requires names { names_of terms.now.names ≡ step_named.named call.now }
    ensures { result ≡ spec.is_settled config.now call.now (place_of place.now) (pair_cells held.now) }
{
    let sight = HeldSight {
        config,
        held,
        side: None,
    };
    match *place {
        CpuPlace::Outside => is_settled_outside(&sight, call, terms),
        CpuPlace::Inside { rec, rd } => is_settled_inside(&sight, call, terms.caller, rec, rd),
    }
}
