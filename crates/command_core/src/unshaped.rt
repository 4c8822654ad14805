//! Whether the cells that are held are ones that no shaped whole has.

ghost use Rattle.std.specs.Prelude.{◌≡◌, option_map, option_copied};
ghost use Rattle.command_core.specs.Pairs.{pair_cells};
ghost use Rattle.command_core.specs.Seen.{cell_of, cell_in, place_of};
ghost use Rattle.command_core.specs.Unshaped as spec;
ghost use Rattle.command_words.specs.Ways.{way_seen};

use crate::held_pairs::HeldPairs;
use crate::held_sight::HeldSight;
use crate::taking::{has_wrong, is_granule, is_held};
use crate::ways::way_taken;
use command_words::{Way, needed, two};
use granule_cells::{Cell, CpuPlace};
use memory_map::{Config, Pa};
use realm_desc::Rec;
use rmm_spec::{Call, Tag};

fn is_other_aux(cell: Option<&Cell>) -> bool
    ensures { result ≡ spec.is_other_aux (option_map cell_of (option_copied cell.entry)) }
{
    match cell {
        None | Some(Cell::RecAux) => false,
        Some(_) => true,
    }
}

fn is_bad_aux(config: &Config, aux: Pa, held: &HeldPairs) -> bool
    ensures { result ≡ spec.is_bad_aux config.now aux (pair_cells held.now) }
{
    !is_granule(config, aux.address()) || is_other_aux(held.cell(aux))
}

// The second is looked at once the first is held.
#[tactic(auto, unfolding(realm_desc::specs::View::rec_record))]
fn are_bad_auxes(config: &Config, rec: &Rec, held: &HeldPairs) -> bool
    ensures { result ≡ spec.are_bad_auxes config.now rec.now (pair_cells held.now) }
{
    is_bad_aux(config, rec.aux0, held)
        || (is_held(held, rec.aux0) && is_bad_aux(config, rec.aux1, held))
}

// A REC that runs isn't destroyed, whatever its parts are.
#[tactic(auto, unfolding(realm_desc::specs::View::rec_record))]
fn has_bad_aux(config: &Config, rec: Pa, held: &HeldPairs) -> bool
    ensures { result ≡ spec.has_bad_aux config.now (cell_in rec (pair_cells held.now)) (pair_cells held.now) }
{
    match held.cell(rec) {
        Some(Cell::Rec(it)) => it.cpu.is_none() && are_bad_auxes(config, it, held),
        _ => false,
    }
}

// Whether an Enter can take the realm of its REC.
fn can_learn(config: &Config, rec: Pa, owner: Pa) -> bool
    ensures { result ≡ spec.can_learn config.now rec owner }
{
    is_granule(config, owner.address()) && owner.address() != rec.address()
}

#[tactic(auto, unfolding(realm_desc::specs::View::rec_record))]
fn has_bad_owner(config: &Config, rec: Pa, held: &HeldPairs) -> bool
    ensures { result ≡ spec.has_bad_owner config.now rec (cell_in rec (pair_cells held.now)) }
{
    match held.cell(rec) {
        Some(Cell::Rec(it)) => !can_learn(config, rec, it.owner),
        _ => false,
    }
}

#[tactic(auto, unfolding(realm_desc::specs::View::rec_record))]
fn has_other_owner(rd: Pa, cell: Option<&Cell>) -> bool
    ensures { result ≡ spec.has_other_owner rd (option_map cell_of (option_copied cell.entry)) }
{
    match cell {
        Some(Cell::Rec(rec)) => rec.owner.address() != rd.address(),
        _ => false,
    }
}

// Whether the REC and realm of a CPU's place can't be what the place says.
#[tactic(auto, unfolding(crate::specs::Unshaped::is_misplaced))]
fn is_misplaced(config: &Config, rec: Pa, rd: Pa, held: &HeldPairs) -> bool
    ensures { result ≡ spec.is_misplaced config.now rec rd (pair_cells held.now) }
{
    let names = two(
        needed(rec.address(), Tag::Rec),
        needed(rd.address(), Tag::Rd),
    );
    !(is_granule(config, rec.address())
        && is_granule(config, rd.address())
        && rec.address() != rd.address())
        || has_wrong(names.as_slice(), held)
        || has_other_owner(rd, held.cell(rec))
}

// Whether the tables of a walk, if there is one, can't be.
fn is_misfit_way(sight: &HeldSight<'_>, way: &Option<Way>) -> bool
    ensures { result ≡ spec.is_misfit_way sight.now.config.now (pair_cells sight.now.held.now) (option_map way_seen way.now) }
{
    match way {
        None => false,
        Some(way) => sight.is_misfit_walk(way.rd, way.ipa),
    }
}

/// Whether the REC and realm of a CPU's place, or the tables of its call's walk, can't be.
pub(crate) fn is_misfit(sight: &HeldSight<'_>, call: &Call, rec: Pa, rd: Pa) -> bool
    ensures { result ≡ spec.is_misfit sight.now.config.now call.now rec rd (pair_cells sight.now.held.now) }
{
    is_misplaced(sight.config, rec, rd, sight.held)
        || is_misfit_way(sight, &sight.way_inside(call, rec, rd))
}

// Whether a part of a realm or REC that is named can't be.
#[tactic(auto, unfolding(crate::specs::Unshaped::has_misfit_part))]
fn has_misfit_part(sight: &HeldSight<'_>, call: &Call) -> bool
    ensures { result ≡ spec.has_misfit_part sight.now.config.now call.now (pair_cells sight.now.held.now) }
{
    match *call {
        Call::RealmDestroy { rd } => sight.is_misfit_root(rd),
        Call::RecDestroy { rec } => has_bad_aux(sight.config, Pa::new(rec), sight.held),
        Call::RecEnter { rec } => has_bad_owner(sight.config, Pa::new(rec), sight.held),
        _ => false,
    }
}

/// Whether a host's command meets cells that no shaped whole has.
pub(crate) fn is_unshaped_outside(sight: &HeldSight<'_>, call: &Call) -> bool
    ensures { result ≡ spec.is_unshaped_outside sight.now.config.now call.now (pair_cells sight.now.held.now) }
{
    has_misfit_part(sight, call) || is_misfit_way(sight, &way_taken(call))
}

/// Whether a command meets cells that no shaped whole has.
#[tactic(auto, unfolding(crate::specs::Unshaped::is_unshaped))]
pub(crate) fn is_unshaped(sight: &HeldSight<'_>, call: &Call, place: &CpuPlace) -> bool
    ensures { result ≡ spec.is_unshaped sight.now.config.now call.now (place_of place.now) (pair_cells sight.now.held.now) }
{
    match *place {
        CpuPlace::Outside => is_unshaped_outside(sight, call),
        CpuPlace::Inside { rec, rd } => is_misfit(sight, call, rec, rd),
    }
}
