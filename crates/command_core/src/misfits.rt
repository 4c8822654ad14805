//! Whether the tables that a walk meets among the held cells are ones that no shaped whole has.

ghost use Rattle.std.specs.Prelude.{◌≡◌, option_map, option_copied};
ghost use Rattle.world_laws.specs.Misfits as spec;
ghost use Rattle.command_core.specs.Seen.{cell_of};

use crate::held_sight::HeldSight;
use crate::held_tables::{is_at, table_in};
use crate::taking::is_granule;
use granule_cells::Cell;
use memory_map::{Ipa, Pa, table_number};
use rmm_spec::Entry;
use rtt_table::{Table, index_of};

// Whether a table stands at that place: its base tells its number.
fn is_table_at(table: &Table, rd: u64, level: u8, number: u64, width: u8) -> bool
    ensures { result ≡ spec.is_place rd level number width table.now.place }
{
    let place = table.place();
    is_at(&place, rd, level, number) && place.width == width
}

// Whether what is held is something else than the table of that place.
fn is_other_table(rd: u64, level: u8, number: u64, width: u8, cell: Option<&Cell>) -> bool
    ensures { result ≡ spec.is_other_table rd level number width (option_map cell_of (option_copied cell.entry)) }
{
    match cell {
        None => false,
        Some(Cell::Rtt(table)) => !is_table_at(table, rd, level, number, width),
        Some(_) => true,
    }
}

fn is_other_page(cell: Option<&Cell>) -> bool
    ensures { result ≡ spec.is_other_page (option_map cell_of (option_copied cell.entry)) }
{
    match cell {
        None | Some(Cell::Data) => false,
        Some(_) => true,
    }
}

impl<'a> HeldSight<'a> {
    ghost use Rattle.std.specs.Prelude.{◌≡◌, ◌<◌, slice_get};
    ghost use Rattle.std.specs.List.{list_any};
    ghost use Rattle.rmm_spec.specs.Local.{granules_held};
    ghost use Rattle.world_laws.specs.Held.{cell_in};
    ghost use Rattle.world_laws.specs.SeenState.{table_held};
    ghost use Rattle.world_laws.specs.Misfits as spec;
    ghost use Rattle.command_core.specs.Pairs.{pair_cells};

    // Whether what an entry of a table names can't be: no granule, or held as something else.
    #[tactic(auto, unfolding(rmm_spec::specs::Table::place_number))]
    fn is_misfit_part(&self, table: &Table, index: usize) -> bool
        requires { index < 512 }
        ensures { result
            ≡ spec.is_misfit_part self.now.config.now (pair_cells self.now.held.now) table.now index (slice_get table.now.entries index) }
    {
        let place = table.place();
        match table.entry(index) {
            Entry::Table(child) => {
                let number = 512 * table_number(place.level, place.base) + index as u64;
                !is_granule(self.config, child)
                    || is_other_table(
                        place.rd,
                        place.level + 1,
                        number,
                        place.width,
                        self.held.cell(Pa::new(child)),
                    )
            }
            Entry::Assigned(_, page) => !is_granule(self.config, page)
                || is_other_page(self.held.cell(Pa::new(page))),
            Entry::Unassigned(_) | Entry::UnassignedNs | Entry::AssignedNs(_) => false,
        }
    }

    // Whether the entry of a held table for the address names such.
    fn is_misfit_table(&self, granule: Pa, ipa: u64) -> bool
        ensures { result
            ≡ spec.is_misfit_table self.now.config.now (pair_cells self.now.held.now) ipa (table_held (pair_cells self.now.held.now) granule) }
    {
        match table_in(self.held, granule) {
            Some(table) => self.is_misfit_part(table, index_of(table.place().level, Ipa::new(ipa))),
            None => false,
        }
    }

    /// Whether the root of a realm that is held can't be.
    #[tactic(auto, unfolding(realm_desc::specs::View::realm_record))]
    pub(crate) fn is_misfit_root(&self, rd: u64) -> bool
        ensures { result ≡ spec.is_misfit_root self.now.config.now (pair_cells self.now.held.now) rd (cell_in rd (pair_cells self.now.held.now)) }
    {
        match self.held.cell(Pa::new(rd)) {
            Some(Cell::Rd(descriptor)) => {
                let realm = descriptor.realm();
                let level = realm.space.start_level();
                !is_granule(self.config, realm.root.address())
                    || is_other_table(
                        rd,
                        level,
                        0,
                        realm.space.width(),
                        self.held.cell(realm.root),
                    )
            }
            _ => false,
        }
    }

    // Whether an entry of some held table for the address names such.
    fn has_misfit_table(&self, ipa: u64) -> bool
        ensures { result ≡ list_any (λ granule. spec.is_misfit_table self.now.config.now (pair_cells self.now.held.now) ipa
            (table_held (pair_cells self.now.held.now) granule)) (granules_held (pair_cells self.now.held.now)) }
    {
        self.held
            .held()
            .iter()
            .any(|granule| self.is_misfit_table(*granule, ipa))
    }

    /// Whether a walk in the tables of the realm for the address meets such.
    #[tactic(auto, unfolding(world_laws::specs::Misfits::is_misfit_walk))]
    pub(crate) fn is_misfit_walk(&self, rd: u64, ipa: u64) -> bool
        ensures { result ≡ spec.is_misfit_walk self.now.config.now (pair_cells self.now.held.now) rd ipa }
    {
        self.is_misfit_root(rd) || self.has_misfit_table(ipa)
    }
}
