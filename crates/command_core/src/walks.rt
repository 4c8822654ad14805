//! What a walk of a command has come to, told by the tables that are held.

ghost use Rattle.std.specs.Prelude.{◌≡◌, ◌<◌, not, IfSome, option_map};
ghost use Rattle.world_laws.specs.Walking as walking;
ghost use Rattle.command_core.specs.Walks as spec;
ghost use Rattle.command_core.specs.Ways.{part_seen};

use crate::held_sight::HeldSight;
use crate::held_tables::{found_or, placed, table_in};
use crate::ways::{keeps_realm, part_below};
use command_rows::answer_outside;
use command_words::{Name, Way, is_tag, named};
use granule_cells::Cell;
use memory_map::{Pa, entry_number, is_table, table_number};
use rmm_spec::{Call, Entry, Refusal, Tag};

/// A part of what is held: the granule that names it, at which of its entries where that is a table's, and the part.
#[derive(Clone, Copy)]
pub(crate) struct Part {
    pub(crate) above: u64,
    pub(crate) index: u64,
    pub(crate) next: u64,
}

impl<'a> HeldSight<'a> {
    ghost use Rattle.std.specs.Prelude.{◌≡◌, ◌<◌, ◌&&◌, Some, IfSome, IsTrue, is_some, is_none, option_map};
    ghost use Rattle.world_laws.specs.Held.{cell_in};
    ghost use Rattle.world_laws.specs.Walking as walking;
    ghost use Rattle.world_laws.specs.SeenState as seen;
    ghost use Rattle.command_core.specs.Pairs.{pair_cells};
    ghost use Rattle.command_core.specs.Walks as spec;
    ghost use Rattle.command_words.specs.Ways.{way_seen};
    ghost use Rattle.command_core.specs.Ways.{part_seen};

    // The level at which the walk ends.
    fn end_level(&self, way: &Way) -> u8
        ensures { result ≡ spec.end_level self.now.config.now (pair_cells self.now.held.now) (way_seen way.now) }
    {
        self.reach(way.rd, way.ipa, way.max)
    }

    // The granule of the table there, where it is held.
    fn end_table(&self, way: &Way) -> Option<u64>
        ensures { result ≡ spec.end_table self.now.config.now (pair_cells self.now.held.now) (way_seen way.now) }
    {
        let level = self.end_level(way);
        placed(self.held, way.rd, level, table_number(level, way.ipa))
    }

    // The entry at which it ends.
    fn end_entry(&self, way: &Way) -> Entry
        ensures { result ≡ walking.end_entry self.now.config.now (pair_cells self.now.held.now) (way_seen way.now) }
    {
        let level = self.end_level(way);
        self.entry(way.rd, level, entry_number(level, way.ipa))
    }

    /// Whether the walk ends at a table that is held: at the last level that is asked for, or at an entry that is no link.
    #[tactic(auto, unfolding(world_laws::specs::Walking::is_walk_held))]
    pub(crate) fn is_walk_held(&self, way: &Way) -> bool
        ensures { result ≡ walking.is_walk_held self.now.config.now (pair_cells self.now.held.now) (way_seen way.now) }
    {
        self.end_table(way).is_some()
            && (self.end_level(way) == way.max || !is_table(self.end_entry(way)))
    }

    // The level of the deepest table of the walk that is held.
    #[tactic(auto, unfolding(crate::specs::Walks::come_to))]
    fn come_to(&self, way: &Way) -> u8
        ensures { result ≡ spec.come_to self.now.config.now (pair_cells self.now.held.now) (way_seen way.now) }
    {
        let level = self.end_level(way);
        if self.end_table(way).is_some() {
            level
        } else {
            level.saturating_sub(1)
        }
    }

    // Whether the part below that the command takes out, if it does, is held.
    fn is_part_held(&self, call: &Call, way: &Way) -> bool
        ensures { result ≡ walking.is_part_held (walking.part_below call.now
            (walking.end_entry self.now.config.now (pair_cells self.now.held.now) (way_seen way.now))) (pair_cells self.now.held.now) }
    {
        match part_below(call, self.end_entry(way)) {
            Some(part) => self.held.cell(Pa::new(part)).is_some(),
            None => true,
        }
    }

    // Whether the rows before the walk refuse.
    fn is_refused_early(&self, call: &Call) -> bool
        requires { IsTrue (is_some (walking.way_of call.now)) }
        ensures { result ≡ walking.is_refused_early (walking.seen_answer self.now.config.now call.now (pair_cells self.now.held.now)) }
    {
        match answer_outside(self, 0, call) {
            Ok(_) => false,
            Err(refusal) => is_early(refusal),
        }
    }

    /// Whether a granule's tag is told: it is held, or it is the realm of a table that is held.
    pub(crate) fn is_told(&self, keeps: bool, name: &Name) -> bool
        ensures { result ≡ walking.is_told keeps (pair_cells self.now.held.now) name.now }
    {
        self.held.cell(Pa::new(name.granule)).is_some()
            || (!keeps && is_tag(name.tag, Tag::Rd) && self.behind(name.granule).is_some())
    }

    /// Whether the tags of all granules that are named are told.
    #[tactic(auto, unfolding(world_laws::specs::Walking::are_told))]
    pub(crate) fn are_told(&self, call: &Call) -> bool
        ensures { result ≡ walking.are_told call.now (pair_cells self.now.held.now) }
    {
        let keeps = keeps_realm(call);
        let names = named(call);
        names
            .as_slice()
            .iter()
            .all(|name| self.is_told(keeps, name))
    }

    /// Whether the walk has come to its end, and nothing is held that the plan frees.
    pub(crate) fn is_at_end(&self, keeps: bool, way: &Way) -> bool
        ensures { result ≡ (walking.is_walk_held self.now.config.now (pair_cells self.now.held.now) (way_seen way.now)
            && is_none (spec.spare self.now.config.now keeps (pair_cells self.now.held.now) (way_seen way.now))) }
    {
        self.is_walk_held(way) && self.spare(keeps, way).is_none()
    }

    /// Whether the walk of a command is over: the rows before it refuse, or all that it reads and changes is held.
    #[tactic(auto, unfolding(crate::specs::Walks::is_walk_over))]
    pub(crate) fn is_walk_over(&self, call: &Call, way: &Way) -> bool
        requires { walking.way_of call.now ≡ Some (way_seen way.now) }
        ensures { result ≡ spec.is_walk_over self.now.config.now call.now (pair_cells self.now.held.now) (way_seen way.now) }
    {
        self.are_told(call)
            && (self.is_refused_early(call)
                || (self.is_walk_held(way)
                    && self.is_part_held(call, way)
                    && self.spare(keeps_realm(call), way).is_none()))
    }

    // Whether a table of the realm above the level is held in a granule.
    fn is_above(&self, granule: Pa, rd: u64, level: u8) -> bool
        ensures { result ≡ spec.is_above rd level (seen.table_held (pair_cells self.now.held.now) granule) }
    {
        match table_in(self.held, granule) {
            Some(table) => table.place().rd == rd && table.place().level < level,
            None => false,
        }
    }

    // Whether the realm is held that the command doesn't keep, once a table of it is held.
    fn is_realm_spare(&self, keeps: bool, rd: u64) -> bool
        ensures { result ≡ spec.is_realm_spare keeps (pair_cells self.now.held.now) rd }
    {
        !keeps && self.held.cell(Pa::new(rd)).is_some() && self.behind(rd).is_some()
    }

    /// What the plan frees before it goes on: the realm, or a table above the one that the walk has come to.
    #[tactic(auto, unfolding(crate::specs::Walks::spare))]
    pub(crate) fn spare(&self, keeps: bool, way: &Way) -> Option<u64>
        ensures { result ≡ spec.spare self.now.config.now keeps (pair_cells self.now.held.now) (way_seen way.now) }
    {
        if self.is_realm_spare(keeps, way.rd) {
            return Some(way.rd);
        }
        let level = self.come_to(way);
        self.held.held().iter().fold(
            None,
            |found, granule| found_or(found, *granule, self.is_above(*granule, way.rd, level)),
        )
    }

    // The root of a realm that is held.
    #[tactic(auto, unfolding(realm_desc::specs::View::realm_record))]
    fn root_part(&self, rd: u64) -> Option<Part>
        ensures part { option_map part_seen result ≡ spec.root_part rd (cell_in rd (pair_cells self.now.held.now)) }
        ensures within { IfSome result (λ part. part.index < 512) }
    {
        match self.held.cell(Pa::new(rd)) {
            Some(Cell::Rd(descriptor)) => Some(Part {
                above: rd,
                index: 0,
                next: descriptor.realm().root.address(),
            }),
            _ => None,
        }
    }

    // The table at the walk's end, below the link to it, or the root.
    #[tactic(auto, unfolding(crate::specs::Walks::link_part))]
    fn link_part(&self, way: &Way) -> Option<Part>
        ensures part { option_map part_seen result ≡ spec.link_part self.now.config.now (pair_cells self.now.held.now) (way_seen way.now) }
        ensures within { IfSome result (λ part. part.index < 512) }
    {
        if self.behind(way.rd).is_none() {
            return self.root_part(way.rd);
        }
        let level = self.end_level(way);
        let number = table_number(level, way.ipa);
        let above = placed(self.held, way.rd, level.saturating_sub(1), number / 512);
        part_at(above, number, self.table(way.rd, level, number))
    }

    /// Where a realm's call walks: with good words, from a REC that doesn't wait to leave.
    #[tactic(auto, unfolding(crate::specs::Walks::way_inside, realm_desc::specs::View::rec_record))]
    pub(crate) fn way_inside(&self, call: &Call, rec: Pa, rd: Pa) -> Option<Way>
        ensures { option_map way_seen result ≡ spec.way_inside call.now rec rd (pair_cells self.now.held.now) }
    {
        match (call, self.held.cell(rec), self.held.cell(rd)) {
            (Call::IpaStateGet { ipa }, Some(Cell::Rec(it)), Some(Cell::Rd(descriptor)))
                if it.pending.is_none() && descriptor.realm().protects(*ipa) => Some(Way {
                rd: rd.address(),
                ipa: *ipa,
                max: 3,
            }),
            _ => None,
        }
    }

    /// The part that the walk wants: below the table at its end what the command takes out, else that table.
    #[tactic(auto, unfolding(crate::specs::Walks::wanted))]
    pub(crate) fn wanted(&self, call: &Call, way: &Way) -> Option<Part>
        ensures part { option_map part_seen result ≡ spec.wanted self.now.config.now call.now (pair_cells self.now.held.now) (way_seen way.now) }
        ensures within { IfSome result (λ part. part.index < 512) }
    {
        let end = self.end_table(way);
        if end.is_none() {
            return self.link_part(way);
        }
        let number = entry_number(self.end_level(way), way.ipa);
        part_at(end, number, part_below(call, self.end_entry(way)))
    }
}

// Whether a refusal is of a row before those over tables.
fn is_early(refusal: Refusal) -> bool
    ensures { result ≡ not (walking.is_table_error refusal) }
{
    !matches!(refusal, Refusal::Rtt(..))
}

// The part that an entry names, in the table that is held at its level.
fn part_at(above: Option<u64>, number: u64, next: Option<u64>) -> Option<Part>
    ensures part { option_map part_seen result ≡ spec.part_at above number next }
    ensures within { IfSome result (λ part. part.index < 512) }
{
    match (above, next) {
        (Some(above), Some(next)) => Some(Part {
            above,
            index: number % 512,
            next,
        }),
        _ => None,
    }
}
