//! How far a command may get whose end is left to the monitor.

use command_rows::Sight;
use memory_map::{can_be_set, entry_number};
use reasons::entry_size;
use rmm_spec::{Accepted, Refusal};
use spec_machine::Machine;

/// How many entries a table has.
const ENTRIES: u64 = 512;

/// The greatest end that a command may reach, where its end is left to the monitor: as far as entries of one table can be set.
pub(crate) fn farthest_end(
    machine: &Machine,
    specified: &Result<Accepted, Refusal>,
) -> Option<u64> {
    let Ok(Accepted::Reaches(stretch)) = specified else {
        return None;
    };
    let size = entry_size(u64::from(stretch.level));
    let mut end = stretch.base;
    for _ in 0..ENTRIES {
        let next = end.saturating_add(size);
        let number = entry_number(stretch.level, end);
        let entry = machine.entry_at(stretch.rd, stretch.level, number);
        if next > stretch.top || !can_be_set(stretch.purpose, entry) {
            break;
        }
        end = next;
        if end / size % ENTRIES == 0 {
            break;
        }
    }
    Some(end)
}
