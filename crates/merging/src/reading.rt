//! Lines, read to a table.

ghost use Rattle.std.specs.Prelude.{◌≡◌, ℕ, List, [], ◌∷◌, ◌++◌, IfErr, OnOk};
ghost use Rattle.rmm_spec.specs.Text.{HasNoNewline};
ghost use Rattle.merging.specs.Faults.{IsTableOf, IsFaultOf};

use crate::event_fault::EventsFault;
use crate::line::line_from;
use crate::table::{EventTable, MOST_EVENTS};

/// Reads the next line, whose event's stamp isn't taken.
pub(crate) fn read_event(
    table: &mut EventTable,
    words: &mut [u64; 10],
    bytes: &[u8],
) -> Result<(), EventsFault>
    requires { HasNoNewline bytes.now }
    ensures read { OnOk result ((front : List ℕ) → IsTableOf front table.old → IsTableOf (front ++ (bytes.now ++ 10 ∷ [])) table.new) }
    ensures fault { IfErr result (λ fault. (front more : List ℕ) → IsTableOf front table.old
        → IsFaultOf (front ++ (bytes.now ++ 10 ∷ more)) fault) }
{
    let number = next_number(table);
    if table.count() == MOST_EVENTS {
        return Err(EventsFault::BadLine(number));
    }
    let Some(line) = line_from(words, bytes) else {
        return Err(EventsFault::BadLine(number));
    };
    if table.slot(line.stamp as usize).is_some() {
        return Err(EventsFault::StampTwice(number));
    }
    table.put(line.stamp, line.cpu, line.moment)?;
    Ok(())
}

ghost use Rattle.std.specs.Prelude.{◌+◌};

// The number of the next line.
fn next_number(table: &EventTable) -> u64
    ensures { result ≡ table.now.count + 2 }
{
    u64::from(table.count()) + 2
}
