//! Whether a call may come next, by what it is told.

ghost use Rattle.std.specs.Prelude.{◌≡◌, ◌↔◌, IsTrue};
ghost use Rattle.rmm_spec.specs.Measure.{measurement_words};
ghost use Rattle.rmm_spec.specs.Rows.{ok};
ghost use Rattle.rmi_view.specs.Seen.{reply_seen};
ghost use Rattle.registers.specs.declared.done.Done.TheVariants as done;
ghost use Rattle.registers.specs.Leads.{FitsOpen, call_done};

use crate::done::Done;
use history::History;
use realm_desc::{Rem, words, words8};
use rmi_view::ReplyRef;
use rmm_spec::Measurement;

/// Whether the call may come where the register has the value: a reading that returns at a place is told the value there.
pub(crate) fn fits(
    history: &History,
    call: &Done,
    returned: Option<u32>,
    value: &Option<Rem>,
) -> bool
    ensures { FitsOpen history.now.recorded.events (call_done call.now) returned value.now → IsTrue result }
{
    match call {
        Done::Begins(_) | Done::Extends { .. } => true,
        Done::Reads => match value {
            Some(rem) => may_read(history, returned, rem.measurement()),
            None => false,
        },
    }
}

/// Whether a reading may be told the measurement.
fn may_read(history: &History, returned: Option<u32>, measurement: &Measurement) -> bool
    ensures { FitsOpen history.now.recorded.events (call_done done.Reads) returned (Some measurement.now) → IsTrue result }
{
    match returned {
        Some(place) => is_told(history, place as usize, measurement),
        None => true,
    }
}

/// Whether the return at the place tells the measurement.
fn is_told(history: &History, place: usize, measurement: &Measurement) -> bool
    ensures { FitsOpen history.now.recorded.events (call_done done.Reads) (Some place) (Some measurement.now) → IsTrue result }
{
    if place >= history.len() {
        return false;
    }
    match history.reply_at(place) {
        Some(reply) => tells(reply, measurement),
        None => false,
    }
}

/// Whether the reply gives the measurement.
fn tells(reply: ReplyRef<'_>, measurement: &Measurement) -> bool
    ensures { IsTrue result ↔ (reply_seen reply.entry ≡ ok (measurement_words measurement.now)) }
{
    let ReplyRef::Ok(given) = reply else {
        return false;
    };
    match measurement {
        Measurement::Sha256(bytes) => given == words(bytes).as_slice(),
        Measurement::Sha512(bytes) => given == words8(bytes).as_slice(),
    }
}
