//! Histories that end earlier.

ghost use Rattle.std.specs.Prelude.{◌≡◌, ◌≤◌, length, take, IfOk, IfSome};

use history::History;
use std::alloc::{AllocError, Global};

/// The history of the first events, so many.
pub(crate) fn first_part(
    alloc: Global,
    history: &History,
    count: usize,
) -> Result<Option<History>, AllocError>
    requires { count ≤ length history.now.recorded.events }
    ensures { IfOk result (λ part. IfSome part (λ p.
        p.recorded ≡ record history.now.recorded { events = take count history.now.recorded.events })) }
{
    let mut part = History::new(alloc, history.config());
    let mut events = history.events();
    'places: for _place in 0..count {
        let Some(event) = events.next() else {
            return Ok(None);
        };
        let event = event.to_event();
        if !part.fits(&event) || !part.has_room() {
            return Ok(None);
        }
        part.push(event)?;
    }
    Ok(Some(part))
}
