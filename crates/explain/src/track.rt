//! What is kept of the states that lines lead to.

ghost use Rattle.std.specs.Prelude.{◌≡◌, ◌+◌, ◌^◌, ◌<◌, ◌↔◌, ℕ, List, take, IsTrue};
ghost use Rattle.rmm_spec.specs.declared.line.Line.{Line};
ghost use Rattle.rmm_spec.specs.FirstFault.{Passes};
ghost use Rattle.rmm_spec.specs.HistoryText.{History as Recorded};
ghost use Rattle.rmm_spec.specs.State.{State};
ghost use Rattle.explain.specs.declared.watch.Watch.{Watch as Watched};
ghost use Rattle.explain.specs.Track.{IsKept, IsSampleOf, IsTrack, IsTurn};
ghost use Rattle.explain.specs.Watch.{is_so, is_there, showing, shown};

use crate::watch::Sample;
use arrayvec::ArrayVec;

/// After how many lines it is so from then on, and whether what it is about was there right before.
#[derive(Clone, Copy)]
pub(crate) struct Turn {
    pub(crate) since: usize,
    pub(crate) was_there: bool,
}

/// Whether what it is about is there, what is read, and after how many lines both are so from then on.
#[derive(Drop)]
pub(crate) struct Kept {
    pub(crate) there: bool,
    pub(crate) read: ArrayVec<u64, 10>,
    pub(crate) set: usize,
}

/// What is kept of the states so far.
#[derive(Drop)]
pub(crate) struct Track {
    pub(crate) turn: Turn,
    pub(crate) kept: Kept,
}

/// Of no state.
pub(crate) fn no_track() -> Track
    ensures { (history : Recorded) (lines : List Line) (w : Watched) → IsTrack history lines w 0 result }
{
    Track {
        turn: Turn {
            since: 0,
            was_there: false,
        },
        kept: Kept {
            there: false,
            read: ArrayVec::new(),
            set: 0,
        },
    }
}

/// With the state after so many lines.
pub(crate) fn track_with(track: Track, count: usize, sample: Sample) -> Track
    requires { count < 2 ^ 63 }
    ensures { (history : Recorded) (lines : List Line) (w : Watched) (s : State) → Passes history (take count lines) s → IsSampleOf s w sample
        → IsTrack history lines w count track → IsTrack history lines w (count + 1) result }
{
    let Track { turn, kept } = track;
    let Sample {
        is_so,
        is_there,
        read,
    } = sample;
    Track {
        turn: turn_with(turn, count, is_so, is_there),
        kept: kept_with(kept, count, is_there, read),
    }
}

fn turn_with(turn: Turn, count: usize, so: bool, there: bool) -> Turn
    requires { count < 2 ^ 63 }
    ensures { (history : Recorded) (lines : List Line) (w : Watched) (s : State)
        → Passes history (take count lines) s → so ≡ is_so s w → there ≡ is_there s w
        → IsTurn history lines w count turn → IsTurn history lines w (count + 1) result }
{
    if so {
        return turn;
    }
    Turn {
        since: count + 1,
        was_there: there,
    }
}

fn kept_with(kept: Kept, count: usize, there: bool, read: ArrayVec<u64, 10>) -> Kept
    ensures { (history : Recorded) (lines : List Line) (w : Watched) (s : State)
        → Passes history (take count lines) s → shown s w ≡ showing there read.items
        → IsKept history lines w count kept → IsKept history lines w (count + 1) result }
{
    if is_seen(&kept, there, &read) {
        return kept;
    }
    Kept {
        there,
        read,
        set: count,
    }
}

// Whether this was kept.
fn is_seen(kept: &Kept, there: bool, read: &ArrayVec<u64, 10>) -> bool
    ensures { IsTrue result ↔ (showing kept.now.there kept.now.read.items ≡ showing there read.now.items) }
{
    there == kept.there && is_same(read, &kept.read)
}

// Whether two lists are the same.
fn is_same(one: &ArrayVec<u64, 10>, other: &ArrayVec<u64, 10>) -> bool
    ensures { IsTrue result ↔ (one.now.items ≡ other.now.items) }
{
    one.as_slice() == other.as_slice()
}
