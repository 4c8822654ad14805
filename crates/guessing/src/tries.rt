//! How many calls on measurements may be tried.

/// Who grants tries to a search for the order of a measurement's calls, beside some for each call.
pub trait Tries {
    /// How many more calls may be tried; where there are none, the search ends.
    fn more(&mut self) -> usize;
}
