//! What a look at a return has to know.

/// Up to which return orders are continued, and which are kept.
#[derive(Clone, Copy)]
pub(crate) struct Scope {
    /// The place of the return.
    pub(crate) place: u32,
    /// Set only where no call reads a measurement, so that orders which differ in measurements alone stand for each other.
    pub(crate) unread: bool,
    /// How many orders that lack no call are kept.
    pub(crate) most: usize,
}
