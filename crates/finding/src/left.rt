//! What is left to try behind an order.

/// Calls that are tried at `from` or behind it, and of the first of them the ends of its stretch below `above`.
#[derive(Clone, Copy)]
pub(crate) struct Left {
    pub(crate) from: u32,
    pub(crate) above: Option<u64>,
}
