//! Where a translation table stands.

/// The place of a translation table: the realm that it is of, by the address of its descriptor, its level (0 to 3),
/// the first address that it covers, and the realm's width. Addresses are in bytes.
#[derive(Clone, Copy)]
pub struct Place {
    pub rd: u64,
    pub level: u8,
    pub base: u64,
    pub width: u8,
}
