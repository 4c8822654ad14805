//! Measurements.

/// The bytes of a measurement, behind the hash that made them (FIPS 180-4).
#[derive(Clone, Copy)]
pub enum Measurement {
    Sha256([u8; 32]),
    Sha512([u8; 64]),
}
