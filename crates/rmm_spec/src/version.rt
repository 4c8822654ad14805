//! The versions of the rules.

/// The rules that a machine goes by. Version 1 measures each realm by SHA-256; version 2 also has SHA-512, and the version of
/// large machines is the second with more granules.
#[derive(Clone, Copy)]
pub enum Version {
    One,
    Two,
    Large,
}
