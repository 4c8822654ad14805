//! The commands of a realm with tables, as its stages list them.

use rmm_spec::FunctionId;

/// A word of a command: one of the realm's granules, its VMID, or itself.
#[derive(Clone, Copy)]
pub(crate) enum Word {
    Granule(u8),
    Vmid,
    Plain(u64),
}

/// A command of a stage.
pub(crate) type Listed = (FunctionId, &'static [Word]);

/// Where the unprotected half begins.
pub(crate) const HALF: u64 = 0x40_0000_0000;
