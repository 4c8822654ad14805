//! Why a REC waits to leave to its host.

/// What a REC asked for before it leaves (DEN0137, REC exit).
#[derive(Clone, Copy)]
pub enum PendingExit {
    /// The power call of this number.
    Psci(u32),
    /// A change of RIPAS, as its request says.
    RipasChange,
    /// A call of the host with this number.
    HostCall(u16),
}
