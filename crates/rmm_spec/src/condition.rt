//! What a command asks for, by name.

/// A condition of a command: what has to hold for it to be carried out. The names are those of DEN0137's failure conditions,
/// which name the same by what fails; those at the end are this profile's own.
#[derive(Clone, Copy, PartialEq)]
pub enum Condition {
    Alias,
    AuxAlias,
    BaseAlign,
    BaseBound,
    GranState,
    IndexBound,
    IpaAlign,
    IpaBound,
    LevelBound,
    MpidrIndex,
    ParamsSupp,
    RealmLive,
    RealmNew,
    RealmState,
    RecOwner,
    RecRunnable,
    RecState,
    RgnBound,
    RipasValid,
    RttLive,
    RttNumLevel,
    RttWalk,
    RtteRipas,
    RtteState,
    SizeBound,
    SizeValid,
    SystemOff,
    TopAlign,
    TopBound,
    TopGranAlign,
    TopRttAlign,
    VmidValid,
    /// The entries of a table that is folded are alike, and unassigned.
    OwnAlike,
    /// A stretch begins at a page.
    OwnBase,
    /// Flags are 0 or 1.
    OwnFlags,
    /// A host call's number has 16 bits.
    OwnImm,
    /// Realm calls and exits are given inside of a REC.
    OwnInside,
    /// A host's commands are given outside of RECs.
    OwnOutside,
    /// A page of the host lies within its memory.
    OwnPage,
    /// A REC that gives a realm call has no pending exit.
    OwnPending,
    /// A realm makes no more than 8 RECs.
    OwnRecCount,
    /// The REC has a RIPAS request.
    OwnRequest,
    /// The granules that a CPU holds are of one state. No row asks it: it holds in every state, and the monitor answers other
    /// granules `misplaced`.
    OwnShape,
}
