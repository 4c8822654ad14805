//! The law of facts: a reply that some deny isn't given while they last.

ghost use Rattle.std.specs.Prelude.{ℕ, [], None, take};
ghost use Rattle.rmm_spec.specs.HistoryText.{History, IsHistory};
ghost use Rattle.verdict_laws.specs.HeldFacts.{IsDeniedEitherWay, IsDeniedWhere};
ghost use Rattle.verdict_laws.specs.Order.{LeadsNowhere};
ghost use Rattle.verdict_laws.specs.Parts.{first_part};

use rmm_spec::Tag;

/// What some calls make so and others end. Addresses are in bytes.
#[derive(Clone, Copy)]
pub enum Fact {
    /// The realm isn't activated.
    NewRealm { rd: u64 },
    /// The granule has the tag.
    Tagged { granule: u64, tag: Tag },
    /// The realm is there, and its addresses have so many bits.
    Wide { rd: u64, width: u64 },
    /// The address has an entry of the last level, which is unassigned and protected.
    Unassigned { rd: u64, ipa: u64 },
    /// The address has an entry of the last level, which is unassigned, protected and RAM.
    UnassignedRam { rd: u64, ipa: u64 },
    /// The address has an entry of the last level, with the page.
    Assigned { rd: u64, ipa: u64, page: u64 },
    /// The address has an entry of the last level, which is protected and of the RIPAS, by its number.
    HasRipas { rd: u64, ipa: u64, ripas: u64 },
    /// No realm but the one at the address, if one is there, has the VMID.
    SoleVmid { rd: u64, vmid: u64 },
    /// The granule is the root table of the realm or an auxiliary granule of the REC at the owner's address, or it is Delegated.
    PartOf { granule: u64, owner: u64 },
    /// A table of the realm's level covers the address.
    Covered { rd: u64, level: u8, ipa: u64 },
    /// The realm is there, and was activated.
    Activated { rd: u64 },
    /// The REC is there, and the realm's.
    OwnedBy { rec: u64, rd: u64 },
    /// The REC is there, was made runnable, and didn't turn itself off.
    Runnable { rec: u64 },
    /// The REC is there, and runs on no CPU.
    Idle { rec: u64 },
    /// The REC is there, and runs on the CPU.
    RunsOn { rec: u64, cpu: u8 },
    /// The REC is there, runs on no CPU, and asks for a RIPAS from the address on, or for none where that is 0.
    AsksFrom { rec: u64, base: u64 },
    /// The REC is there, and runs on a CPU or asks for a RIPAS from one of these addresses on, or for none, which is from 0 on.
    RunsOrAsksWithin { rec: u64, least: u64, most: u64 },
    /// The REC is there, and runs on a CPU or asks for the RIPAS, by its number, up to the address.
    RunsOrAsksTo { rec: u64, top: u64, ripas: u64 },
}

/// That of two calls, by the places at which they are made, the one comes before the other.
#[derive(Clone, Copy)]
pub struct InTurn {
    pub first: u32,
    pub second: u32,
}

/// First events of a history, so many, have no order where one of their replies is denied by facts that hold while its call may take effect, by
/// themselves or where its CPU stands.
pub fn nowhere_denied()
    ensures { (history : History) (count : ℕ) → IsHistory history → IsDeniedWhere None history.config.granules (take count history.events)
        → LeadsNowhere (first_part count history) [] }
{}

/// Nor have they one where, whichever of two calls comes first, facts deny a reply that hold then while its call may take effect.
pub fn nowhere_either_way()
    ensures { (history : History) (count : ℕ) → IsHistory history → IsDeniedEitherWay history.config.granules (take count history.events)
        → LeadsNowhere (first_part count history) [] }
{}
