//! A command with its words by name.

use crate::function_id::FunctionId;

/// How a translation table is taken out.
#[derive(Clone, Copy)]
pub enum Removal {
    /// RTT_DESTROY: none of its entries keeps it in use.
    Destroy,
    /// RTT_FOLD: all its entries are unassigned alike.
    Fold,
}

/// A command as its function and words mean it. Functions are named as in DEN0137; which words there are is this profile's
/// selection. Addresses and sizes are in bytes; a word that the caller left out is zero.
#[derive(Clone, Copy)]
pub enum Call {
    GranuleDelegate {
        granule: u64,
    },
    GranuleUndelegate {
        granule: u64,
    },
    DataCreate {
        rd: u64,
        granule: u64,
        ipa: u64,
        source: u64,
        flags: u64,
        digest: [u64; 4],
    },
    DataCreateUnknown {
        rd: u64,
        granule: u64,
        ipa: u64,
    },
    DataDestroy {
        rd: u64,
        ipa: u64,
    },
    RealmActivate {
        rd: u64,
    },
    RealmCreate {
        rd: u64,
        root: u64,
        width: u64,
        level: u64,
        vmid: u64,
        algo: u64,
    },
    RealmDestroy {
        rd: u64,
    },
    RecCreate {
        rd: u64,
        rec: u64,
        mpidr: u64,
        flags: u64,
        aux0: u64,
        aux1: u64,
    },
    RecDestroy {
        rec: u64,
    },
    RecEnter {
        rec: u64,
    },
    RttCreate {
        rd: u64,
        rtt: u64,
        ipa: u64,
        level: u64,
    },
    RttRemove {
        removal: Removal,
        rd: u64,
        ipa: u64,
        level: u64,
    },
    RttMapUnprotected {
        rd: u64,
        ipa: u64,
        page: u64,
    },
    RttReadEntry {
        rd: u64,
        ipa: u64,
        level: u64,
    },
    RttUnmapUnprotected {
        rd: u64,
        ipa: u64,
    },
    RttInitRipas {
        rd: u64,
        base: u64,
        top: u64,
    },
    RttSetRipas {
        rd: u64,
        rec: u64,
        base: u64,
        top: u64,
    },
    MeasurementRead {
        index: u64,
    },
    MeasurementExtend {
        index: u64,
        size: u64,
        values: [u64; 8],
    },
    RealmConfig,
    IpaStateSet {
        base: u64,
        top: u64,
        ripas: u64,
    },
    IpaStateGet {
        ipa: u64,
    },
    HostCall {
        imm: u64,
    },
    CpuOff,
    SystemOff,
    Exit,
}

impl Call {
    ghost use Rattle.std.specs.Prelude.{◌≡◌};
    ghost use Rattle.rmm_spec.specs.Call.{call_from};

    /// What a function is called for with these words.
    #[tactic(auto, unfolding(crate::specs::Call::call_from))]
    pub fn of(function: FunctionId, words: &[u64]) -> Self
        ensures { result ≡ call_from function words.now }
    {
        match function {
            FunctionId::GranuleDelegate => Call::GranuleDelegate {
                granule: word(words, 0),
            },
            FunctionId::GranuleUndelegate => Call::GranuleUndelegate {
                granule: word(words, 0),
            },
            FunctionId::DataCreate => Call::DataCreate {
                rd: word(words, 0),
                granule: word(words, 1),
                ipa: word(words, 2),
                source: word(words, 3),
                flags: word(words, 4),
                digest: [
                    word(words, 5),
                    word(words, 6),
                    word(words, 7),
                    word(words, 8),
                ],
            },
            FunctionId::DataCreateUnknown => Call::DataCreateUnknown {
                rd: word(words, 0),
                granule: word(words, 1),
                ipa: word(words, 2),
            },
            FunctionId::DataDestroy => Call::DataDestroy {
                rd: word(words, 0),
                ipa: word(words, 1),
            },
            FunctionId::RealmActivate => Call::RealmActivate { rd: word(words, 0) },
            FunctionId::RealmCreate => Call::RealmCreate {
                rd: word(words, 0),
                root: word(words, 1),
                width: word(words, 2),
                level: word(words, 3),
                vmid: word(words, 4),
                algo: word(words, 5),
            },
            FunctionId::RealmDestroy => Call::RealmDestroy { rd: word(words, 0) },
            FunctionId::RecCreate => Call::RecCreate {
                rd: word(words, 0),
                rec: word(words, 1),
                mpidr: word(words, 2),
                flags: word(words, 3),
                aux0: word(words, 4),
                aux1: word(words, 5),
            },
            FunctionId::RecDestroy => Call::RecDestroy {
                rec: word(words, 0),
            },
            FunctionId::RecEnter => Call::RecEnter {
                rec: word(words, 0),
            },
            FunctionId::RttCreate => Call::RttCreate {
                rd: word(words, 0),
                rtt: word(words, 1),
                ipa: word(words, 2),
                level: word(words, 3),
            },
            FunctionId::RttDestroy => Call::RttRemove {
                removal: Removal::Destroy,
                rd: word(words, 0),
                ipa: word(words, 1),
                level: word(words, 2),
            },
            FunctionId::RttMapUnprotected => Call::RttMapUnprotected {
                rd: word(words, 0),
                ipa: word(words, 1),
                page: word(words, 2),
            },
            FunctionId::RttReadEntry => Call::RttReadEntry {
                rd: word(words, 0),
                ipa: word(words, 1),
                level: word(words, 2),
            },
            FunctionId::RttUnmapUnprotected => Call::RttUnmapUnprotected {
                rd: word(words, 0),
                ipa: word(words, 1),
            },
            FunctionId::RttFold => Call::RttRemove {
                removal: Removal::Fold,
                rd: word(words, 0),
                ipa: word(words, 1),
                level: word(words, 2),
            },
            FunctionId::RttInitRipas => Call::RttInitRipas {
                rd: word(words, 0),
                base: word(words, 1),
                top: word(words, 2),
            },
            FunctionId::RttSetRipas => Call::RttSetRipas {
                rd: word(words, 0),
                rec: word(words, 1),
                base: word(words, 2),
                top: word(words, 3),
            },
            FunctionId::MeasurementRead => Call::MeasurementRead {
                index: word(words, 0),
            },
            FunctionId::MeasurementExtend => Call::MeasurementExtend {
                index: word(words, 0),
                size: word(words, 1),
                values: [
                    word(words, 2),
                    word(words, 3),
                    word(words, 4),
                    word(words, 5),
                    word(words, 6),
                    word(words, 7),
                    word(words, 8),
                    word(words, 9),
                ],
            },
            FunctionId::RealmConfig => Call::RealmConfig,
            FunctionId::IpaStateSet => Call::IpaStateSet {
                base: word(words, 0),
                top: word(words, 1),
                ripas: word(words, 2),
            },
            FunctionId::IpaStateGet => Call::IpaStateGet {
                ipa: word(words, 0),
            },
            FunctionId::HostCall => Call::HostCall {
                imm: word(words, 0),
            },
            FunctionId::CpuOff => Call::CpuOff,
            FunctionId::SystemOff => Call::SystemOff,
            FunctionId::Exit => Call::Exit,
        }
    }
}

ghost use Rattle.std.specs.Prelude.{◌≡◌, slice_index};

// One of the words, and zero where it isn't there.
fn word(words: &[u64], index: usize) -> u64
    ensures { result ≡ slice_index words.now index }
{
    words.get(index).copied().unwrap_or(0)
}
