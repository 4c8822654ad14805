//! The functions that a command can call for.

/// The function of a command: an RMI command, a realm call (RSI or PSCI), or the exit of a REC to the host.
/// Arm's function identifiers; `Exit` is this project's own.
#[derive(Clone, Copy, PartialEq)]
pub enum FunctionId {
    GranuleDelegate,
    GranuleUndelegate,
    DataCreate,
    DataCreateUnknown,
    DataDestroy,
    RealmActivate,
    RealmCreate,
    RealmDestroy,
    RecCreate,
    RecDestroy,
    RecEnter,
    RttCreate,
    RttDestroy,
    RttMapUnprotected,
    RttReadEntry,
    RttUnmapUnprotected,
    RttFold,
    RttInitRipas,
    RttSetRipas,
    MeasurementRead,
    MeasurementExtend,
    RealmConfig,
    IpaStateSet,
    IpaStateGet,
    HostCall,
    CpuOff,
    SystemOff,
    Exit,
}

/// What is known of a function by itself: its number, how many words it takes, and what people call it and them.
#[derive(Clone, Copy)]
pub struct FunctionRow {
    pub number: u64,
    pub words: usize,
    /// The function's name and those of its words, with a space before each. The last stands for all words that are left.
    pub names: &'static str,
}

impl FunctionId {
    ghost use Rattle.std.specs.Prelude.{◌≡◌};
    ghost use Rattle.rmm_spec.specs.Function.{functions, number_of, word_count};

    /// All functions, in the order of their numbers, with PSCI's and the exit at the end.
    pub fn all() -> [FunctionId; 28]
        ensures { result ≡ functions }
    {
        [
            FunctionId::GranuleDelegate,
            FunctionId::GranuleUndelegate,
            FunctionId::DataCreate,
            FunctionId::DataCreateUnknown,
            FunctionId::DataDestroy,
            FunctionId::RealmActivate,
            FunctionId::RealmCreate,
            FunctionId::RealmDestroy,
            FunctionId::RecCreate,
            FunctionId::RecDestroy,
            FunctionId::RecEnter,
            FunctionId::RttCreate,
            FunctionId::RttDestroy,
            FunctionId::RttMapUnprotected,
            FunctionId::RttReadEntry,
            FunctionId::RttUnmapUnprotected,
            FunctionId::RttFold,
            FunctionId::RttInitRipas,
            FunctionId::RttSetRipas,
            FunctionId::MeasurementRead,
            FunctionId::MeasurementExtend,
            FunctionId::RealmConfig,
            FunctionId::IpaStateSet,
            FunctionId::IpaStateGet,
            FunctionId::HostCall,
            FunctionId::CpuOff,
            FunctionId::SystemOff,
            FunctionId::Exit,
        ]
    }

    /// Its row.
    #[inline(always)]
    #[tactic(auto, unfolding(crate::specs::Function::row_of, crate::specs::Function::number_of, crate::specs::Function::word_count))]
    pub fn row(self) -> FunctionRow
        ensures number { result.number ≡ number_of self }
        ensures words { result.words ≡ word_count self }
    {
        match self {
            FunctionId::GranuleDelegate => of(0xc4000151, 1, "GRANULE_DELEGATE g"),
            FunctionId::GranuleUndelegate => of(0xc4000152, 1, "GRANULE_UNDELEGATE g"),
            FunctionId::DataCreate => of(0xc4000153, 9, "DATA_CREATE rd data ipa src flags digest"),
            FunctionId::DataCreateUnknown => of(0xc4000154, 3, "DATA_CREATE_UNKNOWN rd data ipa"),
            FunctionId::DataDestroy => of(0xc4000155, 2, "DATA_DESTROY rd ipa"),
            FunctionId::RealmActivate => of(0xc4000157, 1, "REALM_ACTIVATE rd"),
            FunctionId::RealmCreate => of(
                0xc4000158,
                6,
                "REALM_CREATE rd root width level vmid algo",
            ),
            FunctionId::RealmDestroy => of(0xc4000159, 1, "REALM_DESTROY rd"),
            FunctionId::RecCreate => of(0xc400015a, 6, "REC_CREATE rd rec mpidr flags aux0 aux1"),
            FunctionId::RecDestroy => of(0xc400015b, 1, "REC_DESTROY rec"),
            FunctionId::RecEnter => of(0xc400015c, 1, "REC_ENTER rec"),
            FunctionId::RttCreate => of(0xc400015d, 4, "RTT_CREATE rd rtt ipa level"),
            FunctionId::RttDestroy => of(0xc400015e, 3, "RTT_DESTROY rd ipa level"),
            FunctionId::RttMapUnprotected => of(0xc400015f, 3, "RTT_MAP_UNPROTECTED rd ipa pa"),
            FunctionId::RttReadEntry => of(0xc4000161, 3, "RTT_READ_ENTRY rd ipa level"),
            FunctionId::RttUnmapUnprotected => of(0xc4000162, 2, "RTT_UNMAP_UNPROTECTED rd ipa"),
            FunctionId::RttFold => of(0xc4000166, 3, "RTT_FOLD rd ipa level"),
            FunctionId::RttInitRipas => of(0xc4000168, 3, "RTT_INIT_RIPAS rd base top"),
            FunctionId::RttSetRipas => of(0xc4000169, 4, "RTT_SET_RIPAS rd rec base top"),
            FunctionId::MeasurementRead => of(0xc4000192, 1, "MEASUREMENT_READ i"),
            FunctionId::MeasurementExtend => of(0xc4000193, 10, "MEASUREMENT_EXTEND i size values"),
            FunctionId::RealmConfig => of(0xc4000196, 0, "REALM_CONFIG"),
            FunctionId::IpaStateSet => of(0xc4000197, 3, "IPA_STATE_SET base top ripas"),
            FunctionId::IpaStateGet => of(0xc4000198, 1, "IPA_STATE_GET ipa"),
            FunctionId::HostCall => of(0xc4000199, 1, "HOST_CALL imm"),
            FunctionId::CpuOff => of(0x84000002, 0, "CPU_OFF"),
            FunctionId::SystemOff => of(0x84000008, 0, "SYSTEM_OFF"),
            FunctionId::Exit => of(1, 0, "Exit"),
        }
    }

    /// Its number, by which texts name it and measurements count it.
    pub fn number(self) -> u64
        ensures { result ≡ number_of self }
    {
        self.row().number
    }
}

#[inline(always)]
fn of(number: u64, words: usize, names: &'static str) -> FunctionRow
    ensures number { result.number ≡ number }
    ensures words { result.words ≡ words }
{
    FunctionRow {
        number,
        words,
        names,
    }
}

ghost use Rattle.std.specs.Prelude.{◌≡◌};
