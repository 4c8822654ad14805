//! The conditions of each command on its words alone.

ghost use Rattle.std.specs.Prelude.{◌≡◌, IfOk};
ghost use Rattle.reasons.specs.Lists as spec;

use crate::asked::Asked;
use crate::lists::{of_word, one};
use crate::test::WordTest;
use rmm_spec::{Call, Condition};
use std::alloc::{AllocError, Global};

/// Where the host's memory ends: its addresses have 48 bits.
const HOST_END: u64 = 1 << 48;

/// The conditions of a command on its words alone.
#[tactic(auto, unfolding(crate::specs::Lists::word_conditions))]
pub(crate) fn word_conditions_of(alloc: Global, call: &Call) -> Result<Vec<Asked>, AllocError>
    ensures { IfOk result (λ list. list.items ≡ spec.word_conditions call.now) }
{
    match *call {
        Call::DataCreate { ipa, flags, .. } => data_create(alloc, ipa, flags),
        Call::DataCreateUnknown { ipa, .. } => one(alloc, page(2, ipa)),
        Call::DataDestroy { ipa, .. } | Call::RttUnmapUnprotected { ipa, .. } => {
            one(alloc, page(1, ipa))
        }
        Call::RealmCreate {
            rd,
            root,
            width,
            level,
            vmid,
            ..
        } => realm_create(alloc, rd, root, width, level, vmid),
        Call::RecCreate {
            rec,
            flags,
            aux0,
            aux1,
            ..
        } => rec_create(alloc, rec, flags, aux0, aux1),
        Call::RttCreate { ipa, level, .. } => {
            on_level(alloc, 3, level, 2, ipa, level.saturating_sub(1))
        }
        Call::RttRemove { ipa, level, .. } => {
            on_level(alloc, 2, level, 1, ipa, level.saturating_sub(1))
        }
        Call::RttReadEntry { ipa, level, .. } => on_level(alloc, 2, level, 1, ipa, level),
        Call::RttMapUnprotected { ipa, page, .. } => map_unprotected(alloc, ipa, page),
        Call::RttInitRipas { base, top, .. } => init_ripas(alloc, base, top),
        Call::MeasurementRead { index } => one(
            alloc,
            of_word(0, index, Condition::IndexBound, WordTest::AtMost(4)),
        ),
        Call::MeasurementExtend { index, size, .. } => measurement_extend(alloc, index, size),
        Call::IpaStateSet { base, top, ripas } => ipa_state_set(alloc, base, top, ripas),
        Call::IpaStateGet { ipa } => one(alloc, page(0, ipa)),
        Call::HostCall { imm } => one(
            alloc,
            of_word(0, imm, Condition::OwnImm, WordTest::Below(0x10000)),
        ),
        _ => Ok(Vec::new(alloc)),
    }
}

// An address at which a page begins.
fn page(index: u8, ipa: u64) -> Asked
    ensures { result ≡ spec.of_page index ipa }
{
    of_word(index, ipa, Condition::IpaAlign, WordTest::Page)
}

// A level, and an address at which an entry of another level begins.
fn on_level(
    alloc: Global,
    at: u8,
    level: u64,
    index: u8,
    ipa: u64,
    unit: u64,
) -> Result<Vec<Asked>, AllocError>
    ensures { IfOk result (λ list. list.items ≡ spec.level_words at level index ipa unit) }
{
    let bound = of_word(at, level, Condition::LevelBound, WordTest::AtMost(3));
    let aligned = of_word(index, ipa, Condition::IpaAlign, WordTest::Entry(unit));
    Ok(vec![in alloc; bound, aligned]?)
}

fn data_create(alloc: Global, ipa: u64, flags: u64) -> Result<Vec<Asked>, AllocError>
    ensures { IfOk result (λ list. list.items ≡ spec.data_create_words ipa flags) }
{
    let flags = of_word(4, flags, Condition::OwnFlags, WordTest::AtMost(1));
    let aligned = page(2, ipa);
    Ok(vec![in alloc; flags, aligned]?)
}

fn realm_create(
    alloc: Global,
    rd: u64,
    root: u64,
    width: u64,
    level: u64,
    vmid: u64,
) -> Result<Vec<Asked>, AllocError>
    ensures { IfOk result (λ list. list.items ≡ spec.realm_create_words rd root width level vmid) }
{
    let other = WordTest::Apart { index: 0, word: rd };
    let apart = of_word(1, root, Condition::Alias, other);
    let wide = of_word(2, width, Condition::ParamsSupp, WordTest::Width);
    let begins = of_word(3, level, Condition::RttNumLevel, WordTest::RootOf(width));
    let few = of_word(4, vmid, Condition::VmidValid, WordTest::AtMost(0xff));
    Ok(vec![in alloc; apart, wide, begins, few]?)
}

fn rec_create(
    alloc: Global,
    rec: u64,
    flags: u64,
    aux0: u64,
    aux1: u64,
) -> Result<Vec<Asked>, AllocError>
    ensures { IfOk result (λ list. list.items ≡ spec.rec_create_words rec flags aux0 aux1) }
{
    let apart = WordTest::Apart {
        index: 1,
        word: rec,
    };
    let other = WordTest::Apart {
        index: 4,
        word: aux0,
    };
    let first = of_word(4, aux0, Condition::AuxAlias, apart);
    let second = of_word(5, aux1, Condition::AuxAlias, apart);
    let third = of_word(5, aux1, Condition::AuxAlias, other);
    let flags = of_word(3, flags, Condition::OwnFlags, WordTest::AtMost(1));
    Ok(vec![in alloc; first, second, third, flags]?)
}

fn map_unprotected(alloc: Global, ipa: u64, address: u64) -> Result<Vec<Asked>, AllocError>
    ensures { IfOk result (λ list. list.items ≡ spec.rtt_map_unprotected_words ipa address) }
{
    let aligned = page(1, ipa);
    let begins = of_word(2, address, Condition::OwnPage, WordTest::Page);
    let below = of_word(2, address, Condition::OwnPage, WordTest::Below(HOST_END));
    Ok(vec![in alloc; aligned, begins, below]?)
}

fn init_ripas(alloc: Global, base: u64, top: u64) -> Result<Vec<Asked>, AllocError>
    ensures { IfOk result (λ list. list.items ≡ spec.rtt_init_ripas_words base top) }
{
    let end = WordTest::BelowWord {
        index: 2,
        word: top,
    };
    let first = of_word(1, base, Condition::OwnBase, WordTest::Page);
    let last = of_word(2, top, Condition::TopGranAlign, WordTest::Page);
    let below = of_word(1, base, Condition::SizeValid, end);
    Ok(vec![in alloc; first, last, below]?)
}

fn measurement_extend(alloc: Global, index: u64, size: u64) -> Result<Vec<Asked>, AllocError>
    ensures { IfOk result (λ list. list.items ≡ spec.measurement_extend_words index size) }
{
    let bound = of_word(0, index, Condition::IndexBound, WordTest::Between(1, 4));
    let few = of_word(1, size, Condition::SizeBound, WordTest::Between(1, 0x40));
    Ok(vec![in alloc; bound, few]?)
}

fn ipa_state_set(alloc: Global, base: u64, top: u64, ripas: u64) -> Result<Vec<Asked>, AllocError>
    ensures { IfOk result (λ list. list.items ≡ spec.ipa_state_set_words base top ripas) }
{
    let end = WordTest::BelowWord {
        index: 1,
        word: top,
    };
    let first = of_word(0, base, Condition::BaseAlign, WordTest::Page);
    let last = of_word(1, top, Condition::TopAlign, WordTest::Page);
    let below = of_word(0, base, Condition::SizeValid, end);
    let valid = of_word(2, ripas, Condition::RipasValid, WordTest::AtMost(1));
    Ok(vec![in alloc; first, last, below, valid]?)
}
