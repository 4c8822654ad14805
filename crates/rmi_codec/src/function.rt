//! Functions, by their numbers.

ghost use Rattle.std.specs.Prelude.{◌≡◌, ◌≢◌, ◌≤◌, ◌∷◌, ℕ, List, length, take, IfSome, IfNone};
ghost use Rattle.rmm_spec.specs.declared.function_id.FunctionId.{FunctionId};
ghost use Rattle.rmm_spec.specs.Function.{number_of, word_count};
ghost use Rattle.rmm_spec.specs.Text.{fixed_hex, parts_of};
ghost use Rattle.rmi_codec.specs.FunctionText.{text_number};
ghost use Rattle.rmi_codec.specs.Spaced.{parts_behind};

use crate::numeral::is_end;
use rmm_spec::FunctionId;

// The function whose number's text has these bytes, read as one number with the first byte highest.
#[inline(always)]
#[tactic(auto, unfolding(crate::specs::FunctionText::text_number))]
fn function_spelled(bytes: u64) -> Option<FunctionId>
    ensures found { IfSome result (λ f. text_number f ≡ bytes) }
    ensures none { IfNone result ((f : FunctionId) → text_number f ≢ bytes) }
{
    let function = match bytes {
        0x6334_3030_3031_3531 => FunctionId::GranuleDelegate,
        0x6334_3030_3031_3532 => FunctionId::GranuleUndelegate,
        0x6334_3030_3031_3533 => FunctionId::DataCreate,
        0x6334_3030_3031_3534 => FunctionId::DataCreateUnknown,
        0x6334_3030_3031_3535 => FunctionId::DataDestroy,
        0x6334_3030_3031_3537 => FunctionId::RealmActivate,
        0x6334_3030_3031_3538 => FunctionId::RealmCreate,
        0x6334_3030_3031_3539 => FunctionId::RealmDestroy,
        0x6334_3030_3031_3561 => FunctionId::RecCreate,
        0x6334_3030_3031_3562 => FunctionId::RecDestroy,
        0x6334_3030_3031_3563 => FunctionId::RecEnter,
        0x6334_3030_3031_3564 => FunctionId::RttCreate,
        0x6334_3030_3031_3565 => FunctionId::RttDestroy,
        0x6334_3030_3031_3566 => FunctionId::RttMapUnprotected,
        0x6334_3030_3031_3631 => FunctionId::RttReadEntry,
        0x6334_3030_3031_3632 => FunctionId::RttUnmapUnprotected,
        0x6334_3030_3031_3636 => FunctionId::RttFold,
        0x6334_3030_3031_3638 => FunctionId::RttInitRipas,
        0x6334_3030_3031_3639 => FunctionId::RttSetRipas,
        0x6334_3030_3031_3932 => FunctionId::MeasurementRead,
        0x6334_3030_3031_3933 => FunctionId::MeasurementExtend,
        0x6334_3030_3031_3936 => FunctionId::RealmConfig,
        0x6334_3030_3031_3937 => FunctionId::IpaStateSet,
        0x6334_3030_3031_3938 => FunctionId::IpaStateGet,
        0x6334_3030_3031_3939 => FunctionId::HostCall,
        0x3834_3030_3030_3032 => FunctionId::CpuOff,
        0x3834_3030_3030_3038 => FunctionId::SystemOff,
        0x3030_3030_3030_3031 => FunctionId::Exit,
        _ => return None,
    };
    Some(function)
}

/// How many words a function takes.
#[inline(always)]
pub fn words_of(function: FunctionId) -> usize
    ensures { result ≡ word_count function }
{
    function.row().words
}

// The function whose number a text begins with.
#[inline(always)]
pub(crate) fn function_front(text: &[u8]) -> Option<FunctionId>
    requires { 8 ≤ length text.now }
    ensures found { IfSome result (λ f. take 8 text.now ≡ fixed_hex 8 (number_of f)) }
    ensures none { IfNone result ((f : FunctionId) → take 8 text.now ≢ fixed_hex 8 (number_of f)) }
{
    let bytes = [
        text[0], text[1], text[2], text[3], text[4], text[5], text[6], text[7],
    ];
    let function = function_spelled(u64::from_be_bytes(bytes))?;
    Some(function)
}

// The function whose number is the first part of a line.
#[inline(always)]
pub(crate) fn function_prefix(line: &[u8]) -> Option<FunctionId>
    ensures found { IfSome result (λ f. parts_of line.now ≡ fixed_hex 8 (number_of f) ∷ parts_behind 8 line.now) }
    ensures inside { IfSome result (λ f. 8 ≤ length line.now) }
    ensures none { IfNone result ((f : FunctionId) (rest : List (List ℕ)) → parts_of line.now ≢ fixed_hex 8 (number_of f) ∷ rest) }
{
    if line.len() < 8 {
        return None;
    }
    if !is_end(line, 8) {
        return None;
    }
    let function = function_front(line)?;
    Some(function)
}
