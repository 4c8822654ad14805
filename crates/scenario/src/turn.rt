//! Turns.

ghost use Rattle.std.specs.Prelude.{◌≡◌, ◌≢◌, ◌<◌, ◌≤◌, IfOk, IfSome, IfNone, map};
ghost use Rattle.std.specs.List.{AllByRecursion};
ghost use Rattle.rmm_spec.specs.declared.turn.Will.{Will};
ghost use Rattle.rmm_spec.specs.Scenario.{IsTurnText, turn_text, will_text};
ghost use Rattle.scenario.specs.SeenTexts.{seen_texts};

use rmm_spec::{Due, Will};
use std::alloc::{AllocError, Global};

/// The turn that a text is, of one of so many CPUs.
pub fn turn_from(text: &str, cpus: u8) -> Option<Due>
    requires { cpus ≤ 8 }
    ensures found { IfSome result (λ turn. turn.cpu < cpus) }
    ensures text { IfSome result (λ turn. text.now ≡ turn_text turn) }
    ensures none { IfNone result (¬ IsTurnText cpus text.now) }
{
    let bytes = text.as_bytes();
    if bytes.is_empty() {
        return None;
    }
    let digit = bytes[0];
    if digit < b'0' {
        return None;
    }
    let cpu = digit - b'0';
    if cpu >= cpus {
        return None;
    }
    match will_from(bytes.split_at(1).1) {
        Some(will) => Some(Due { cpu, will }),
        None => None,
    }
}

// What stands behind the CPU.
fn will_from(text: &[u8]) -> Option<Will>
    ensures found { IfSome result (λ will. text.now ≡ will_text will) }
    ensures none { IfNone result ((will : Will) → text.now ≢ will_text will) }
{
    match text {
        b"" => Some(Will::Go),
        b" giveup" => Some(Will::GiveUp),
        b" stop" => Some(Will::Stop),
        _ => None,
    }
}

/// The turns that are listed.
pub(crate) fn turns_from(
    alloc: Global,
    texts: &[&str],
    cpus: u8,
) -> Result<Option<Vec<Due>>, AllocError>
    requires { cpus ≤ 8 }
    ensures texts { IfOk result (λ found. IfSome found (λ turns. seen_texts texts.now ≡ map turn_text turns.items)) }
    ensures cpus { IfOk result (λ found. IfSome found (λ turns. AllByRecursion (λ turn. turn.cpu < cpus) turns.items)) }
    ensures none { IfOk result (λ found. IfNone found (¬ AllByRecursion (IsTurnText cpus) (seen_texts texts.now))) }
{
    let mut turns = Vec::new(alloc);
    for text in texts {
        let Some(turn) = turn_from(text, cpus) else {
            return Ok(None);
        };
        turns.push(turn)?;
    }
    Ok(Some(turns))
}
