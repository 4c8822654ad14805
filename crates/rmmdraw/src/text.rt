//! What is printed.

ghost use Rattle.std.specs.Prelude.{◌≡◌, IfOk, false, true};
ghost use Rattle.scenario.specs.ScenarioText.{IsScenarioText};
ghost use Rattle.scenario.specs.CallLines.{calls_from};

use scenario::{Scenario, write_calls, write_scenario};
use std::alloc::{AllocError, Global};

/// A file that states the scenario, or lines of its calls.
pub(crate) fn text_of(
    alloc: Global,
    scenario: &Scenario,
    has_calls: bool,
) -> Result<Vec<u8>, AllocError>
    ensures file { has_calls ≡ false → IfOk result (λ text. IsScenarioText text.items scenario.now) }
    ensures calls { has_calls ≡ true → IfOk result (λ text. text.items ≡ calls_from 0 scenario.now.programs) }
{
    if has_calls {
        let mut lines = Vec::new(alloc);
        write_calls(scenario.programs(), &mut lines)?;
        return Ok(lines);
    }
    Ok(write_scenario(alloc, scenario)?.into_bytes())
}
