//! Which turn of a scenario is at fault.

ghost use Rattle.std.specs.Prelude.{◌≡◌, ◌≤◌, IfNone, IfSome};
ghost use Rattle.scenario_report.specs.Flaws.{AreTurns, IsTurnFlaw};

use crate::Flaw;
use scenario::turn_from;

/// The first of these texts that is no turn of so many CPUs.
pub(crate) fn wrong_turn<'t>(turns: &[&'t str], cpus: u8) -> Option<Flaw<'t>>
    requires { cpus ≤ 8 }
    ensures some { IfSome result (IsTurnFlaw cpus turns.now) }
    ensures none { IfNone result (AreTurns cpus turns.now) }
{
    for (index, text) in turns.iter().enumerate() {
        let Some(_turn) = turn_from(text, cpus) else {
            return Some(Flaw::Turn { index, text, cpus });
        };
    }
    None
}
