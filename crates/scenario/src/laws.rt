//! The laws of what bytes state: each is the contract of a function that does nothing.

ghost use Rattle.std.specs.Prelude.{◌≡◌, ◌≢◌, ℕ, List};
ghost use Rattle.scenario.specs.declared.fault.ScenarioFault.{ScenarioFault};
ghost use Rattle.scenario.specs.declared.fault.ScenarioFault.TheVariants.{NoMemory};
ghost use Rattle.rmm_spec.specs.Scenario.{Scenario};
ghost use Rattle.scenario.specs.ScenarioText.{IsScenarioText, IsFirstFault};

/// Bytes state one scenario at most.
pub fn one_scenario()
    ensures { (bytes : List ℕ) (s t : Scenario) → IsScenarioText bytes s → IsScenarioText bytes t → s ≡ t }
{}

/// Bytes that state a scenario have no fault, but memory may be refused.
pub fn no_fault()
    ensures { (fault : ScenarioFault) (bytes : List ℕ) (scenario : Scenario)
        → IsScenarioText bytes scenario → IsFirstFault fault bytes → fault ≡ NoMemory }
{}

/// Bytes have one first fault at most, whether or not memory is refused.
pub fn one_fault()
    ensures { (f g : ScenarioFault) (bytes : List ℕ) → f ≢ NoMemory → g ≢ NoMemory → IsFirstFault f bytes → IsFirstFault g bytes → f ≡ g }
{}
