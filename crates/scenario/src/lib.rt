//! Scenarios: how large a machine is, what each CPU calls, and who takes which turn; as values, and as files that are read and written.
//! It promises that a scenario keeps within its limits; that a file is read exactly, as the scenario that its bytes state or the first
//! fault that they have (the laws `one_scenario` and `no_fault`); and that what is written states the scenario that it was written of.
//! What a scenario and its file are is in `specs/Scenario.antt` and `specs/ScenarioKeys.antt` of `rmm_spec` and in `specs/ScenarioText.antt` here.
//! Nothing here waits. What plays, draws or reports a scenario depends on it.
#![tactic(auto)]

mod calls;
mod fault;
mod keys;
mod laws;
mod limits;
mod lists;
mod parts;
mod program;
mod reading;
mod scenario;
mod turn;
mod writing;

pub use calls::write_calls;
pub use fault::ScenarioFault;
pub use keys::{Stated, is_key, lists_of_texts, texts, value_at};
pub use laws::{no_fault, one_fault, one_scenario};
pub use limits::are_few;
pub use parts::is_scenario;
pub use reading::read_scenario;
pub use rmm_spec::{Due, Will};
pub use scenario::{Scenario, copied_programs};
pub use turn::turn_from;
pub use writing::write_scenario;
