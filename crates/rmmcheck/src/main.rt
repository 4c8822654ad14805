//! `rmmcheck check HISTORY CERT` judges a certificate for a history. `rmmcheck run SCENARIO` and `rmmcheck threads SCENARIO` play a
//! scenario, in turns and on threads, and judge what it leaves.
#![tactic(auto)]

use std::process::ExitCode;

fn main(rt: HostRuntime) -> ExitCode {
    ExitCode::from(run_commands::run(&rt, &rt))
}
