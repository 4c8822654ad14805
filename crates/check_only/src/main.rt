//! `check_only HISTORY CERT` is `rmmcheck check HISTORY CERT` without options and scenarios: `./rmmcheck` builds no more for a check.
#![tactic(auto)]

use std::process::ExitCode;

fn main(rt: HostRuntime) -> ExitCode {
    ExitCode::from(check_command::run(&rt))
}
