//! The program `iwarp`.
#![tactic(auto)]

use std::process::ExitCode;

fn main(rt: HostRuntime) -> ExitCode {
    ExitCode::from(iw_cli::run(&rt).code())
}
