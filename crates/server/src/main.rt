//! A server of many connections over TCP (`server --help`).
#![tactic(auto)]

use std::process::ExitCode;

fn main(rt: HostRuntime) -> ExitCode {
    ExitCode::from(iw_server::run(&rt))
}
