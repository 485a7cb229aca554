//! A program in memory is solved with three plugins: what a person copies who writes one. README.md says what is
//! printed, and why.
#![tactic(auto)]

mod dearest;
mod floors;
mod halves;
mod solving;

use cip_io::HostSink;
use solving::solve;
use std::process::ExitCode;

fn main(rt: HostRuntime) -> ExitCode {
    let mut out = HostSink::new(&rt);
    ExitCode::from(solve(rt.alloc(), &mut out).unwrap_or(6))
}
