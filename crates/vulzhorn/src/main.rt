//! The database of numbered records: its words, its lines of input and output, and the log that a crash at any moment
//! leaves readable.
#![tactic(auto)]

use std::process::ExitCode;

fn main(rt: HostRuntime) -> ExitCode {
    ExitCode::from(host::run(&rt))
}
