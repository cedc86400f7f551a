//! Whether the input is an archive of the log, and of how many commits: the work of `verify`.
#![tactic(auto)]

mod halt;
mod hearing;
mod run;

pub use run::verify;
