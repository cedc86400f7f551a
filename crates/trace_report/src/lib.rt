//! What three page caches do with a trace of touches that stands on the input: it is heard line by line, and their
//! counts are told.
#![tactic(auto)]

mod halt;
mod machines;
mod report;
mod run;
mod touch_line;
mod trace;

pub use run::simulate;
