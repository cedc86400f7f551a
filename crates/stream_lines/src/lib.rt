//! The lines of an input that is an archive of the log, taken piece by piece.
#![tactic(auto)]

mod source;

pub use source::{Fault, Heard, Source};
