//! What is said on standard error where the words are wrong or the work can't be done. No line that is told and no
//! status depends on it, and what can't be said is left unsaid.
#![tactic(auto)]

mod saying;
mod seen;
mod words;

pub use saying::say;
pub use seen::{Seen, see};
pub use words::{Number, Wrong, find_wrong};
