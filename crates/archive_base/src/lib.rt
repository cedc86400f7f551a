//! Where an archive goes on from: what the log of a database leaves unfinished.
#![tactic(auto)]

mod laws;
mod opening;
mod reading;

pub use laws::{base_agrees, heard_are_open};
pub use opening::Opening;
pub use reading::read_blocks;
