//! The database: sessions, record locks, and the log and the pages under them. Each call answers what the model answers
//! and leaves what the model leaves; a crash at any moment leaves devices that stand for a table after a prefix of the
//! commits.
#![tactic(auto)]

mod checkpointing;
mod engine;
mod laws;
mod marking;
mod reading;
mod restart;
mod room;
mod scan;
mod sessions;
mod setting;
mod transactions;
mod values;
mod writing;

pub use engine::Engine;
pub use laws::{queue_is_on_flash, rest_counts_nothing, versions_are_seen};
