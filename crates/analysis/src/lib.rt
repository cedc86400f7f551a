//! Which transactions a log leaves unfinished, and what of each remains to be undone: read from its records, one after
//! the other.
#![tactic(auto)]

mod analysis;
mod laws;
mod order;
mod table;

pub use analysis::{Analysis, Loser};
pub use laws::{losers_are_taken, sound_log_steps, table_of_records};
pub use order::Order;
