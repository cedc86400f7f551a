//! The active sessions, and what of the log they may still need.
#![tactic(auto)]

mod active;
mod table;

pub use active::Active;
pub use table::TxnTable;
