//! The log as a list of records: its blocks on a ring of the log device, and its tail in memory.
#![tactic(auto)]

mod laws;
mod reading;
mod store;

pub use laws::{full_tail, stays_beside};
pub use store::LogStore;

// Where the records of a block begin: behind the offset of their end.
const RECORDS_AT: usize = 2;
