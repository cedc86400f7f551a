//! The locks of records: which sessions have read and which have written which records.
#![tactic(auto)]

mod lock;
mod table;

pub use lock::Lock;
pub use table::{Busy, LockTable};
