//! A set of LSNs that takes little where many stand next to one another.
#![tactic(auto)]

mod lsn_set;
mod row;

pub use lsn_set::LsnSet;
