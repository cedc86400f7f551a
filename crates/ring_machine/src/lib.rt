//! The rings of the three devices as a machine: which unit each command and a restart append, and which
//! ring they find at its end first. The functions do nothing: each states its laws as clauses.
#![tactic(auto)]

mod laws;
mod rows;

pub use laws::{machines_agree, numbers_are_few, octets_are_spelled, ring_ops_compose};
pub use rows::rows_of_blocks;
