//! Three page caches over one list of touches, and what each of them counts.
#![tactic(auto)]

mod counts;
mod directory;
mod entry;
mod group;
mod machine;
mod policy;
mod pool;
mod queued;
mod rows;
mod sim;
mod table;

pub use counts::Counts;
pub use policy::Policy;
pub use rows::{rows_of_one_read, rows_of_two_reads};
pub use sim::Sim;
