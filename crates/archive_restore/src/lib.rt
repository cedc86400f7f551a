//! A database as it was after some commit, from an archive of the log: the work of `restore`.
#![tactic(auto)]

mod beginning;
mod fault;
mod restored;
mod restoring;
mod writing;

pub use beginning::begin;
pub use fault::Fault;
pub use restored::restore;
pub use restoring::Restoring;
pub use writing::write_net;
