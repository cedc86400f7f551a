//! Writing pages of the cache back to the disk, all of them before one sync.
#![tactic(auto)]

mod staging;

pub use staging::stage;
