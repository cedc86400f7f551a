//! The pages that are in memory: a list, the one that was touched last in front, of at most a given size.
#![tactic(auto)]

mod frame;
mod index;
mod laws;
mod pool;
mod pool_entry;

pub use frame::Frame;
pub use laws::frames_of_pages;
pub use pool::Pool;
