//! The pages of the database: a pool in memory over the queue on flash and the disk. The log is sealed up to a page's
//! last change before the page leaves the pool.
#![tactic(auto)]

mod flushing;
mod laws;
mod listing;
mod pushing;
mod reading;
mod store;
mod taking;
mod telling;

pub use laws::{pages_beside_the_log, stays_beside, touch_then_change};
pub use store::PageStore;
