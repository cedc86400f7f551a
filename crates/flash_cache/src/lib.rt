//! The queue of pages on flash: its groups stand on a ring, and a directory in memory knows the last frame of each
//! page.
#![tactic(auto)]

mod cache;
mod laws;
mod leaving;
mod making;

pub use cache::{FlashCache, PushPlan};
pub use laws::unframed_is_disk;
