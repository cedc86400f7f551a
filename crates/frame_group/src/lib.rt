//! Groups of frames: eight heads and eight pages, as flash has them, and what lists of frames say of
//! the pages of the disk.
#![tactic(auto)]

mod group;
mod laws;
#[cfg(test)]
mod tests;

pub use group::{GROUP_LEN, HEADS_LEN, PAGE_LEN, group_heads, put_frame};
pub use laws::{group_dropped, group_pushed, no_frames, staged};
