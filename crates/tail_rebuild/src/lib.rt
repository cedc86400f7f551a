//! The heads of all groups that stand in the queue on flash, read at a start: from the segments that were saved, and
//! from the at most four groups that aren't in segments.
#![tactic(auto)]

mod finding;
mod heads;
mod laws;
mod listing;
mod reading;
mod saving;

pub use finding::rebuild;
pub use heads::{HeadList, Heads};
pub use laws::segments_follow;
pub use saving::save_due;
