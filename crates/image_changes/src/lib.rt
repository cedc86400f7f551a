//! What the layers above the rings do to the devices, as a list of five kinds of change: a log block is sealed, disk
//! pages are rewritten, a group or a segment of the flash cache is appended, or a master unit is.
//!
//! A call of such a layer says of a crash which list of changes leads from the image before the call to the one that
//! is left. Calls in sequence then make their lists one after the other.
#![tactic(auto)]

mod laws;

pub use laws::{append_makes, changes_add_up, fronts_add_up, ring_kept};
