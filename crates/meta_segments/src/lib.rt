//! Segments: the heads of four groups of frames, saved together, so that a start needn't read each
//! group.
#![tactic(auto)]

mod laws;
mod segment;

pub use laws::{one_segment, segments_follow};
pub use segment::{SEGMENT_HEADS, SEGMENT_LEN, segment_heads, write_segment};
