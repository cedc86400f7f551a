//! Numbers in octets, the highest octet first, the heads of frames, and the sizes that more than one
//! format keeps to.
#![tactic(auto)]

mod fields;
mod frame_head;
mod laws;

pub use fields::{get_u16, get_u32, get_u64, put_u16, put_u32, put_u64};
pub use frame_head::{
    BadHead, FrameHead, HEAD_LEN, Mark, are_group_heads, read_head, read_heads, write_head,
    write_heads,
};
pub use laws::group_heads;

/// The most octets that a value has.
pub const VALUE_MAX: usize = 200;
