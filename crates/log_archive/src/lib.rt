//! The lines of a log archive: sealed blocks of the log, as text.
//!
//! | line | what |
//! |---|---|
//! | `block N HEX` | the content of block N, in 1,006 lower-case digits |
//! | `end N` | N is the number of the block that would come next |
#![tactic(auto)]

mod laws;
mod read;
mod written;

pub use laws::{
    archive_is_the_log, archives_join, followers_are_accepted, one_stream, streams_by_hand,
};
pub use read::{read_block, read_end};
pub use written::{STREAM_LINE_MAX, StreamLine, block_line, end_line};
