//! Log records: their spelling, and what a log of them says of the record table.
//!
//! A sealed block of the log has a content of 503 octets: the offset just past its last record, then
//! its records one after the other, then zeros. A record at offset f of block b has the log sequence
//! number (LSN) 512 * b + f, which names it.
#![tactic(auto)]

mod codec;
mod laws;
mod log_record;
mod reading;

pub use codec::{BadRecord, length, write_record};
pub use laws::{one_form, read_again};
pub use log_record::LogRecord;
pub use reading::{check_block, read_record};

/// The octets of a log block's content.
pub const BLOCK_LEN: usize = 503;
