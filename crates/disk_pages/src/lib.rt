//! Pages of 4,096 octets on the disk.
#![tactic(auto)]

mod pages;

pub use pages::{PAGE_LEN, read_page, sync_disk, write_page};
