//! Pages of 4,096 octets that hold 32 values, each in a slot of its own, and the LSN of the last change.
//!
//! | octets | what |
//! |---|---|
//! | 0 to 7 | LSN, u64 |
//! | 8 to 9 | how many octets at the end the heap takes up, u16 |
//! | 10 to 15 | zero |
//! | 16 to 143 | the directory: for each slot an offset and the length plus one, both u16 |
//! | 144 to 4,095 | the heap, filled from its end |
#![tactic(auto)]

mod directory;
mod heap;
mod laws;
mod room;
mod slotted;
mod soundness;

pub use laws::slots_of_a_page;
pub use slotted::Page;

/// The octets of a page.
pub const PAGE_LEN: usize = 4096;

/// The slots of a page.
pub const SLOTS: u8 = 32;

/// The octets of a page's heap.
pub const HEAP_LEN: usize = 3952;
