//! Redo and undo: what the log and the pages of a site hold together, and what carries it on.
#![tactic(auto)]

mod changing;
mod checkpointing;
mod committing;
mod forcing;
mod logging;
mod redo_pass;
mod store;
mod undo;
mod undo_losers;

pub use changing::fits_front;
pub use logging::{log_change, log_record, touch};
pub use redo_pass::{Redone, redo};
pub use store::TransactionStore;
pub use undo::{undo_one, undo_to};
pub use undo_losers::undo_all;
