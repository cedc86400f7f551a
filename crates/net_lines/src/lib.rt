//! What a commit has written, as lines of a database, and whether a database has room for it.
#![tactic(auto)]

mod lines;
mod room;

pub use lines::{fits_log, is_tight, session_line};
pub use room::Room;
