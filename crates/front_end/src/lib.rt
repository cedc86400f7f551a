//! What of the program needs no engine: lines are taken, replies and faults told, and the work of `new` and of
//! `check`.
#![tactic(auto)]

mod check;
mod fault_lines;
mod halt;
mod new_database;
mod source;
mod text;

pub use check::serve_check;
pub use fault_lines::{tell_halt, tell_memory, tell_unfit, tell_words};
pub use halt::Halt;
pub use new_database::{Unfit, make_new, test_blank};
pub use source::{Heard, Source};
pub use text::tell_reply;
