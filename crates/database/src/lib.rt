//! The database as a value that a program owns: an engine together with the site that it works on.
#![tactic(auto)]

mod commands;
mod database;
mod laws;
mod unanswered;

pub use database::Database;
pub use laws::calls_are_durable;
pub use unanswered::{Unanswered, Unopened};
