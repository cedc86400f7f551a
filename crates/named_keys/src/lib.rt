//! Named keys for a program that links the database: names with values, in the upper half of the records.
#![tactic(auto)]

mod keys;
mod laws;
mod name;
mod reply;

pub use keys::{find, put, remove};
pub use laws::{lines_are_probes, lines_keep_the_map};
pub use name::Name;
pub use name_table::{NAME_MAX, NameAnswer, VALUE_MAX};
pub use reply::NameReply;
