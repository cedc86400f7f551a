//! The words of the record database, and its model: what each command answers and leaves.
#![tactic(auto)]

mod laws;
mod lists;
mod names;
mod numbers;
mod rows;
mod value;
mod words;

pub use laws::{
    back_to_the_mark, each_line_has_a_turn, gets_are_serial, pages_stay_fit, refusals_are_told,
    serial_order, sessions_stay_sound, sizes_stay, turns_follow,
};
pub use lists::{Items, Listing};
pub use names::{Ask, Bucket, Job, NameAnswer};
pub use numbers::next;
pub use rows::{
    rows_of_faulty_steps, rows_of_full_pages, rows_of_marks, rows_of_ranges, rows_of_serial_order,
    rows_of_sessions, rows_of_the_budget, rows_of_touches, rows_of_values,
};
pub use value::Octets;
pub use words::{CacheLine, Command, Item, Reply, Stat, Why};
