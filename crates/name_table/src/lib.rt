//! The work of one line about a name: a machine that asks for the values of records and for at most one write.
#![tactic(auto)]

mod buckets;
mod laws;
mod probe;
mod rows;
mod tidy_laws;
mod tidying;

pub use buckets::{NAME_MAX, VALUE_MAX};
pub use laws::{
    blank_is_well_formed, full_is_told, meetings_are_told, names_are_a_map, reads_are_few,
    strange_is_told,
};
pub use probe::Probe;
pub use record_model::{Ask, NameAnswer};
pub use rows::{rows_of_buckets, rows_of_names};
pub use tidy_laws::{finds_stay, rows_of_tidies, tidies_are_told, tidies_keep_names};
pub use tidying::{TidyAsk, Tidying};
