//! What stated workloads are made of: the generator of their numbers, and the lives that a script of a trial is cut
//! into.
#![tactic(auto)]

mod generator;
mod laws;
mod lives;
mod rows;
mod scripts;

pub use generator::load_set;
pub use laws::{scripts_are_cut, stop_lines_are_read};
pub use lives::{STOPS_MAX, life};
pub use record_model::next;
pub use rows::{rows_of_generated_numbers, rows_of_scripts};
pub use scripts::Life;
