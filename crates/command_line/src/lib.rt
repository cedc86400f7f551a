//! The words that the program is called with, and what they ask for.
#![tactic(auto)]

mod request;
mod words;

pub use request::{Load, Request, Restoring, Simulation, TrialSizes, Unread, read_words};
pub use words::{
    COUNT_MAX, PAGES_MAX, POOL_MAX, geometry_of, groups_in, number_in, number_within, sizes,
    trial_geometry_of,
};
