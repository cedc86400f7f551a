//! The top call: words and lines in, replies and a status out, over any site.
#![tactic(auto)]

mod answer;
mod commands;
mod laws;
mod load;
mod opening;
mod running;
pub mod trial;

pub use commands::carry_out;
pub use laws::{
    blank_stands, one_meaning, one_opening, opens_where_it_stands, rings_last_for_lives,
    sound_opens, what_a_load_leaves_opens, what_is_left_opens,
};
pub use load::serve_load;
pub use running::{lack_memory, serve, serve_trial};
