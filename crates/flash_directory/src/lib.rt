//! The directory of the queue on flash: for each page its last frame.
#![tactic(auto)]

mod directory;
mod group;
mod place;
mod places;

pub use directory::{Directory, HeadView};
pub use place::Place;
