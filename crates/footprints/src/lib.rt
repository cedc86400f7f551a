//! How long the longest value of each record is among what the active sessions have written and what stood before it.
#![tactic(auto)]

mod footprint;
mod footprints;
mod stack;

pub use footprint::Footprint;
pub use footprints::Footprints;
