//! How the octets of a line are gathered from pieces of an input.
#![tactic(auto)]

mod pieces;

pub use pieces::gather;
