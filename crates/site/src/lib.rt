//! Everything that the product is handed: three devices, an input and an output.
#![tactic(auto)]

mod geometry;
mod outside;
mod telling;

pub use geometry::Geometry;
pub use outside::{Dev, Failed, Site, Stop, Take};
pub use telling::tell_all;
