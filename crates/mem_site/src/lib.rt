//! The site in memory: it is honest, it fails where it is told to, and a crash leaves of it what a crash may leave.
#![tactic(auto)]

mod area;
mod change;
mod crash;
mod input;
mod limits;
mod lives;
mod mem;
mod named;
mod output;

pub use mem::MemSite;
pub use named::Call;
