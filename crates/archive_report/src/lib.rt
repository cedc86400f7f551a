//! The log's sealed blocks as text: the work of `archive`.
#![tactic(auto)]

mod halt;
mod lines;
mod report;

pub use report::archive;
