//! The program around the top call: its words, and the files of the current folder.
#![tactic(auto)]

mod program;

pub use program::{run, stopped};
