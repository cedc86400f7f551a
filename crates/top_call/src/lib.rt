//! The top call: the words of the program in, lines and replies over any site, and a status out.
#![tactic(auto)]

mod top;

pub use top::face;
