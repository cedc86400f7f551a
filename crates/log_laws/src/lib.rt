//! Laws over lists of log records: which records may stand behind a log, and what they change of the
//! table that it stands for. They are lemmas of its proofs; the functions do nothing, each states a worked log.
#![tactic(auto)]

mod examples;

pub use examples::{a_loser, a_second_try, a_stray};
