//! Tests of `log_replay`.
#![tactic(auto)]

#[cfg(test)]
mod streams;
