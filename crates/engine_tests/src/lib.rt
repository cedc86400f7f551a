//! Tests of `engine`.
#![tactic(auto)]

#[cfg(test)]
mod tests;
