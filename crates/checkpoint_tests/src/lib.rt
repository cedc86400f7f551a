//! Tests of `checkpoint`.
#![tactic(auto)]

#[cfg(test)]
mod tests;
