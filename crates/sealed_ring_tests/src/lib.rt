//! Tests of `sealed_ring`.
#![tactic(auto)]

#[cfg(test)]
mod tests;
