//! Tests of `policy_sim`.
#![tactic(auto)]

#[cfg(test)]
mod tests;
