//! Tests of `host`.
#![tactic(auto)]

#[cfg(test)]
mod tests;
