//! Tests of `tail_rebuild`.
#![tactic(auto)]

#[cfg(test)]
mod tests;
