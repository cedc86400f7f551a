//! Tests of `named_keys`.
#![tactic(auto)]

#[cfg(test)]
mod tests;
