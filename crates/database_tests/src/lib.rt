//! Tests of `database`.
#![tactic(auto)]

#[cfg(test)]
mod tests;
