//! Tests of `log_store`.
#![tactic(auto)]

#[cfg(test)]
mod tests;
