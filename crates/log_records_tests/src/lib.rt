//! Tests of `log_records`.
#![tactic(auto)]

#[cfg(test)]
mod tests;
