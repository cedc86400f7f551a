//! Tests of `trace_report`.
#![tactic(auto)]

#[cfg(test)]
mod tests;
