//! Tests of `archive_report`.
#![tactic(auto)]

#[cfg(test)]
mod tests;
