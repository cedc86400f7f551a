//! Tests of `archive_restore`.
#![tactic(auto)]

#[cfg(test)]
mod tests;
