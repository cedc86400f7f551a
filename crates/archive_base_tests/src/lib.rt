//! Tests of `archive_base`.
#![tactic(auto)]

#[cfg(test)]
mod bases;
