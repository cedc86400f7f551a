//! Tests of `flash_cache`.
#![tactic(auto)]

#[cfg(test)]
mod tests;
