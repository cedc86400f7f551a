//! Tests of `buffer_pool`.
#![tactic(auto)]

#[cfg(test)]
mod tests;
