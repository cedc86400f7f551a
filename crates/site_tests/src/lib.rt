//! Tests of `site`.
#![tactic(auto)]

#[cfg(test)]
mod tests;
