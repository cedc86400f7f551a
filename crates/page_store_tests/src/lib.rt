//! Tests of `page_store`.
#![tactic(auto)]

#[cfg(test)]
mod tests;
