//! Tests of `shell_text`.
#![tactic(auto)]

#[cfg(test)]
mod tests;
