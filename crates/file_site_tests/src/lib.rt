//! Tests of `file_site`.
#![tactic(auto)]

#[cfg(test)]
mod fakes;
#[cfg(test)]
mod tests;
