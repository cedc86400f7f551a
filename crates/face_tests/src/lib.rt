//! Tests of `face`.
#![tactic(auto)]

#[cfg(test)]
mod failure_tests;
#[cfg(test)]
mod random_tests;
#[cfg(test)]
mod session_tests;
#[cfg(test)]
mod steps;
#[cfg(test)]
mod tests;
#[cfg(test)]
mod trial_tests;
