//! Tests of `image_check` and `image_form`.
#![tactic(auto)]

#[cfg(test)]
mod tests;
