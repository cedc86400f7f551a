//! Tests of `name_table`.
#![tactic(auto)]

#[cfg(test)]
mod table;
#[cfg(test)]
mod tests;
#[cfg(test)]
mod tidies;
