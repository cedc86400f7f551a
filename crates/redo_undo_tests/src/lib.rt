//! Tests of `redo_undo`.
#![tactic(auto)]

#[cfg(test)]
mod room_tests;
#[cfg(test)]
mod rows;
#[cfg(test)]
mod tests;
#[cfg(test)]
mod undo_tests;
