//! Judges the records of a log as they are read: one after the other, by the rules that need nothing else.
#![tactic(auto)]

mod chain;
mod chains;
mod commits;
mod judge;
mod laws;
mod txns;
mod unfinished;

pub use chain::{Chain, Pending};
pub use chains::Chains;
pub use commits::Numbers;
pub use judge::{Judge, Sizes};
pub use laws::sound_is_judged;
pub use txns::{OpenTxns, begins, closes, txn_of};
pub use unfinished::{Left, LeftTxns};
