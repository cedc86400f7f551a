//! Replays a log archive: hears its lines one after the other, and hands out what each commit has written.
#![tactic(auto)]

mod kept;
mod ledger;
mod net;
mod replay;
mod table;
mod transaction;
mod transactions;

pub use kept::{Kept, copy_of};
pub use ledger::{Change, Ledger, ReplayFault};
pub use net::Net;
pub use replay::Replay;
pub use table::Table;
pub use transaction::{Stood, Transaction};
pub use transactions::Transactions;
