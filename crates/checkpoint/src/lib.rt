//! Master units: where a restart begins. Each checkpoint appends one to the master ring, at the front of the log
//! device.
#![tactic(auto)]

mod codec;
mod laws;
mod master;
mod masters;
mod pairs;

pub use codec::{BadMaster, read_master, write_master};
pub use laws::{one_master, stays_newest};
pub use master::Master;
pub use masters::{newest, save};
pub use pairs::Pairs;

/// The octets of a master unit's content.
pub const UNIT_LEN: usize = 503;
