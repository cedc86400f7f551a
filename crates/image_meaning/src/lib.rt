//! What three contents mean: when they are sound, the table that they stand for, and which changes keep that.
//! The functions do nothing: each states its laws as clauses.
#![tactic(auto)]

mod change_laws;
mod checkpoint_laws;
mod laws;
mod moment_laws;

pub use change_laws::rings_kept_under;
pub use checkpoint_laws::master_saved;
pub use laws::{blank_stands, one_master_stands, pushed, replaced, sealed, segment_saved, staged};
pub use moment_laws::{calls_with_commit, calls_without_commit, whole_push};
