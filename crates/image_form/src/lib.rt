//! What stands on devices, read and judged by its form.
#![tactic(auto)]

mod begins;
mod blocks;
mod clean;
mod following;
mod formed;
mod groups;
mod kept;
mod lengths;
mod master;
mod newest;
mod place;
mod rings;
mod segments;
mod versions;
mod walk;

pub use blocks::rule_blocks;
pub use clean::rule_clean;
pub use following::rule_following;
pub use formed::{Found, find_formed};
pub use groups::{are_same, rule_groups};
pub use kept::rule_kept;
pub use lengths::rule_lengths;
pub use master::rule_master;
pub use newest::{find_frames, read_version};
pub use place::Place;
pub use rings::{Rings, rule_rings};
pub use segments::rule_segments;
pub use versions::rule_versions;
pub use walk::Walk;
