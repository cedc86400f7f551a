//! Rings of sealed units: a unit is appended behind the newest, and a crash leaves the old units or the new ones.
#![tactic(auto)]

mod judging;
mod laws;
mod ring;
mod sealing;
mod slots;

pub use judging::judge;
pub use laws::{appends, blank_is_ring, hi_is_highest, usable_stays};
pub use ring::{CONTENT_AT, Ring};
pub use slots::Shape;
