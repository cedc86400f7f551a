//! Judges devices: the rules by which their octets are sound.
#![tactic(auto)]

mod chain;
mod chains;
mod commits;
mod contents;
mod filling;
mod holding;
mod laws;
mod lengths;
mod place;
mod showing;
mod strays;
mod survey;
mod undoable;
mod unfinished;
mod values;
mod verdict;
mod written;

pub use commits::rule_commits;
pub use filling::rule_page_room;
pub use holding::rule_apart;
pub use laws::{judged_stands, one_reading, sound_is_standing};
pub use place::find_place;
pub use survey::{Survey, rule_transactions};
pub use undoable::rule_undoable;
pub use unfinished::{rule_named, rule_room};
pub use values::rule_shown;
pub use verdict::{Verdict, check_image};
