//! The write-ahead rule: the log is sealed up to a page's last change before the page leaves for the devices.
#![tactic(auto)]

mod forcing;

pub use forcing::force_for;
