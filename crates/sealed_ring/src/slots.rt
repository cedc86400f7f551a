// Where the slots of a ring lie.
use site::Dev;

/// A ring of `slots` slots of `stride` octets, from the place `base` of a device. A slot has a gate, a number and
/// `room` octets of content; the octets from there to the next slot are never looked at or written.
#[derive(Clone, Copy, Debug, PartialEq, Eq, Drop)]
pub struct Shape {
    pub dev: Dev,
    pub base: u64,
    pub slots: u64,
    pub stride: u64,
    pub room: u64,
}
