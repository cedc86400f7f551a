// The parts of a script.

/// A life: the octets from `start` to before `end` are its lines, and `stop` is the K and the SEED of the line
/// `stop K SEED` that ends it. The last life goes to the end of the script and has none.
#[derive(Clone, Copy, Debug, PartialEq, Eq, Drop)]
pub struct Life {
    pub start: usize,
    pub end: usize,
    pub stop: Option<(u64, u64)>,
}

/// A stop line: where it begins, where the line behind it begins, and its K and SEED.
#[derive(Clone, Copy, Drop)]
pub struct StopLine {
    pub from: usize,
    pub next: usize,
    pub limit: u64,
    pub seed: u64,
}
