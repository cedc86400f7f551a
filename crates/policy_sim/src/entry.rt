/// A page in the pool.
#[derive(Clone, Copy, Debug)]
pub struct Entry {
    /// The page's number.
    pub page: u32,
    /// Whether it was changed since it came into the pool.
    pub changed: bool,
}

/// What the pool keeps of a page.
#[derive(Clone, Copy, Debug)]
pub struct Kept {
    /// Whether the page was changed since it came into the pool.
    pub changed: bool,
    /// Whether it is on the list of those that a push may take.
    pub listed: bool,
    /// The number of its last touch.
    pub stamp: u64,
}

impl Kept {
    /// What is kept of a page that isn't in the pool.
    pub const NONE: Kept = Kept {
        changed: false,
        listed: false,
        stamp: 0,
    };
}
