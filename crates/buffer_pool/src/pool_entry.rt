ghost use Rattle.std.specs.Prelude.{◌≡◌, ◌||◌, not};
ghost use Rattle.buffer_pool.specs.Listing.{is_listed};

use slotted_page::Page;

/// What the cache has of a page. It stays where it is as long as the page is in memory.
#[derive(Drop)]
pub(crate) struct PoolEntry {
    /// Whether the page was changed since it came into memory or was last written.
    pub(crate) changed: bool,
    /// Whether it has a frame in the queue on flash, as the pool was told.
    pub(crate) framed: bool,
    /// The number of its last touch.
    pub(crate) stamp: u64,
    /// What the page holds, in a block of its own.
    pub(crate) content: Box<Page>,
}

impl PoolEntry {
    /// Whether the page is listed among those that a push may take.
    pub(crate) fn is_listed(&self) -> bool
        ensures { result ≡ is_listed self.now }
    {
        self.changed || !self.framed
    }
}
