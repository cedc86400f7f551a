use slotted_page::Page;

/// A page that is in memory.
#[derive(Drop)]
pub struct Frame {
    /// The page's number.
    pub page: u32,
    /// Whether the page was changed since it came into memory or was last written.
    pub changed: bool,
    /// What the page holds.
    pub content: Page,
}
