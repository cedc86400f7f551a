/// A page in the queue on flash.
#[derive(Clone, Copy, Debug, Default, PartialEq, Eq)]
pub struct Frame {
    /// The page's number.
    pub page: u32,
    /// Whether it was changed since it was last written to disk.
    pub dirty: bool,
    /// Whether it was read since it came into its group.
    pub referenced: bool,
}
