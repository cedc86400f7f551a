/// An active session: its transaction has begun and has not ended.
#[derive(Clone, Copy, Debug, Default, PartialEq, Eq)]
pub struct Active {
    /// The session's number, below 8.
    pub session: u32,
    /// The LSN of the transaction's first log record.
    pub begin: u64,
    /// The LSN of its last one.
    pub last: u64,
    /// How many log records counted as made before it began.
    pub born: u64,
    /// How many of its writes stand.
    pub writes: u64,
    /// How many of these it had made at its mark.
    pub mark: u64,
}
