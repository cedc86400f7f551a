/// That a session has read a record, or that it has written it.
#[derive(Clone, Copy, Debug, PartialEq, Eq, Hash)]
pub struct Lock {
    /// The session that holds the lock.
    pub session: u32,
    /// The record's number.
    pub number: u32,
    /// Whether the session has written the record. Otherwise it has read it.
    pub writes: bool,
}
