use crate::lists::{Items, Listing};
use crate::value::Octets;

/// What a user may ask for. A session is numbered 0 to 7, and a record from 0 on; other numbers are refused when the
/// command is carried out.
#[derive(Clone, Debug, Drop, PartialEq, Eq)]
pub enum Command {
    /// The session becomes active.
    Begin {
        session: u32,
    },
    /// What the session sees at the record: its own last write there, else what the table has.
    Read {
        session: u32,
        number: u32,
    },
    /// The session writes the record; the write is pending until the session commits.
    Write {
        session: u32,
        number: u32,
        value: Octets,
    },
    /// As a write of no value.
    Erase {
        session: u32,
        number: u32,
    },
    /// As a read of `count` records, from `number` on.
    Scan {
        session: u32,
        number: u32,
        count: u32,
    },
    /// The session's writes enter the table, and the session ends.
    Commit {
        session: u32,
    },
    /// The session's writes are dropped, and the session ends.
    Abort {
        session: u32,
    },
    /// The session's mark is set behind its writes that stand.
    Mark {
        session: u32,
    },
    /// The session's writes are dropped, the last one first, but for those in front of its mark, or but for the first
    /// `standing` ones. A mark that stood behind the last of them then stands there. The session goes on, and what it
    /// has written and read stays locked.
    Back {
        session: u32,
        standing: Option<u32>,
    },
    /// A read outside sessions.
    Get {
        number: u32,
    },
    /// A write outside sessions, committed at once.
    Set {
        number: u32,
        value: Octets,
    },
    /// The log is freed of what no active session needs.
    Checkpoint,
    /// The listing of the page cache.
    Cache,
    /// The counts of the database.
    Stat,
    /// The run ends.
    Quit,
}

/// Why a command is refused.
#[derive(Clone, Copy, Debug, PartialEq, Eq)]
pub enum Why {
    /// The line is no command.
    BadLine,
    /// There is no such session, or it is active and was to begin, or it isn't active and was to do something.
    BadSession,
    /// There is no such record.
    NoRecord,
    /// The value has more than [`byte_fields::VALUE_MAX`] octets.
    TooLong,
    /// Fewer writes of the session stand than are to stay.
    BadMark,
}

/// A record that has a value.
#[derive(Clone, Debug, Drop, PartialEq, Eq)]
pub struct Item {
    /// The record's number.
    pub number: u32,
    /// What it has.
    pub value: Octets,
}

/// A line of the cache listing.
#[derive(Clone, Copy, Debug, PartialEq, Eq)]
pub enum CacheLine {
    /// A page in the queue on flash.
    Frame {
        /// The number of its group.
        group: u64,
        /// Its place in the group, from 0 on.
        index: u8,
        /// The page's number.
        page: u32,
        /// Whether it is the newest copy of the page in the queue.
        valid: bool,
        /// Whether it is to be written to disk when it leaves the queue.
        dirty: bool,
        /// Whether it was read since it came.
        referenced: bool,
    },
    /// A page in memory.
    Pool {
        /// The page's number.
        page: u32,
        /// Whether it was changed since it came.
        changed: bool,
    },
}

/// The counts of the database.
#[derive(Clone, Copy, Debug, PartialEq, Eq)]
pub struct Stat {
    /// How many commits there have been.
    pub commits: u64,
    /// How many log records were made and aren't freed yet.
    pub used: u64,
    /// How many log records the active sessions may come to need to end.
    pub owed: u64,
    /// How many log records there is room for.
    pub cap: u64,
    /// How many sessions are active.
    pub active: u64,
}

/// The answer to a command.
#[derive(Debug, Drop)]
pub enum Reply {
    /// It was done.
    Done,
    /// The record has this value.
    Value(Octets),
    /// The record has no value.
    Nothing,
    /// It was committed, as the commit of this number.
    Committed(u64),
    /// The session's writes were dropped.
    Aborted,
    /// So many of the session's writes were dropped.
    Back(u64),
    /// The checkpoint was made.
    Checked,
    /// The records of a scan that have a value.
    Items(Items),
    /// The listing of the page cache.
    Listing(Listing),
    /// The counts of the database.
    Stat(Stat),
    /// The run ends.
    Bye,
    /// The record is held by the session of this number.
    Busy(u32),
    /// The log has no room. The counts are those of [`Stat`].
    Full { used: u64, owed: u64, cap: u64 },
    /// The page has no room for the value: with it the page's records may come to need so many octets together.
    PageFull { page: u32, need: u32 },
    /// The command is refused.
    Refused(Why),
}
