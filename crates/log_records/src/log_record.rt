use record_model::Octets;

/// A record of the log. A transaction is named by the LSN of its Begin. `page` and `slot`, which is
/// below 32, name a record of the table: number `32 * page + slot`. What it has is a value or none.
#[derive(Clone, Debug, Drop, PartialEq, Eq)]
pub enum LogRecord {
    /// A transaction begins.
    Begin,
    /// The transaction `txn` has changed a record of the table. `prev` is the LSN of the
    /// transaction's log record before this one.
    Update {
        txn: u64,
        prev: u64,
        page: u32,
        slot: u8,
        before: Option<Octets>,
        after: Option<Octets>,
    },
    /// A compensation log record: an Update of the transaction is undone, and `after` is what stood
    /// before it. `undo_next` is the `prev` of that Update, where undoing goes on.
    Clr {
        txn: u64,
        prev: u64,
        undo_next: u64,
        page: u32,
        slot: u8,
        after: Option<Octets>,
    },
    /// The transaction is committed, as the commit of this number since the log began.
    Commit {
        txn: u64,
        number: u64,
    },
    /// The transaction is undone as a whole.
    End {
        txn: u64,
    },
}
