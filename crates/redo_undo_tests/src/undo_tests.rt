// Rows of undo on a site in memory. The LSNs were worked out by hand from the lengths of the records.

use crate::rows::Row;

// Transactions 2 and 3 are unfinished, with Updates at 4 and 58, and at 31. That at 58 is compensated. All of this is
// sealed.
// The Updates at 31 and 4 have their CLRs at 514 and 555, and the Ends stand at 546 and 587.
pub(crate) const TWO: &[Row] = &[
    Row::Begin(2),
    Row::Begin(3),
    Row::Update(4, 2, 2, 5),
    Row::Update(31, 3, 3, 6),
    Row::Update(58, 2, 4, 7),
    Row::Clr(85, 2, 58, 4, 7),
    Row::Reopen,
    Row::UndoAll(0),
    Row::Value(6, 0x07, true),
    Row::Value(5, 0x07, true),
    Row::PageLsn(555),
];

// The same, and transaction 2 is undone from its last record on.
// The Update at 58 has its CLR at 85, so that of the Update at 4 is the only one that comes.
pub(crate) const COMPENSATED: &[Row] = &[
    Row::Begin(2),
    Row::Begin(3),
    Row::Update(4, 2, 2, 5),
    Row::Update(31, 3, 3, 6),
    Row::Update(58, 2, 4, 7),
    Row::Clr(85, 2, 58, 4, 7),
    Row::Reopen,
    Row::Sealed(512),
    Row::Undo(2, 85),
    Row::Value(5, 0x07, true),
    Row::Value(7, 0x07, false),
    Row::PageLsn(514),
];

// Transaction 2 has Updates at 3 and 30, the CLR of the second one at 57, and an Update behind it at 89, whose CLR
// comes at 514. Undo goes on at 57, passes over that CLR, and goes on at 3, whose CLR comes at 546.
pub(crate) const BEHIND_A_CLR: &[Row] = &[
    Row::Begin(2),
    Row::Update(3, 2, 2, 5),
    Row::Update(30, 2, 3, 6),
    Row::Clr(57, 2, 30, 3, 6),
    Row::Update(89, 2, 57, 7),
    Row::Reopen,
    Row::Undo(2, 89),
    Row::Value(7, 0x07, true),
    Row::Value(6, 0x07, false),
    Row::Value(5, 0x07, true),
    Row::PageLsn(546),
];

// The same, and it is undone at a restart.
pub(crate) const BEHIND_A_CLR_RESTARTED: &[Row] = &[
    Row::Begin(2),
    Row::Update(3, 2, 2, 5),
    Row::Update(30, 2, 3, 6),
    Row::Clr(57, 2, 30, 3, 6),
    Row::Update(89, 2, 57, 7),
    Row::Reopen,
    Row::UndoAll(0),
    Row::Value(7, 0x07, true),
    Row::Value(6, 0x07, false),
    Row::Value(5, 0x07, true),
    Row::PageLsn(546),
];

// The Update at 89 has its CLR at 116, which goes on at the CLR at 57, and behind it stands an Update at 148. That and
// the first one are left, and undo passes over both CLRs.
pub(crate) const TWO_CLRS: &[Row] = &[
    Row::Begin(2),
    Row::Update(3, 2, 2, 5),
    Row::Update(30, 2, 3, 6),
    Row::Clr(57, 2, 30, 3, 6),
    Row::Update(89, 2, 57, 7),
    Row::Clr(116, 2, 89, 57, 7),
    Row::Update(148, 2, 116, 8),
    Row::Reopen,
    Row::Undo(2, 148),
    Row::Value(8, 0x07, true),
    Row::Value(7, 0x07, false),
    Row::Value(6, 0x07, false),
    Row::Value(5, 0x07, true),
    Row::PageLsn(546),
];

pub(crate) const TWO_CLRS_RESTARTED: &[Row] = &[
    Row::Begin(2),
    Row::Update(3, 2, 2, 5),
    Row::Update(30, 2, 3, 6),
    Row::Clr(57, 2, 30, 3, 6),
    Row::Update(89, 2, 57, 7),
    Row::Clr(116, 2, 89, 57, 7),
    Row::Update(148, 2, 116, 8),
    Row::Reopen,
    Row::UndoAll(0),
    Row::Value(8, 0x07, true),
    Row::Value(7, 0x07, false),
    Row::Value(6, 0x07, false),
    Row::Value(5, 0x07, true),
    Row::PageLsn(546),
];

// The last record is a CLR, from which undo comes to the CLR at 57, which it passes over once more.
pub(crate) const FROM_A_CLR: &[Row] = &[
    Row::Begin(2),
    Row::Update(3, 2, 2, 5),
    Row::Update(30, 2, 3, 6),
    Row::Clr(57, 2, 30, 3, 6),
    Row::Update(89, 2, 57, 7),
    Row::Clr(116, 2, 89, 57, 7),
    Row::Reopen,
    Row::Undo(2, 116),
    Row::Value(7, 0x07, false),
    Row::Value(5, 0x07, true),
    Row::PageLsn(514),
];

// Two Updates at 3 and 30, of which the last one is undone by the CLR at 514: the other one is left. The transaction
// writes on at 546. All of it is sealed, and at the restart the five records are redone, and the Updates at 546 and 3
// are undone, by CLRs at 1026 and 1058.
pub(crate) const BACK_AND_RESTARTED: &[Row] = &[
    Row::Begin(2),
    Row::Update(3, 2, 2, 5),
    Row::Update(30, 2, 3, 6),
    Row::Reopen,
    Row::UndoTo(2, 30, 1, 514),
    Row::Value(6, 0x07, true),
    Row::Value(5, 0x07, false),
    Row::PageLsn(514),
    Row::Update(546, 2, 514, 7),
    Row::Reopen,
    Row::Redo(5),
    Row::Losers(1),
    Row::Value(5, 0x0a, true),
    Row::Value(6, 0x07, true),
    Row::Value(7, 0x0a, true),
    Row::UndoAll(0),
    Row::Value(7, 0x07, true),
    Row::Value(6, 0x07, true),
    Row::Value(5, 0x07, true),
    Row::PageLsn(1058),
];

// Three Updates, of which the last one is undone, and then, over its CLR, the one before it. Then the transaction is
// undone as a whole: the first one has its CLR at 1538.
pub(crate) const BACK_TWICE: &[Row] = &[
    Row::Begin(2),
    Row::Update(3, 2, 2, 5),
    Row::Update(30, 2, 3, 6),
    Row::Update(57, 2, 30, 7),
    Row::Reopen,
    Row::UndoTo(2, 57, 1, 514),
    Row::Flush,
    Row::UndoTo(2, 514, 1, 1026),
    Row::Value(7, 0x07, true),
    Row::Value(6, 0x07, true),
    Row::Value(5, 0x07, false),
    Row::Flush,
    Row::Undo(2, 1026),
    Row::Value(5, 0x07, true),
    Row::PageLsn(1538),
];

// One more Update stands behind a CLR. Of the two that are left both are undone, and the CLR between them is passed
// over; or only the last one is, or none.
pub(crate) const BACK_OVER_A_CLR: &[Row] = &[
    Row::Begin(2),
    Row::Update(3, 2, 2, 5),
    Row::Update(30, 2, 3, 6),
    Row::Clr(57, 2, 30, 3, 6),
    Row::Update(89, 2, 57, 7),
    Row::Reopen,
    Row::UndoTo(2, 89, 2, 546),
    Row::Value(7, 0x07, true),
    Row::Value(6, 0x07, false),
    Row::Value(5, 0x07, true),
    Row::PageLsn(546),
];

pub(crate) const BACK_TO_A_CLR: &[Row] = &[
    Row::Begin(2),
    Row::Update(3, 2, 2, 5),
    Row::Update(30, 2, 3, 6),
    Row::Clr(57, 2, 30, 3, 6),
    Row::Update(89, 2, 57, 7),
    Row::Reopen,
    Row::UndoTo(2, 89, 0, 89),
    Row::TailEmpty,
    Row::UndoTo(2, 89, 1, 514),
    Row::Value(7, 0x07, true),
    Row::Value(5, 0x07, false),
    Row::PageLsn(514),
];

// The Update of transaction 2 names one of transaction 3 as the record before it, and a CLR of it.
pub(crate) const ANOTHERS_UPDATE: &[Row] = &[
    Row::Begin(2),
    Row::Begin(3),
    Row::Update(4, 3, 3, 6),
    Row::Update(31, 2, 4, 5),
    Row::Reopen,
    Row::Undo(2, 31),
];

pub(crate) const ANOTHERS_CLR: &[Row] = &[
    Row::Begin(2),
    Row::Begin(3),
    Row::Update(4, 3, 3, 6),
    Row::Clr(31, 3, 4, 3, 6),
    Row::Update(63, 2, 31, 5),
    Row::Reopen,
    Row::Undo(2, 63),
];

pub(crate) const NONE: &[Row] = &[Row::UndoAll(0), Row::TailEmpty, Row::Changes(0)];
