// Rows of redo and undo on a page near its end. The heap of a page has 3,952 octets: 19 values of 200 and one of 152
// fill it. Two Updates by which a slot gets 200 octets take a block.

use crate::rows::Row;

// The Updates of slots 0 to 18 stand at 3, 227, 514, 738, .. up to 4610, and that of slot 19 at 4834. Redo fills the
// page to its last octet, and undo empties it.
pub(crate) const FILLED: &[Row] = &[
    Row::Begin(2),
    Row::Fill(4610),
    Row::Resize(4834, 2, 4610, 19, 0, 152),
    Row::Reopen,
    Row::Redo(21),
    Row::Value(0, 0x5a, true),
    Row::Value(18, 0x5a, true),
    Row::Value(19, 0x5a, true),
    Row::PageLsn(4834),
    Row::UndoAll(0),
    Row::Value(19, 0x5a, false),
    Row::Value(0, 0x5a, false),
];

// On the full page slot 0 gets an empty value, and by the CLR its 200 octets again.
pub(crate) const FILLED_AGAIN: &[Row] = &[
    Row::Begin(2),
    Row::Fill(4610),
    Row::Resize(4834, 2, 4610, 19, 0, 152),
    Row::Resize(5122, 2, 4834, 0, 200, 0),
    Row::Reopen,
    Row::Redo(22),
    Row::Value(0, 0x5a, false),
    Row::UndoTo(2, 5122, 1, 5634),
    Row::Value(0, 0x5a, true),
    Row::Value(19, 0x5a, true),
    Row::PageLsn(5634),
];

// One octet more, and the last Update has no room.
pub(crate) const TOO_LONG: &[Row] = &[
    Row::Begin(2),
    Row::Fill(4610),
    Row::Resize(4834, 2, 4610, 19, 0, 153),
    Row::Reopen,
    Row::Redo(21),
];

// Another transaction has written one octet where undo needs all of them: the CLR has no room.
pub(crate) const TAKEN: &[Row] = &[
    Row::Begin(2),
    Row::Begin(3),
    Row::Fill(4610),
    Row::Resize(4834, 2, 4610, 19, 0, 152),
    Row::Resize(5122, 2, 4834, 0, 200, 0),
    Row::Resize(5346, 3, 3, 20, 0, 1),
    Row::Reopen,
    Row::Redo(24),
    Row::UndoTo(2, 5122, 1, 0),
];
