// The transactions that records leave unfinished.
ghost use Rattle.std.specs.Prelude.{◌≡◌, ◌==◌, ◌↔◌, ◌≤◌, List, IsTrue};
ghost use Rattle.std.specs.BTreeMap.{values};
ghost use Rattle.std.specs.List.{list_any};
ghost use Rattle.site.specs.State.{State};
ghost use Rattle.log_records.specs.declared.log_record.LogRecord.{LogRecord};
ghost use Rattle.log_records.specs.Log.{Entry};
ghost use Rattle.log_records.specs.Unfinished.{losers};
ghost use Rattle.log_records.specs.Sound.{active_in, before_block};
ghost use Rattle.checkpoint.specs.Newest.{seen};
ghost use Rattle.log_judge.specs.Unended.{AreLeft};
ghost use Rattle.image_check.specs.Counting.{owed_for};
ghost use Rattle.image_check.specs.Judging.{Sees, MayBeJudged, reading_of, records_of};
ghost use Rattle.image_form.specs.Verdict.{UndoHasRoom, logical_image_of};

use checkpoint::Master;
use image_form::Found;
use log_judge::LeftTxns;

/// Whether a transaction is one of those that are left unfinished.
pub fn is_left(left: &LeftTxns, txn: u64) -> bool
    ensures { (records : List Entry) → AreLeft records left.now.left
        → result ≡ list_any (λ t. t == txn) (losers records) }
{
    left.left.contains_key(&txn)
}

// Whether undoing them makes no more records than there is room for.
fn fit(txns: &LeftTxns, room: u64) -> bool
    ensures { IsTrue result ↔ (owed_for (values txns.now.left) ≤ room) }
{
    let mut free = room;
    for left in txns.left.values() {
        if left.remaining >= free {
            return false;
        }
        free = free - left.remaining - 1;
    }
    true
}

/// The ninth rule, by the unfinished transactions: whether there are blocks for all that undo will write.
pub fn rule_room(found: &Found, left: &LeftTxns) -> bool
    requires { (site : State) × MayBeJudged found.now site }

    ensures room { (site : State) (blocks : List (List LogRecord)) → Sees found.now blocks site
        → AreLeft (records_of found.now blocks) left.now.left
        → IsTrue result ↔ UndoHasRoom (logical_image_of (reading_of found.now blocks) site.image) }
{
    let hi = found.log.sealed_end() / 512;
    let blocks = found.log.geometry().blocks as u64;
    let free = (blocks - 1).saturating_sub(hi.saturating_sub(found.master.kept));
    fit(left, free)
}

/// The tenth rule, by the transactions that were unfinished before the redo block: whether the master names these.
pub fn rule_named(master: &Master, early: &LeftTxns) -> bool
    ensures named { (records : List Entry) → AreLeft (before_block master.now.redo records) early.now.left
        → IsTrue result ↔ ((seen master.now).active ≡ active_in (before_block master.now.redo records)) }
{
    early.are_named(master)
}
