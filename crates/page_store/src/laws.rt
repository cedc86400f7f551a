// Laws of page stores, for the proofs of code above. They do nothing when called.
ghost use Rattle.page_store.specs.Laws.{TouchThenChange, GoesOnBeside, FitsBeside, CurrentBeside, AheadBeside};
ghost use Rattle.page_store.specs.Laws.{VersionsBeside, LeavesBeside, SealedBeside};

use image_changes::ring_kept;

/// Law: a touch and then a change of the page in front are the machine's touch with a change.
pub fn touch_then_change()
    ensures { TouchThenChange }
{}

/// Law: calls that change the log's device alone leave a store fit, and each page's content; a log that grew is ahead
/// of the pages still. A store may go on after any calls.
pub fn stays_beside()
    ensures going { GoesOnBeside }
    ensures fits { FitsBeside }
    ensures current { CurrentBeside }
    ensures ahead { AheadBeside }
{}

/// Law: calls that change the log's device alone leave each page's version, and at each moment no more than a call on
/// pages may; the LSN of each version is sealed still.
pub fn pages_beside_the_log()
    ensures versions { VersionsBeside }
    ensures leaves { LeavesBeside }
    ensures sealed { SealedBeside }
{
    ring_kept();
}
