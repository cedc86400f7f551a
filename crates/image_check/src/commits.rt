// The numbers of the commits.
ghost use Rattle.std.specs.Prelude.{◌^◌, ◌<◌, List, length};
ghost use Rattle.site.specs.State.{State};
ghost use Rattle.log_records.specs.declared.log_record.LogRecord.{LogRecord};
ghost use Rattle.log_judge.specs.Counting.{NumbersAre};
ghost use Rattle.image_check.specs.Counting.{CommitsAre};
ghost use Rattle.image_check.specs.Judging.{Sees, MayBeJudged, reading_of, records_of};
ghost use Rattle.image_form.specs.Verdict.{logical_image_of};

use image_form::Found;
use log_judge::Numbers;

/// The eleventh rule, by the numbers of the commits: how many were made, or `None` exactly where they aren't numbered
/// on by one, up to the master's count before the redo block and from there on, or are more than the octets of the
/// sealed blocks.
pub fn rule_commits(found: &Found, numbers: &Option<Numbers>) -> Option<u64>
    requires { (site : State) × MayBeJudged found.now site }

    ensures commits { (site : State) (blocks : List (List LogRecord)) → Sees found.now blocks site
        → length (records_of found.now blocks) < 2 ^ 62
        → NumbersAre found.now.master.redo (records_of found.now blocks) numbers.now
        → CommitsAre result (logical_image_of (reading_of found.now blocks) site.image) }
{
    let Some(numbers) = numbers else {
        return None;
    };
    let hi = found.log.sealed_end() / 512;
    if !numbers.fit(found.master.commits, hi) {
        return None;
    }
    Some(found.master.commits + numbers.late)
}
