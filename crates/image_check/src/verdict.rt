// The verdict on devices.
ghost use Rattle.std.specs.Prelude.{◌≡◌, ◌+◌, ◌*◌, IsTrue, IfOk};
ghost use Rattle.site.specs.Work.{OnlyReads};
ghost use Rattle.log_records.specs.Sound.{commit_count};
ghost use Rattle.image_check.specs.Deciding.{Decides, HoldOr, IsSurveyOf, log_checked, pages_checked};
ghost use Rattle.image_check.specs.Judging.{MayBeJudged, reading_of};
ghost use Rattle.image_check.specs.Judgement.{IsVerdictOn};
ghost use Rattle.image_form.specs.Counted.{ReadsBySizes};
ghost use Rattle.image_form.specs.Verdict.{logical_image_of, values_of};

use crate::commits::rule_commits;
use crate::filling::rule_page_room;
use crate::holding::rule_apart;
use crate::survey::{Survey, rule_transactions};
use crate::undoable::rule_undoable;
use crate::unfinished::{rule_named, rule_room};
use crate::values::rule_shown;
use image_form::{Found, Place, find_formed, rule_clean, rule_following, rule_kept};
use site::{Site, Stop};
use std::alloc::Global;

/// What devices are judged to be.
#[derive(Clone, Copy, Debug, PartialEq, Eq, Drop)]
pub enum Verdict {
    /// All rules hold: how many numbers have a value, and after how many commits.
    Sound { records: u64, commits: u64 },
    /// The first rule that fails, from 1 to 12, and where it does. Of the place nothing is promised.
    Unsound { rule: u8, place: Place },
}

// The first that fails of the fourth and the fifth rule, and where.
fn failing_on_log<S: Site>(
    alloc: Global,
    site: &mut S,
    found: &Found,
    survey: &Survey,
) -> Result<Option<(u8, Place)>, Stop>
    requires { MayBeJudged found.now (S.state site.old) }

    ensures { Decides 4 found.now 3 0 result
        (S.state site.old) (S.state site.new) (λ blocks failing.
        IsSurveyOf found.now blocks survey.now
        → HoldOr 6 failing (reading_of found.now blocks) (S.state site.old).image) }
{
    if let Some(place) = rule_undoable(alloc, site, found, &survey.left)? {
        return Ok(Some((4, place)));
    }
    if let Some(place) = rule_apart(alloc, site, found, &survey.left)? {
        return Ok(Some((5, place)));
    }
    Ok(None)
}

// The first that fails of the seventh and the eighth rule, and where.
fn failing_on_flash<S: Site>(
    alloc: Global,
    site: &mut S,
    found: &Found,
) -> Result<Option<(u8, Place)>, Stop>
    requires { MayBeJudged found.now (S.state site.old) }

    ensures { Decides 7 found.now 0 (20 * found.now.log.geometry.groups) result
        (S.state site.old) (S.state site.new) (λ blocks failing.
        HoldOr 9 failing (reading_of found.now blocks) (S.state site.old).image) }
{
    let geometry = found.log.geometry();
    if let Some(place) = rule_clean(alloc, site, &geometry, &found.rings)? {
        return Ok(Some((7, place)));
    }
    if let Some(place) = rule_following(site, &geometry, &found.rings)? {
        return Ok(Some((8, place)));
    }
    Ok(None)
}

// The verdict where the rules before the twelfth hold, so many numbers have a value, and so many commits were made.
fn judge_room<S: Site>(
    alloc: Global,
    site: &mut S,
    found: &Found,
    survey: &Survey,
    counts: (u64, u64),
) -> Result<Verdict, Stop>
    requires { MayBeJudged found.now (S.state site.old) }

    ensures { Decides 12 found.now 1 (found.now.log.geometry.groups + 2 * found.now.log.geometry.pages) result
        (S.state site.old) (S.state site.new) (λ blocks verdict.
        IsSurveyOf found.now blocks survey.now
        → counts.0 ≡ values_of (logical_image_of (reading_of found.now blocks) (S.state site.old).image)
        → counts.1 ≡ commit_count (logical_image_of (reading_of found.now blocks) (S.state site.old).image)
        → IsVerdictOn (S.state site.old).image verdict) }
{
    if let Some(place) = rule_page_room(alloc, site, found, &survey.left)? {
        return Ok(Verdict::Unsound { rule: 12, place });
    }
    let (records, commits) = counts;
    Ok(Verdict::Sound { records, commits })
}

// The verdict where the rules before the ninth hold and so many numbers have a value.
fn judge_counts<S: Site>(
    alloc: Global,
    site: &mut S,
    found: &Found,
    survey: &Survey,
    records: u64,
) -> Result<Verdict, Stop>
    requires { MayBeJudged found.now (S.state site.old) }

    ensures { Decides 9 found.now 1 (found.now.log.geometry.groups + 2 * found.now.log.geometry.pages) result
        (S.state site.old) (S.state site.new) (λ blocks verdict.
        IsSurveyOf found.now blocks survey.now
        → records ≡ values_of (logical_image_of (reading_of found.now blocks) (S.state site.old).image)
        → IsVerdictOn (S.state site.old).image verdict) }
{
    if !rule_room(found, &survey.left) {
        return Ok(Verdict::Unsound {
            rule: 9,
            place: Place::Blocks,
        });
    }
    if !rule_named(&found.master, &survey.early) {
        return Ok(Verdict::Unsound {
            rule: 10,
            place: Place::Master,
        });
    }
    match rule_commits(found, &survey.numbers) {
        Some(commits) => judge_room(alloc, site, found, survey, (records, commits)),
        None => Ok(Verdict::Unsound {
            rule: 11,
            place: Place::Blocks,
        }),
    }
}

// The verdict where the rules before the sixth hold.
fn judge_pages<S: Site>(
    alloc: Global,
    site: &mut S,
    found: &Found,
    survey: &Survey,
) -> Result<Verdict, Stop>
    requires { MayBeJudged found.now (S.state site.old) }

    ensures { Decides 6 found.now 2 (22 * found.now.log.geometry.groups + 4 * found.now.log.geometry.pages) result
        (S.state site.old) (S.state site.new) (λ blocks verdict.
        IsSurveyOf found.now blocks survey.now
        → IsVerdictOn (S.state site.old).image verdict) }
{
    let records = match rule_shown(alloc, site, found)? {
        Ok(records) => records,
        Err(place) => return Ok(Verdict::Unsound { rule: 6, place }),
    };
    if let Some((rule, place)) = failing_on_flash(alloc, site, found)? {
        return Ok(Verdict::Unsound { rule, place });
    }
    judge_counts(alloc, site, found, survey, records)
}

// The verdict where the first two rules hold.
fn judge_found<S: Site>(alloc: Global, site: &mut S, found: &Found) -> Result<Verdict, Stop>
    requires { MayBeJudged found.now (S.state site.old) }

    ensures { Decides 3 found.now 6 (22 * found.now.log.geometry.groups + 4 * found.now.log.geometry.pages) result
        (S.state site.old) (S.state site.new) (λ blocks verdict.
        IsVerdictOn (S.state site.old).image verdict) }
{
    let survey = match rule_transactions(alloc, site, found)? {
        Ok(survey) => survey,
        Err(place) => return Ok(Verdict::Unsound { rule: 3, place }),
    };
    if let Some((rule, place)) = failing_on_log(alloc, site, found, &survey)? {
        return Ok(Verdict::Unsound { rule, place });
    }
    judge_pages(alloc, site, found, &survey)
}

/// Judges the devices: whether all rules hold, or which is the first that fails. Nothing is changed.
pub fn check_image<S: Site>(alloc: Global, site: &mut S) -> Result<Verdict, Stop>
    ensures verdict { IsTrue (S.state site.old).honest
        → IfOk result (λ verdict. IsVerdictOn (S.state site.old).image verdict) }
    ensures looks { ReadsBySizes log_checked pages_checked (S.state site.old) (S.state site.new) }
    ensures reads { OnlyReads result (S.state site.old) (S.state site.new) }
{
    let found = match find_formed(alloc, site)? {
        Ok(found) => found,
        Err(place) => return Ok(Verdict::Unsound { rule: 1, place }),
    };
    if !rule_kept(&found.log, &found.master) {
        return Ok(Verdict::Unsound {
            rule: 2,
            place: Place::Master,
        });
    }
    judge_found(alloc, site, &found)
}
