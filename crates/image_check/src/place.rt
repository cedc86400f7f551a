// Where devices fail a rule.
ghost use Rattle.site.specs.Work.{OnlyReads};
ghost use Rattle.image_check.specs.Judging.{MayBeJudged};

use crate::filling::rule_page_room;
use crate::holding::rule_apart;
use crate::survey::rule_transactions;
use crate::undoable::rule_undoable;
use crate::values::rule_shown;
use image_form::{Found, Place, find_formed, rule_clean, rule_following, rule_kept};
use site::{Site, Stop};
use std::alloc::Global;

// Where a rule on the records fails that is decided by what the log leaves unfinished.
fn place_on_log<S: Site>(
    alloc: Global,
    site: &mut S,
    found: &Found,
    rule: u8,
) -> Result<Option<Place>, Stop>
    requires { MayBeJudged found.now (S.state site.old) }

    ensures reads { OnlyReads result (S.state site.old) (S.state site.new) }
{
    let survey = match rule_transactions(alloc, site, found)? {
        Ok(survey) => survey,
        Err(place) => return Ok(Some(place)),
    };
    match rule {
        4 => rule_undoable(alloc, site, found, &survey.left),
        5 => rule_apart(alloc, site, found, &survey.left),
        12 => rule_page_room(alloc, site, found, &survey.left),
        _ => Ok(None),
    }
}

// Where one of the rules fails that are read where the first two hold.
fn place_found<S: Site>(
    alloc: Global,
    site: &mut S,
    found: &Found,
    rule: u8,
) -> Result<Option<Place>, Stop>
    requires { MayBeJudged found.now (S.state site.old) }

    ensures reads { OnlyReads result (S.state site.old) (S.state site.new) }
{
    match rule {
        6 => match rule_shown(alloc, site, found)? {
            Ok(_values) => Ok(None),
            Err(place) => Ok(Some(place)),
        },
        7 => rule_clean(alloc, site, &found.log.geometry(), &found.rings),
        8 => rule_following(site, &found.log.geometry(), &found.rings),
        _ => place_on_log(alloc, site, found, rule),
    }
}

/// Where devices fail a rule, for who has its number from a verdict: of the rules that `check_image` reads before it
/// only the first two are judged again. It is the place that the verdict has; nothing is promised of it. Nothing is
/// changed, and nothing is read for the second, the ninth, the tenth and the eleventh rule.
pub fn find_place<S: Site>(alloc: Global, site: &mut S, rule: u8) -> Result<Option<Place>, Stop>
    ensures reads { OnlyReads result (S.state site.old) (S.state site.new) }
{
    match rule {
        2 | 10 => return Ok(Some(Place::Master)),
        9 | 11 => return Ok(Some(Place::Blocks)),
        _ => {}
    }
    let found = match find_formed(alloc, site)? {
        Ok(found) => found,
        Err(place) => return Ok(Some(place)),
    };
    if !rule_kept(&found.log, &found.master) {
        return Ok(Some(Place::Master));
    }
    place_found(alloc, site, &found, rule)
}
