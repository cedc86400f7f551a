// The live groups.
ghost use Rattle.std.specs.Prelude.{◌≡◌, ◌↔◌, ◌*◌, ◌≤◌, List, length, is_none, IsTrue, IfOk};
ghost use Rattle.site.specs.declared.geometry.Geometry.{Geometry};
ghost use Rattle.site.specs.Work.{OnlyReads};
ghost use Rattle.byte_fields.specs.FrameHeads.{present_in_front, AreGroupHeads};
ghost use Rattle.frame_group.specs.Groups.{Frame};
ghost use Rattle.image_form.specs.Counted.{ReadsAtMost};
ghost use Rattle.image_form.specs.Octets.{IsGroupOn, AreGroups};
ghost use Rattle.image_form.specs.Framing.{IsFrameBy};
ghost use Rattle.image_form.specs.Findings.{MayRead, AreFound};

use crate::place::Place;
use crate::rings::Rings;
use byte_fields::FrameHead;
use frame_group::{GROUP_LEN, HEADS_LEN, PAGE_LEN, group_heads, put_frame};
use site::{Geometry, Site, Stop};
use slotted_page::Page;

// How many heads are present, which stand before the others.
fn count_of(heads: &[FrameHead; 8]) -> usize
    ensures count { result ≡ present_in_front heads.now }
    ensures few { result ≤ 8 }
{
    let mut count = 0;
    for head in heads {
        if !head.present {
            return count;
        }
        count += 1;
    }
    count
}

// Whether a head is that of a page's frame, and the page is sound and one that the disk has.
fn is_frame(head: &FrameHead, page: &Page, pages: u32) -> bool
    ensures { IsTrue result ↔ IsFrameBy pages head.now page.now }
{
    if head.page >= pages {
        return false;
    }
    if head.lsn != page.lsn() {
        return false;
    }
    page.sound()
}

// Whether a content is that of a group, whose frames are sound pages of the disk: its frames are put into an empty
/// content, which then is the same.
fn is_group_on(content: &[u8], pages: u32) -> bool
    requires { length content.now ≡ GROUP_LEN }
    ensures { (g : Geometry) → g.pages ≡ pages
        → IsTrue result ↔ ((frames : List Frame) × IsGroupOn g content.now frames) }
{
    let Ok(heads) = group_heads(content) else {
        return false;
    };
    let mut again = [0u8; GROUP_LEN];
    for index in 0..count_of(&heads) {
        let at = HEADS_LEN + PAGE_LEN * index;
        let page = Page::from_bytes(&content[at..at + PAGE_LEN]);
        if !is_frame(&heads[index], &page, pages) {
            return false;
        }
        put_frame(&mut again, index, &heads[index], page.bytes());
    }
    are_same(content, &again)
}

/// Whether two lists of octets are the same.
pub fn are_same(one: &[u8], other: &[u8]) -> bool
    ensures { IsTrue result ↔ (one.now ≡ other.now) }
{
    one == other
}

/// The first live group that isn't of the form, or has a frame that isn't a sound page of the disk; `None` exactly
/// where there is none: reads each once.
pub fn rule_groups<S: Site>(
    site: &mut S,
    geometry: &Geometry,
    rings: &Rings,
) -> Result<Option<Place>, Stop>
    requires { MayRead geometry.now rings.now (S.state site.old) }

    ensures groups { IsTrue (S.state site.old).honest → AreFound rings.now (S.state site.old)
        → IfOk result (λ failing. IsTrue (is_none failing) ↔ AreGroups geometry.now (S.state site.old).image) }
    ensures looks { ReadsAtMost 0 (9 * geometry.now.groups) (S.state site.old) (S.state site.new) }
    ensures reads { OnlyReads result (S.state site.old) (S.state site.new) }
{
    let ring = &rings.groups;
    for group in ring.oldest()..ring.hi() {
        let mut content = [0u8; GROUP_LEN];
        if let Err(stop) = ring.read_part(site, group, 0, &mut content) {
            return Err(stop);
        }
        if !is_group_on(&content, geometry.pages) {
            return Ok(Some(Place::Group(group)));
        }
    }
    Ok(None)
}
