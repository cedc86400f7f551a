// The live segments.
ghost use Rattle.std.specs.Prelude.{◌≡◌, ◌↔◌, List, length, is_none, IsTrue, IfOk};
ghost use Rattle.byte_fields.specs.declared.frame_head.FrameHead.{FrameHead};
ghost use Rattle.flash_cache.specs.Representation.{PagesExist};
ghost use Rattle.site.specs.Work.{OnlyReads};
ghost use Rattle.image_form.specs.Counted.{ReadsAtMost, segment_slots};
ghost use Rattle.image_form.specs.Octets.{IsSegmentOn, SegmentsAreFormed};
ghost use Rattle.image_form.specs.Findings.{MayRead, AreFound};

use crate::place::Place;
use crate::rings::Rings;
use byte_fields::FrameHead;
use meta_segments::{SEGMENT_LEN, one_segment, segment_heads};
use site::{Geometry, Site, Stop};

// Whether each head that is present names a page that the disk has.
fn pages_exist(heads: &[FrameHead; 32], pages: u32) -> bool
    ensures { IsTrue result ↔ PagesExist pages heads.now }
{
    for head in heads {
        if head.present && head.page >= pages {
            return false;
        }
    }
    true
}

// Whether a content is that of a segment, with heads of pages that the disk has.
fn is_segment_on(content: &[u8], pages: u32) -> bool
    requires { length content.now ≡ SEGMENT_LEN }
    ensures { IsTrue result ↔ ((heads : List FrameHead) × IsSegmentOn pages content.now heads) }
{
    one_segment();
    match segment_heads(content) {
        Ok(heads) => pages_exist(&heads, pages),
        Err(_) => false,
    }
}

/// The first live segment that isn't of the form, or has a head of a page that the disk hasn't; `None` exactly where
/// there is none: reads each once.
pub fn rule_segments<S: Site>(
    site: &mut S,
    geometry: &Geometry,
    rings: &Rings,
) -> Result<Option<Place>, Stop>
    requires { MayRead geometry.now rings.now (S.state site.old) }

    ensures segments { IsTrue (S.state site.old).honest → AreFound rings.now (S.state site.old)
        → IfOk result (λ failing. IsTrue (is_none failing) ↔ SegmentsAreFormed geometry.now (S.state site.old).image) }
    ensures looks { ReadsAtMost 0 (segment_slots geometry.now) (S.state site.old) (S.state site.new) }
    ensures reads { OnlyReads result (S.state site.old) (S.state site.new) }
{
    let ring = &rings.segments;
    for segment in ring.oldest()..ring.hi() {
        let mut content = [0u8; SEGMENT_LEN];
        if let Err(stop) = ring.read_part(site, segment, 0, &mut content) {
            return Err(stop);
        }
        if !is_segment_on(&content, geometry.pages) {
            return Ok(Some(Place::Segment(segment)));
        }
    }
    Ok(None)
}
