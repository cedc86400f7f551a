ghost use Rattle.std.specs.Prelude.{◌≡◌, ◌↔◌, ℕ, ◌+◌, ◌≤◌, List, length, get_or, IsTrue, IfOk, IfErr, OnOk, OnErr};
ghost use Rattle.std.specs.List.{AllByRecursion};
ghost use Rattle.byte_fields.specs.declared.frame_head.FrameHead.{FrameHead};
ghost use Rattle.byte_fields.specs.FrameHeads.{blank, spelling_of_all, HasForm, FitsFields};
ghost use Rattle.byte_fields.specs.FrameHeads.{IsHeadAt, AreHeads, AreGroupHeads};
ghost use Rattle.meta_segments.specs.Segments.{AreSegmentHeads, IsSegment};

use byte_fields::{BadHead, FrameHead, HEAD_LEN, get_u64, read_head, write_heads};

/// The heads that a segment has: eight of each of four groups.
pub const SEGMENT_HEADS: usize = 32;

/// The octets of a segment's content.
pub const SEGMENT_LEN: usize = 512;

// The octets of the heads of one group.
const GROUP_HEADS_LEN: usize = 128;

/// Writes the content of a segment: its 32 heads, one after the other. A head that isn't present is
/// blank.
pub fn write_segment(heads: &[FrameHead], content: &mut [u8])
    requires heads_size { length heads.now ≡ SEGMENT_HEADS }
    requires form { AllByRecursion HasForm heads.now }
    requires content_size { length content.old ≡ SEGMENT_LEN }
    ensures written { content.new ≡ spelling_of_all heads.now }
    ensures fit { AllByRecursion FitsFields heads.now }
    ensures segment { AreSegmentHeads heads.now → IsSegment content.new heads.now }
{
    write_heads(heads, content);
}

// Whether the head of no frame is spelled at a place, by one test of both halves.
fn is_blank(octets: &[u8], at: usize) -> bool
    requires { at + HEAD_LEN ≤ length octets.now }
    ensures { IsTrue result ↔ IsHeadAt octets.now at blank }
{
    get_u64(octets, at) | get_u64(octets, at + 8) == 0
}

// Reads the eight heads of a group into blank ones: only those that are present are written.
fn read_group(octets: &[u8], heads: &mut [FrameHead]) -> Result<(), BadHead>
    requires octets_size { length octets.now ≡ GROUP_HEADS_LEN }
    requires heads_size { length heads.old ≡ 8 }
    requires blanks { (i : ℕ) → get_or heads.old i blank ≡ blank }
    ensures found { OnOk result (AreHeads octets.now heads.new × AreGroupHeads heads.new) }
    ensures bad { OnErr result ((other : List FrameHead) → AreHeads octets.now other → AreGroupHeads other → ⊥) }
{
    let mut frames = 0;
    for place in 0..8 {
        if !is_blank(octets, HEAD_LEN * place) {
            let head = read_head(octets, HEAD_LEN * place)?;
            if frames < place {
                return Err(BadHead);
            }
            heads[place] = head;
            frames = place + 1;
        }
    }
    if frames > 0 { Ok(()) } else { Err(BadHead) }
}

/// The 32 heads of a segment's content, those of the first group first. `BadHead` comes exactly where
/// the content isn't of the form: a head isn't, or the eight of one of the four groups aren't those of
/// a group.
pub fn segment_heads(content: &[u8]) -> Result<[FrameHead; 32], BadHead>
    requires { length content.now ≡ SEGMENT_LEN }
    ensures found { IfOk result (λ heads. IsSegment content.now heads) }
    ensures bad { IfErr result (λ e. (heads : List FrameHead) → IsSegment content.now heads → ⊥) }
{
    let mut heads = [FrameHead::BLANK; 32];
    for group in 0..4 {
        let at = GROUP_HEADS_LEN * group;
        let octets = &content[at..at + GROUP_HEADS_LEN];
        read_group(octets, &mut heads[8 * group..8 * group + 8])?;
    }
    Ok(heads)
}
