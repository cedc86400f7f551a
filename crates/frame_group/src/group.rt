ghost use Rattle.std.specs.Prelude.{◌≡◌, ℕ, ◌+◌, ◌*◌, ◌<◌, ◌≤◌, List, [], ◌∷◌, ◌++◌, length, IfOk, IfErr, IsTrue};
ghost use Rattle.byte_fields.specs.declared.frame_head.FrameHead.{FrameHead};
ghost use Rattle.byte_fields.specs.FrameHeads.{spelling};
ghost use Rattle.frame_group.specs.Groups.{Frame, lsn_of, frame_of, put, group, IsFrame, IsGroup, HasHeads, heads_of};

use byte_fields::{BadHead, FrameHead, HEAD_LEN, are_group_heads, read_heads, write_head};

/// The octets of a page.
pub const PAGE_LEN: usize = 4_096;

/// The octets of the heads of a group, which stand before its pages.
pub const HEADS_LEN: usize = 128;

/// The octets of a group's content.
pub const GROUP_LEN: usize = 32_896;

/// Writes the frame of a place into a group's content: its head, which is present and has the LSN of
/// the page, and its page. All other octets stay. A group is made of a content of zeros by putting its
/// frames in order.
pub fn put_frame(content: &mut [u8], index: usize, head: &FrameHead, page: &[u8])
    requires content_size { length content.old ≡ GROUP_LEN }
    requires page_size { length page.now ≡ PAGE_LEN }
    requires index_in { index < 8 }
    requires present { IsTrue head.now.present }
    requires lsn { head.now.lsn ≡ lsn_of page.now }
    ensures written { content.new ≡ put (put content.old (HEAD_LEN * index) (spelling head.now))
        (HEADS_LEN + PAGE_LEN * index) page.now }
    ensures frame { IsFrame (frame_of head.now page.now) }
    ensures grown { (frames : List Frame) → length frames ≡ index → content.old ≡ group frames
        → content.new ≡ group (frames ++ frame_of head.now page.now ∷ []) }
{
    write_head(head, content, HEAD_LEN * index);
    let at = HEADS_LEN + PAGE_LEN * index;
    content[at..at + PAGE_LEN].copy_from_slice(page);
}

/// The eight heads that a group's content begins with. `BadHead` comes exactly where the content
/// doesn't begin with the heads of a group: a head isn't of the form, none is present, or a present one
/// follows one that isn't.
pub fn group_heads(content: &[u8]) -> Result<[FrameHead; 8], BadHead>
    requires { HEADS_LEN ≤ length content.now }
    ensures found { IfOk result (λ heads. HasHeads content.now heads) }
    ensures frames { IfOk result (λ heads. (frames : List Frame) → IsGroup content.now frames
        → heads ≡ heads_of frames) }
    ensures bad { IfErr result (λ e. (heads : List FrameHead) → HasHeads content.now heads → ⊥) }
{
    let mut heads = [FrameHead::BLANK; 8];
    read_heads(content, &mut heads)?;
    if are_group_heads(&heads) {
        Ok(heads)
    } else {
        Err(BadHead)
    }
}
