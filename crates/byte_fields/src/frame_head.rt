ghost use Rattle.std.specs.Prelude.{◌≡◌, ℕ, ◌+◌, ◌*◌, ◌≤◌, List, [], ◌∷◌, length, IfOk, IfErr, OnErr, OnOk, IsTrue};
ghost use Rattle.std.specs.Prelude.{◌↔◌, Bool};
ghost use Rattle.std.specs.List.{AllByRecursion};
ghost use Rattle.byte_fields.specs.declared.frame_head.FrameHead.{FrameHead};
ghost use Rattle.byte_fields.specs.Writes.{Writes};
ghost use Rattle.byte_fields.specs.FrameHeads.{flag, blank, spelling, spelling_of_all, HasForm, IsHeadAt, AreHeads};
ghost use Rattle.byte_fields.specs.FrameHeads.{present_in_front, AreGroupHeads};

use crate::{get_u16, get_u32, get_u64, put_u16, put_u32, put_u64};

/// The head of a frame: what stands beside a page in a group on flash. `lsn` is the LSN that the page
/// has. A head of no frame isn't present, and all its other fields are 0 or false.
#[derive(Clone, Copy, Debug, PartialEq, Eq)]
pub struct FrameHead {
    pub present: bool,
    pub dirty: bool,
    pub page: u32,
    pub lsn: u64,
}

impl FrameHead {
    /// The head of no frame.
    pub const BLANK: FrameHead = FrameHead {
        present: false,
        dirty: false,
        page: 0,
        lsn: 0,
    };
}

/// The octets aren't those of a head, or of the heads of a group.
#[derive(Clone, Copy, Debug, PartialEq, Eq)]
pub struct BadHead;

/// What a plan and a listing know of a frame: its page, whether it is the last frame of its page,
/// whether its page has changes that the disk doesn't have, and whether it was read since it was
/// written.
#[derive(Clone, Copy, Debug, PartialEq, Eq)]
pub struct Mark {
    pub page: u32,
    pub valid: bool,
    pub dirty: bool,
    pub referenced: bool,
}

/// The octets of a head.
pub const HEAD_LEN: usize = 16;

fn flag_of(octet: u8) -> Result<bool, BadHead>
    ensures found { IfOk result (λ set. octet ≡ flag set) }
    ensures bad { IfErr result (λ e. (set : Bool) → octet ≡ flag set → ⊥) }
{
    match octet {
        0 => Ok(false),
        1 => Ok(true),
        _ => Err(BadHead),
    }
}

fn has_form(head: &FrameHead) -> bool
    ensures { IsTrue result ↔ HasForm head.now }
{
    head.present || *head == FrameHead::BLANK
}

// Whether the head of no frame is spelled at a place: most heads are, where groups have few frames.
fn is_blank_at(bytes: &[u8], at: usize) -> bool
    requires { at + HEAD_LEN ≤ length bytes.now }
    ensures { IsTrue result ↔ IsHeadAt bytes.now at blank }
{
    get_u64(bytes, at) == 0 && get_u64(bytes, at + 8) == 0
}

/// The head whose 16 octets begin at a place. `BadHead` comes exactly where no head is spelled there.
pub fn read_head(bytes: &[u8], at: usize) -> Result<FrameHead, BadHead>
    requires { at + HEAD_LEN ≤ length bytes.now }
    ensures found { IfOk result (λ head. IsHeadAt bytes.now at head) }
    ensures bad { IfErr result (λ e. (head : FrameHead) → IsHeadAt bytes.now at head → ⊥) }
{
    if is_blank_at(bytes, at) {
        return Ok(FrameHead::BLANK);
    }
    let present = flag_of(bytes[at])?;
    let dirty = flag_of(bytes[at + 1])?;
    let head = FrameHead {
        present,
        dirty,
        page: get_u32(bytes, at + 4),
        lsn: get_u64(bytes, at + 8),
    };
    if get_u16(bytes, at + 2) != 0 {
        return Err(BadHead);
    }
    if has_form(&head) {
        Ok(head)
    } else {
        Err(BadHead)
    }
}

fn write_flag(set: bool, bytes: &mut [u8], at: usize)
    requires { at + 1 ≤ length bytes.old }
    ensures { Writes bytes.old bytes.new at (flag set ∷ []) }
{
    bytes[at] = if set { 1 } else { 0 };
}

/// Writes the 16 octets of a head from a place on. All other octets stay.
pub fn write_head(head: &FrameHead, bytes: &mut [u8], at: usize)
    requires inside { at + HEAD_LEN ≤ length bytes.old }
    requires form { HasForm head.now }
    ensures written { Writes bytes.old bytes.new at (spelling head.now) }
    ensures spelled { IsHeadAt bytes.new at head.now }
{
    write_flag(head.present, bytes, at);
    write_flag(head.dirty, bytes, at + 1);
    put_u16(bytes, at + 2, 0);
    put_u32(bytes, at + 4, head.page);
    put_u64(bytes, at + 8, head.lsn);
}

/// Reads as many heads as are asked for, which stand one after the other from the front of the
/// octets on. `BadHead` comes exactly where so many heads aren't spelled there.
pub fn read_heads(bytes: &[u8], heads: &mut [FrameHead]) -> Result<(), BadHead>
    requires { HEAD_LEN * length heads.old ≤ length bytes.now }
    ensures found { OnOk result (AreHeads bytes.now heads.new) }
    ensures bad { OnErr result ((other : List FrameHead) → length other ≡ length heads.old
        → AreHeads bytes.now other → ⊥) }
{
    for place in 0..heads.len() {
        heads[place] = read_head(bytes, HEAD_LEN * place)?;
    }
    Ok(())
}

/// Writes heads one after the other from the front of the octets on. All other octets stay.
pub fn write_heads(heads: &[FrameHead], bytes: &mut [u8])
    requires inside { HEAD_LEN * length heads.now ≤ length bytes.old }
    requires form { AllByRecursion HasForm heads.now }
    ensures written { Writes bytes.old bytes.new 0 (spelling_of_all heads.now) }
    ensures spelled { AreHeads bytes.new heads.now }
{
    for place in 0..heads.len() {
        write_head(&heads[place], bytes, HEAD_LEN * place);
    }
}

fn frames_in_front(heads: &[FrameHead]) -> usize
    ensures front { result ≡ present_in_front heads.now }
    ensures within { result ≤ length heads.now }
{
    for (place, head) in heads.iter().enumerate() {
        if !head.present {
            return place;
        }
    }
    heads.len()
}

fn all_blank(heads: &[FrameHead]) -> bool
    ensures { IsTrue result ↔ AllByRecursion (λ head. head ≡ blank) heads.now }
{
    heads.iter().all(|head| *head == FrameHead::BLANK)
}

/// Whether these are the heads of a group: eight, the first of them present, at least one, and all
/// others blank.
pub fn are_group_heads(heads: &[FrameHead]) -> bool
    ensures { IsTrue result ↔ AreGroupHeads heads.now }
{
    let frames = frames_in_front(heads);
    heads.len() == 8 && frames > 0 && all_blank(&heads[frames..])
}
