// The content of a group.
ghost use Rattle.std.specs.Prelude.{◌≡◌, ◌+◌, ◌≤◌, ◌++◌, List, length};
ghost use Rattle.std.specs.List.{AllByRecursion};
ghost use Rattle.frame_group.specs.Groups.{Frame, IsFrame, heads_of};
ghost use Rattle.flash_cache.specs.Pushed.{frames_given};
ghost use Rattle.flash_cache.specs.Leaving.{frames_with, again, IsMadeOf};

use crate::leaving::DepartingFrames;
use byte_fields::FrameHead;
use frame_group::{GROUP_LEN, put_frame};
use slotted_page::Page;

/// What is given to a push: pages, whether each was changed, what each has, and the heads that they make.
#[derive(Drop)]
pub struct PagesToPush<'a> {
    pub pages: &'a [u32],
    pub changed: &'a [bool],
    pub contents: &'a [Page],
    pub heads: [FrameHead; 8],
}

/// The eight heads of a group with the frames given, of which there are at most eight.
pub fn heads_given(pages: &[u32], changed: &[bool], contents: &[Page]) -> [FrameHead; 8]
    requires marks { length changed.now ≡ length pages.now }
    requires lists { length contents.now ≡ length pages.now }
    requires few { length pages.now ≤ 8 }

    ensures heads { result ≡ heads_of (frames_given pages.now changed.now contents.now) }
    ensures are_frames { AllByRecursion IsFrame (frames_given pages.now changed.now contents.now) }
{
    let mut heads = [FrameHead::BLANK; 8];
    for index in 0..pages.len() {
        let page = &contents[index];
        // A page is as long as a frame's.
        let _octets = page.bytes();
        heads[index] = FrameHead {
            present: true,
            dirty: changed[index],
            page: pages[index],
            lsn: page.lsn(),
        };
    }
    heads
}

/// A group as it is written, and its heads.
#[derive(Drop)]
pub struct NewGroup {
    pub content: [u8; GROUP_LEN],
    pub heads: [FrameHead; 8],
}

/// The group with the second chances, and behind them the frames that these heads and contents make.
pub fn new_group(chances: &DepartingFrames, heads: &[FrameHead; 8], contents: &[Page]) -> NewGroup
    requires marks { length chances.now.dirty.items ≡ length chances.now.pages.items }
    requires lists { length chances.now.contents.items ≡ length chances.now.pages.items }
    requires few { length chances.now.pages.items + length contents.now ≤ 8 }
    requires heads { heads.now ≡ heads_of (frames_with heads.now contents.now) }

    ensures content { IsMadeOf result (again chances.now ++ frames_with heads.now contents.now) }
    ensures are_frames { AllByRecursion IsFrame (again chances.now ++ frames_with heads.now contents.now) }
{
    let octets = chances.contents.as_slice();
    let first = heads_given(chances.pages.as_slice(), chances.dirty.as_slice(), octets);
    let mut group = NewGroup {
        content: [0; GROUP_LEN],
        heads: [FrameHead::BLANK; 8],
    };
    put_frames(&mut group, 0, &first, octets);
    put_frames(&mut group, octets.len(), heads, contents);
    group
}

/// Puts the frames that these heads and contents make behind the first ones of a group.
fn put_frames(group: &mut NewGroup, from: usize, heads: &[FrameHead; 8], contents: &[Page])
    requires few { from + length contents.now ≤ 8 }
    requires heads { heads.now ≡ heads_of (frames_with heads.now contents.now) }

    ensures grown { (before : List Frame) → length before ≡ from → IsMadeOf group.old before
        → IsMadeOf group.new (before ++ frames_with heads.now contents.now) }
    ensures are_frames { AllByRecursion IsFrame (frames_with heads.now contents.now) }
{
    for (index, page) in contents.iter().enumerate() {
        group.heads[from + index] = heads[index];
        put_frame(
            &mut group.content,
            from + index,
            &heads[index],
            page.bytes(),
        );
    }
}
