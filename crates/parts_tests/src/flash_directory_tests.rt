ghost use Rattle.std.specs.Prelude.{◌≤◌, length, All};
ghost use Rattle.std.specs.Bool.{OnTrue};
ghost use Rattle.byte_fields.specs.FrameHeads.{AreGroupHeads};

use byte_fields::{FrameHead, Mark, are_group_heads};
use flash_directory::{Directory, HeadView, Place};
use site::Stop;
use std::test::Fail;

// A row of a test.
#[derive(Clone, Copy)]
enum Step {
    // The directory has this first group and so many.
    Has(u64, usize),
    // The last frame of a page is this one of this group; or it has none.
    Newest(u32, u64, u8),
    Absent(u32),
    // The frames of the group at this place have these marks: page, whether they are valid, dirty and referenced.
    Marks(usize, &'static [(u32, bool, bool, bool)]),
    // A page is read.
    Refer(u32),
    // A group with these pages, each dirty or not, is pushed, and the front one taken out.
    Push(&'static [(u32, bool)]),
}

// The heads of a group with these pages, each dirty or not.
fn heads_of(frames: &[(u32, bool)]) -> [FrameHead; 8]
    requires { length frames.now ≤ 8 }
{
    let mut heads = [FrameHead::BLANK; 8];
    for (place, (page, dirty)) in frames.iter().enumerate() {
        heads[place] = FrameHead {
            present: true,
            dirty: *dirty,
            page: *page,
            lsn: 512,
        };
    }
    heads
}

// Whether each has the form of a group's heads.
fn are_groups(list: &[[FrameHead; 8]]) -> bool
    ensures { OnTrue result (All (λ group. AreGroupHeads group) list.now) }
{
    for group in list {
        if !are_group_heads(group) {
            return false;
        }
    }
    true
}

const NO_MARK: Mark = Mark {
    page: 0,
    valid: false,
    dirty: false,
    referenced: false,
};

// Whether the frames of the group at a place have these marks.
fn has_marks(directory: &Directory, place: usize, wanted: &[(u32, bool, bool, bool)]) -> bool {
    if place >= directory.len() {
        return false;
    }
    let mut marks = [NO_MARK; 8];
    if directory.marks(place, &mut marks) != wanted.len() {
        return false;
    }
    for (mark, (page, valid, dirty, referenced)) in marks.iter().zip(wanted) {
        let same = mark.page == *page && mark.valid == *valid;
        if !same || mark.dirty != *dirty || mark.referenced != *referenced {
            return false;
        }
    }
    true
}

// Marks a page as read, where it has a frame.
fn refer(directory: &mut Directory, page: u32) -> bool {
    if directory.newest(page).is_none() {
        return false;
    }
    directory.set_referenced(page);
    true
}

// Puts a group behind the others, and takes the front one out, once it is known that it may.
fn push(directory: &mut Directory, heads: &[FrameHead; 8], drop_front: bool) -> Result<bool, Stop> {
    if !are_group_heads(heads) || directory.first() + directory.len() as u64 > 1 << 40 {
        return Ok(false);
    }
    if drop_front && directory.len() == 0 {
        return Ok(false);
    }
    directory.push_group(heads, drop_front)?;
    Ok(true)
}

// Makes a call, or looks, and answers whether that is as the row says.
fn holds(directory: &mut Directory, step: Step) -> Result<bool, Stop> {
    match step {
        Step::Has(first, len) => Ok(directory.first() == first && directory.len() == len),
        Step::Newest(page, group, index) => {
            Ok(directory.newest(page) == Some(Place { group, index }))
        }
        Step::Absent(page) => Ok(directory.newest(page).is_none()),
        Step::Marks(place, marks) => Ok(has_marks(directory, place, marks)),
        Step::Refer(page) => Ok(refer(directory, page)),
        Step::Push(frames) => {
            if frames.len() > 8 {
                return Ok(false);
            }
            push(directory, &heads_of(frames), true)
        }
    }
}

// Groups 5 and 6, then group 7 in place of group 5. Page 2 is read in between, and keeps its reference.
const STEPS: [Step; 14] = [
    Step::Has(5, 2),
    Step::Newest(1, 6, 1),
    Step::Newest(3, 5, 2),
    Step::Absent(4),
    Step::Marks(
        0,
        &[
            (1, false, true, false),
            (2, false, false, false),
            (3, true, true, false),
        ],
    ),
    Step::Newest(2, 6, 0),
    Step::Refer(2),
    Step::Push(&[(1, true), (4, true)]),
    Step::Has(6, 2),
    Step::Newest(1, 7, 0),
    Step::Absent(3),
    Step::Marks(0, &[(2, true, true, true), (1, false, false, false)]),
    Step::Marks(1, &[(1, true, true, false), (4, true, true, false)]),
    Step::Newest(4, 7, 1),
];

#[test]
fn a_page_is_found_in_its_last_frame(rt: HostRuntime) -> Result<(), Fail> {
    let list = [
        heads_of(&[(1, true), (2, false), (3, true)]),
        heads_of(&[(2, true), (1, false)]),
    ];
    let list: &[[FrameHead; 8]] = &list;
    assert!(rt; are_groups(list));
    let mut directory = Directory::of_groups(rt.alloc(), &HeadView { first: 5, list })?;
    for (row, step) in STEPS.iter().enumerate() {
        assert!(rt; holds(&mut directory, *step)?, "row {row}");
    }
    Ok(())
}

// The heads of a group of eight pages, the first of which has this number.
fn eight_from(page: u32) -> [FrameHead; 8] {
    let mut heads = [FrameHead::BLANK; 8];
    for place in 0..8 {
        heads[place] = FrameHead {
            present: true,
            dirty: true,
            page: page.wrapping_add(place as u32),
            lsn: 512,
        };
    }
    heads
}

// Puts a group of eight pages behind the others, and takes the front one out where there are five.
fn push_eight(directory: &mut Directory, page: u32) -> Result<bool, Stop> {
    let drop_front = directory.len() >= 5;
    push(directory, &eight_from(page), drop_front)
}

// Whether the groups are those numbered from `first` up to `end`, each with the eight pages from eight times its number
// on.
fn has_groups(directory: &Directory, first: u64, end: u64) -> bool {
    if directory.first() != first || directory.len() as u64 != end.wrapping_sub(first) {
        return false;
    }
    for group in 0..9u64 {
        let page = group as u32 * 8 + 3;
        let place = if first <= group && group < end {
            Some(Place { group, index: 3 })
        } else {
            None
        };
        if directory.newest(page) != place {
            return false;
        }
    }
    true
}

// Where memory is refused to a push the directory stays as it was, and the next push is made.
// `checks/refused_memory.sh` refuses each allocation in turn, and counts on the line that tells of it.
#[test]
fn a_refused_push_leaves_the_directory_as_it_was(rt: HostRuntime) -> Result<(), Fail> {
    let list: &[[FrameHead; 8]] = &[];
    assert!(rt; are_groups(list));
    let Ok(mut directory) = Directory::of_groups(rt.alloc(), &HeadView { first: 0, list }) else {
        println!(rt; "memory was refused")?;
        return Ok(());
    };
    for group in 0..9u64 {
        let first = group.saturating_sub(5);
        if push_eight(&mut directory, group as u32 * 8).is_err() {
            println!(rt; "memory was refused")?;
            assert!(rt; has_groups(&directory, first, group));
            assert!(rt; push_eight(&mut directory, group as u32 * 8)?);
        }
        assert!(rt; has_groups(&directory, (group + 1).saturating_sub(5), group + 1));
    }
    Ok(())
}
