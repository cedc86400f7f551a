// The frames of a new group.
ghost use Rattle.std.specs.Prelude.{◌≡◌, ◌+◌, ◌≤◌, ◌++◌, length};
ghost use Rattle.second_chance.specs.Queue.{frame_of};
ghost use Rattle.second_chance.specs.Laws.{given_again};
ghost use Rattle.policy_sim.specs.Pools.{page_of, pages_of, pulled_frames, group_of};

use crate::entry::Entry;
use crate::pool::Pool;
use arrayvec::ArrayVec;
use byte_fields::Mark;
use second_chance::{Frame, Places, Plan};

/// The frames of the group that a plan says, beside the evicted page: those that are given a second chance, of a front
/// group with these marks, then the evicted page, then the pages that are pulled from the pool.
pub fn new_group(front: &[Mark], plan: &Plan, own: &Entry, pool: &Pool) -> ArrayVec<Frame, 8>
    requires { length plan.now.chances + length plan.now.pulled ≤ 7 }
    ensures frames { result.items ≡ group_of front.now plan.now (page_of own.now) (pages_of pool.now) }
{
    let mut frames = given_again(front, &plan.chances);
    frames.push(unread(own.page, own.changed));
    add_pulled(&mut frames, &plan.pulled, pool);
    frames
}

/// The frames that are given a second chance.
fn given_again(front: &[Mark], chances: &Places) -> ArrayVec<Frame, 8>
    ensures frames { result.items ≡ given_again front.now chances.now }
    ensures few { length result.items ≤ length chances.now }
{
    let mut frames = ArrayVec::new();
    for place in 0..chances.len() {
        if let Some(mark) = front.get(chances.at(place) as usize) {
            frames.push(unread(mark.page, mark.dirty));
        }
    }
    frames
}

/// Adds the pages that are pulled from the pool.
fn add_pulled(frames: &mut ArrayVec<Frame, 8>, pulled: &Places, pool: &Pool)
    requires { length frames.old.items + length pulled.now ≤ 8 }
    ensures { frames.new.items ≡ frames.old.items ++ pulled_frames (pages_of pool.now) pulled.now }
{
    for place in 0..pulled.len() {
        let page = pulled.at(place);
        frames.push(unread(page, pool.is_changed(page)));
    }
}

/// A frame as it comes into a group.
fn unread(page: u32, dirty: bool) -> Frame
    ensures { result ≡ frame_of page dirty }
{
    Frame {
        page,
        dirty,
        referenced: false,
    }
}
