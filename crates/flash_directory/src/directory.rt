ghost use Rattle.std.specs.Prelude.{◌≡◌, ◌↔◌, ◌+◌, ◌^◌, ◌<◌, ◌≤◌, ◌==◌, ℕ, nat_eq, length, drop, take, map, All};
ghost use Rattle.std.specs.Prelude.{IsTrue, Some, IfOk, IfErr, IfSome, OnOk, OnErr, is_some, slice_get, if◌then◌else◌};
ghost use Rattle.byte_fields.specs.FrameHeads.{AreGroupHeads};
ghost use Rattle.second_chance.specs.Queue.{has_frame, marks, pushed, with_read};
ghost use Rattle.flash_directory.specs.Heads.{frames_in, newest, IsNewest, IsQueue};

use crate::group::Group;
use crate::place::Place;
use crate::places::{FRAMES, drop_front_group, enter_group};
use byte_fields::{FrameHead, Mark};
use indexmap::IndexMap;
use site::Stop;
use std::alloc::Global;
use std::collections::VecDeque;
use std::marker::Model;

/// The heads of the groups that are in the queue, the oldest group first.
#[derive(Clone, Copy, Debug)]
pub struct HeadView<'a> {
    /// The number of the first group. The others follow it.
    pub first: u64,
    /// The eight heads of each group.
    pub list: &'a [[FrameHead; 8]],
}

/// What is in the queue on flash, by the heads of its groups: where each page's last frame is, and what a plan and a
/// listing know of the frames.
#[derive(Drop)]
pub struct Directory {
    first: u64,
    groups: VecDeque<Group>,
    // Where each page's last frame stands.
    places: IndexMap<u32, Place>,
}

impl Model for Directory {
    ghost use Rattle.second_chance.specs.Queue.{Queue};
    ghost use Rattle.flash_directory.specs.Heads.{IsQueue};
    ghost use Rattle.flash_directory.specs.Places.{FindsNewest};

    ghost Value = { Queue };

    ghost view = { λ d. record { first = d.first; groups = d.groups.items } };

    ghost invariant = { λ d. IsQueue (record { first = d.first; groups = d.groups.items })
        × FindsNewest d.places (record { first = d.first; groups = d.groups.items }) };
}

impl Directory {
    /// The queue of groups with these heads. No frame is referenced.
    pub fn of_groups(alloc: Global, heads: &HeadView) -> Result<Directory, Stop>
        requires first { heads.now.first ≤ 2 ^ 40 }
        requires groups { All (λ group. AreGroupHeads group) heads.now.list.now }
        ensures ok { IfOk result (λ directory. directory
            ≡ record { first = heads.now.first; groups = map frames_in heads.now.list.now }) }
        ensures memory { IfErr result (λ stop. stop ≡ Stop.Memory) }
    {
        let mut groups = VecDeque::with_capacity(alloc, heads.list.len())?;
        let mut places = IndexMap::new(alloc);
        for (index, group) in heads.list.iter().enumerate() {
            let group = Group::of_heads(group);
            places.reserve(FRAMES)?;
            enter_group(&mut places, &group, heads.first + index as u64);
            groups.push_back(group)?;
        }
        Ok(Directory {
            first: heads.first,
            groups,
            places,
        })
    }

    /// The number of the first group in the queue, and of the one that is pushed next where there is none.
    pub fn first(&self) -> u64
        ensures first { result ≡ self.now.first }
        ensures queue { IsQueue self.now }
    {
        self.first
    }

    /// How many groups are in the queue.
    pub fn len(&self) -> usize
        ensures len { result ≡ length self.now.groups }
        ensures queue { IsQueue self.now }
    {
        self.groups.len()
    }

    /// Whether no group is in the queue.
    pub fn is_empty(&self) -> bool
        ensures { IsTrue result ↔ (length self.now.groups ≡ 0) }
    {
        self.groups.is_empty()
    }

    /// Where the last frame of a page stands, and none where the page has no frame.
    pub fn newest(&self, page: u32) -> Option<Place>
        ensures newest { result ≡ newest self.now page }
        ensures frame { is_some result ≡ has_frame self.now page }
        ensures last { IfSome result (λ place. IsNewest self.now page place) }
    {
        let place = self.places.get(&page)?;
        Some(*place)
    }

    /// A group enters the queue behind the others, and the front one leaves where it is said to. Where memory is
    /// wanting the queue stays as it was.
    pub fn push_group(&mut self, heads: &[FrameHead; 8], drop_front: bool) -> Result<(), Stop>
        requires heads { AreGroupHeads heads.now }
        requires front { IsTrue drop_front → 0 < length self.old.groups }
        requires number { self.old.first + length self.old.groups ≤ 2 ^ 40 }
        ensures ok { OnOk result (self.new ≡ pushed drop_front (frames_in heads.now) self.old) }
        ensures memory { IfErr result (λ stop. stop ≡ Stop.Memory) }
        ensures err { OnErr result (self.new ≡ self.old) }
    {
        // What wants memory comes first.
        self.places.reserve(FRAMES)?;
        drop_front_group(&mut self.groups, &mut self.places, self.first, drop_front)?;
        self.first = first_then(self.first, drop_front);
        let group = Group::of_heads(heads);
        let number = self.first + self.groups.len() as u64;
        enter_group(&mut self.places, &group, number);
        let Ok(()) = self.groups.push_back(group) else {
            unreachable!();
        };
        Ok(())
    }

    /// The last frame of a page becomes referenced.
    pub fn set_referenced(&mut self, page: u32)
        requires { IsTrue (has_frame self.old page) }
        ensures { self.new ≡ with_read page self.old }
    {
        if let Some(place) = self.newest(page) {
            let group = (place.group - self.first) as usize;
            self.groups[group].set_referenced(place.index as usize);
        }
    }

    /// Writes the marks of a group's frames into the first places of `into`, and answers how many there are. The group
    /// is named by its place in the queue, counted from the front.
    pub fn marks(&self, place: usize, into: &mut [Mark; 8]) -> usize
        requires { place < length self.now.groups }
        ensures marks { slice_get (marks self.now) place ≡ Some (take result into.new) }
        ensures some { 1 ≤ result }
        ensures few { result ≤ 8 }
    {
        let frames = self.groups[place].as_slice();
        let group = self.first + place as u64;
        for (index, frame) in frames.iter().enumerate() {
            let here = Place {
                group,
                index: index as u8,
            };
            into[index] = Mark {
                page: frame.page,
                valid: self.is_newest(frame.page, here),
                dirty: frame.dirty,
                referenced: frame.referenced,
            };
        }
        frames.len()
    }

    /// Whether the last frame of a page stands here.
    fn is_newest(&self, page: u32, here: Place) -> bool
        ensures { IsTrue result ↔ (newest self.now page ≡ Some here) }
    {
        match self.places.get(&page) {
            Some(place) => *place == here,
            None => false,
        }
    }
}

/// The number of the first group, once the front one left where it is said to.
fn first_then(first: u64, drop_front: bool) -> u64
    requires { first < 2 ^ 63 }
    ensures { result ≡ (if drop_front then first + 1 else first) }
{
    if drop_front { first + 1 } else { first }
}
