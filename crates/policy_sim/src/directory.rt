// The queue on flash, with a table by the pages' numbers in place of the maps that a directory of any pages needs.
ghost use Rattle.std.specs.Prelude.{◌≡◌, ◌↔◌, ◌+◌, ◌^◌, ◌<◌, ◌≤◌, ℕ, [], ◌∷◌, ◌++◌, length, drop, take, IsTrue, Some};
ghost use Rattle.std.specs.Prelude.{IfSome, OnOk, is_some, slice_get, if◌then◌else◌};
ghost use Rattle.second_chance.specs.Queue.{has_frame, marks, pushed, with_read};
ghost use Rattle.flash_directory.specs.Heads.{newest, IsNewest};
ghost use Rattle.flash_directory.specs.Places.{newer};
ghost use Rattle.policy_sim.specs.Tables.{at_page, PlacesNewest};

use crate::queued::Group;
use crate::table::{Slot, enter_group, find, forget_group};
use arrayvec::ArrayVec;
use byte_fields::Mark;
use flash_directory::Place;
use second_chance::Frame;
use std::alloc::{AllocError, Global};
use std::collections::VecDeque;
use std::marker::Model;

/// What is in the queue on flash, and where each page's last frame is.
#[derive(Drop)]
pub struct Directory {
    first: u64,
    groups: VecDeque<Group>,
    slots: Vec<Slot>,
}

impl Model for Directory {
    ghost use Rattle.second_chance.specs.Queue.{Queue};
    ghost use Rattle.flash_directory.specs.Heads.{IsQueue};
    ghost use Rattle.policy_sim.specs.Tables.{PlacesNewest};

    ghost Value = { Queue };

    ghost view = { λ d. record { first = d.first; groups = d.groups.items } };

    ghost invariant = { λ d. IsQueue (record { first = d.first; groups = d.groups.items })
        × PlacesNewest d.slots.items (record { first = d.first; groups = d.groups.items }) };
}

impl Directory {
    /// A queue without groups.
    pub fn new(alloc: Global) -> Directory
        ensures { result ≡ record { first = 0; groups = [] } }
    {
        Directory {
            first: 0,
            groups: VecDeque::new(alloc),
            slots: Vec::new(alloc),
        }
    }

    /// How many groups are in the queue.
    pub fn len(&self) -> usize
        ensures { result ≡ length self.now.groups }
    {
        self.groups.len()
    }

    /// Where the last frame of a page stands, and none where the page has no frame.
    pub fn newest(&self, page: u32) -> Option<Place>
        ensures newest { result ≡ newest self.now page }
        ensures frame { is_some result ≡ has_frame self.now page }
        ensures last { IfSome result (λ place. IsNewest self.now page place) }
    {
        find(&self.slots, page)
    }

    /// A group of these frames enters the queue behind the others, and the front one leaves where it is said to. Where
    /// memory is wanting the queue is empty then.
    pub fn push_group(
        &mut self,
        frames: ArrayVec<Frame, 8>,
        drop_front: bool,
    ) -> Result<(), AllocError>
        requires some { 1 ≤ length frames.items }
        requires few { length frames.items ≤ 8 }
        requires front { IsTrue drop_front → 0 < length self.old.groups }
        requires number { self.old.first + length self.old.groups ≤ 2 ^ 31 }
        ensures ok { OnOk result (self.new ≡ pushed drop_front frames.items self.old) }
    {
        drop_front_group(&mut self.groups, &mut self.slots, self.first, drop_front);
        self.first = first_then(self.first, drop_front);
        let group = Group::of_frames(frames);
        let number = (self.first + self.groups.len() as u64) as u32;
        if let Err(stop) = append(&mut self.groups, &mut self.slots, group, number) {
            self.groups.clear();
            self.slots.clear();
            return Err(stop);
        }
        Ok(())
    }

    /// The last frame of a page becomes referenced.
    pub fn set_referenced(&mut self, page: u32)
        requires { IsTrue (has_frame self.old page) }
        ensures { self.new ≡ with_read page self.old }
    {
        if let Some(place) = self.newest(page) {
            let group = (place.group - self.first) as usize;
            self.groups[group].set_referenced(place.index as usize);
        }
    }

    /// Writes the marks of a group's frames into the first places of `into`, and answers how many there are. The group
    /// is named by its place in the queue, counted from the front.
    pub fn marks(&self, place: usize, into: &mut [Mark; 8]) -> usize
        requires { place < length self.now.groups }
        ensures marks { slice_get (marks self.now) place ≡ Some (take result into.new) }
        ensures some { 1 ≤ result }
        ensures few { result ≤ 8 }
    {
        let frames = self.groups[place].as_slice();
        let group = self.first + place as u64;
        for (index, frame) in frames.iter().enumerate() {
            let here = Place {
                group,
                index: index as u8,
            };
            into[index] = Mark {
                page: frame.page,
                valid: self.is_newest(frame.page, here),
                dirty: frame.dirty,
                referenced: frame.referenced,
            };
        }
        frames.len()
    }

    /// Whether the last frame of a page stands here.
    fn is_newest(&self, page: u32, here: Place) -> bool
        ensures { IsTrue result ↔ (newest self.now page ≡ Some here) }
    {
        match self.newest(page) {
            Some(place) => place == here,
            None => false,
        }
    }
}

/// The number of the first group, once the front one left where it is said to.
fn first_then(first: u64, drop_front: bool) -> u64
    requires { first < 2 ^ 63 }
    ensures { result ≡ (if drop_front then first + 1 else first) }
{
    if drop_front { first + 1 } else { first }
}

/// The front group leaves where it is said to. The first group has this number.
fn drop_front_group(
    groups: &mut VecDeque<Group>,
    slots: &mut Vec<Slot>,
    first: u64,
    drop_front: bool,
)
    requires front { IsTrue drop_front → 0 < length groups.old.items }
    ensures groups { groups.new.items ≡ (if drop_front then drop 1 groups.old.items else groups.old.items) }
    ensures places { PlacesNewest slots.old.items (record { first = first; groups = groups.old.items })
        → PlacesNewest slots.new.items (record {
          first = (if drop_front then first + 1 else first);
          groups = groups.new.items;
        }) }
{
    if !drop_front {
        return;
    }
    let Some(front) = groups.pop_front() else {
        unreachable!();
    };
    forget_group(slots, &front, first);
}

/// A group, which has this number, enters the queue behind the others.
fn append(
    groups: &mut VecDeque<Group>,
    slots: &mut Vec<Slot>,
    group: Group,
    number: u32,
) -> Result<(), AllocError>
    ensures groups { OnOk result (groups.new.items ≡ groups.old.items ++ group ∷ []) }
    ensures enters { OnOk result ((n : ℕ)
        → at_page slots.new.items n ≡ newer number group n (at_page slots.old.items n)) }
{
    enter_group(slots, &group, number)?;
    groups.push_back(group)?;
    Ok(())
}
