// Where each page's last frame stands, in a table by the pages' numbers.
ghost use Rattle.std.specs.Prelude.{◌≡◌, ◌<◌, ◌==◌, ℕ, length, OnOk, IfSome, if◌then◌else◌};
ghost use Rattle.second_chance.specs.Queue.{in_group};
ghost use Rattle.flash_directory.specs.Places.{elsewhere, newer};
ghost use Rattle.policy_sim.specs.Tables.{at_page, place_of};

use crate::queued::Group;
use flash_directory::Place;
use std::alloc::AllocError;

/// What a table has of a page: whether the page has a frame, and where its last one stands.
#[derive(Clone, Copy, Debug)]
pub struct Slot {
    pub some: bool,
    /// The frame's place in its group.
    pub index: u8,
    /// The number of its group.
    pub group: u32,
}

const NO_SLOT: Slot = Slot {
    some: false,
    index: 0,
    group: 0,
};

/// The place that a slot has.
fn place_of(slot: &Slot) -> Option<Place>
    ensures { result ≡ place_of slot.now }
{
    if !slot.some {
        return None;
    }
    Some(Place {
        group: u64::from(slot.group),
        index: slot.index,
    })
}

/// The place of a page's last frame.
pub fn find(slots: &Vec<Slot>, page: u32) -> Option<Place>
    ensures place { result ≡ at_page slots.now.items page }
    ensures within { IfSome result (λ place. page < length slots.now.items) }
{
    let at = page as usize;
    if at >= slots.len() {
        return None;
    }
    place_of(&slots[at])
}

/// Makes a table so long that it has a slot for this page.
fn reach(slots: &mut Vec<Slot>, page: u32) -> Result<(), AllocError>
    ensures same { OnOk result ((n : ℕ) → at_page slots.new.items n ≡ at_page slots.old.items n) }
    ensures long { OnOk result (page < length slots.new.items) }
{
    let at = page as usize;
    if at < slots.len() {
        return Ok(());
    }
    slots.resize(at + 1, NO_SLOT)?;
    Ok(())
}

/// What the table has of a page is now this.
fn put(slots: &mut Vec<Slot>, page: u32, slot: Slot) -> Result<(), AllocError>
    ensures puts { OnOk result ((n : ℕ) → at_page slots.new.items n
        ≡ (if page == n then place_of slot else at_page slots.old.items n)) }
{
    reach(slots, page)?;
    slots[page as usize] = slot;
    Ok(())
}

/// A page's place is forgotten where it is in the group of this number.
fn forget(slots: &mut Vec<Slot>, page: u32, number: u64)
    ensures forgets { (n : ℕ) → at_page slots.new.items n
        ≡ (if page == n then elsewhere number (at_page slots.old.items n) else at_page slots.old.items n) }
{
    let Some(place) = find(slots, page) else {
        return;
    };
    if place.group != number {
        return;
    }
    slots[page as usize] = NO_SLOT;
}

/// All places in a group are forgotten, which has this number.
pub fn forget_group(slots: &mut Vec<Slot>, group: &Group, number: u64)
    ensures forgets { (n : ℕ) → at_page slots.new.items n
        ≡ (if in_group group.now n then elsewhere number (at_page slots.old.items n) else at_page slots.old.items n) }
{
    for frame in group.as_slice() {
        forget(slots, frame.page, number);
    }
}

/// Each page of a group, which has this number, now has its last frame there.
pub fn enter_group(slots: &mut Vec<Slot>, group: &Group, number: u32) -> Result<(), AllocError>
    ensures enters { OnOk result ((n : ℕ) → at_page slots.new.items n
        ≡ newer number group.now n (at_page slots.old.items n)) }
{
    for (index, frame) in group.as_slice().iter().enumerate() {
        let slot = Slot {
            some: true,
            index: index as u8,
            group: number,
        };
        put(slots, frame.page, slot)?;
    }
    Ok(())
}
