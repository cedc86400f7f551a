// Where each page's last frame stands, kept as groups enter the queue and leave it.
ghost use Rattle.std.specs.Prelude.{◌≡◌, ◌+◌, ◌<◌, ◌≤◌, ◌==◌, ℕ, nat_eq, length, drop, IsTrue, OnOk, OnErr, IfErr};
ghost use Rattle.std.specs.Prelude.{if◌then◌else◌};
ghost use Rattle.std.specs.VecDeque.{deque_len, deque_capacity};
ghost use Rattle.indexmap.specs.IndexMap.{get, spare};
ghost use Rattle.second_chance.specs.Queue.{in_group};
ghost use Rattle.flash_directory.specs.Places.{elsewhere, newer, FindsNewest};

use crate::group::Group;
use crate::place::Place;
use indexmap::IndexMap;
use site::Stop;
use std::collections::VecDeque;

/// The most frames that a group has.
pub const FRAMES: usize = 8;

/// A page's place is forgotten where it is in the group of this number.
fn forget(places: &mut IndexMap<u32, Place>, page: u32, number: u64)
    ensures forgets { (n : ℕ) → get nat_eq places.new n
        ≡ (if page == n then elsewhere number (get nat_eq places.old n) else get nat_eq places.old n) }
    ensures room { spare places.old ≤ spare places.new }
{
    let Some(place) = places.get(&page).copied() else {
        return;
    };
    if place.group == number {
        places.swap_remove(&page);
    }
}

/// All places in a group are forgotten, which has this number.
fn forget_group(places: &mut IndexMap<u32, Place>, group: &Group, number: u64)
    ensures forgets { (n : ℕ) → get nat_eq places.new n
        ≡ (if in_group group.now n then elsewhere number (get nat_eq places.old n) else get nat_eq places.old n) }
    ensures room { spare places.old ≤ spare places.new }
{
    for frame in group.as_slice() {
        forget(places, frame.page, number);
    }
}

/// Each page of a group, which has this number, now has its last frame there. There is room for all of them.
pub fn enter_group(places: &mut IndexMap<u32, Place>, group: &Group, number: u64)
    requires room { 8 ≤ spare places.old }
    ensures enters { (n : ℕ) → get nat_eq places.new n ≡ newer number group.now n (get nat_eq places.old n) }
{
    for (index, frame) in group.as_slice().iter().enumerate() {
        let place = Place {
            group: number,
            index: index as u8,
        };
        let Ok(_) = places.insert(frame.page, place) else {
            unreachable!();
        };
    }
}

/// The front group leaves where it is said to, and there is room for another one. The first group has this number.
/// Where memory is wanting all stays as it was.
pub fn drop_front_group(
    groups: &mut VecDeque<Group>,
    places: &mut IndexMap<u32, Place>,
    first: u64,
    drop_front: bool,
) -> Result<(), Stop>
    requires front { IsTrue drop_front → 0 < length groups.old.items }
    ensures groups { OnOk result (groups.new.items
        ≡ (if drop_front then drop 1 groups.old.items else groups.old.items)) }
    ensures places { FindsNewest places.old (record { first = first; groups = groups.old.items })
        → OnOk result (FindsNewest places.new (record {
          first = (if drop_front then first + 1 else first);
          groups = groups.new.items;
        })) }
    ensures room { OnOk result (deque_len groups.new < deque_capacity groups.new) }
    ensures places_room { spare places.old ≤ spare places.new }
    ensures same_groups { OnErr result (groups.new.items ≡ groups.old.items) }
    ensures same_places { OnErr result (places.new.entries ≡ places.old.entries) }
    ensures memory { IfErr result (λ stop. stop ≡ Stop.Memory) }
{
    if !drop_front {
        groups.reserve(1)?;
        return Ok(());
    }
    let Some(front) = groups.pop_front() else {
        unreachable!();
    };
    forget_group(places, &front, first);
    Ok(())
}
