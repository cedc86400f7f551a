// Whether a value has room in a page.
ghost use Rattle.std.specs.Prelude.{◌≡◌, ◌<◌, ◌≤◌, ◌↔◌, IsTrue, None, slice_set, slice_index_or, option_copied};
ghost use Rattle.slotted_page.specs.Layout.{slots_of, content_length, total_length, IsSound, FitsPage};

use crate::directory::length_of;
use crate::{HEAP_LEN, PAGE_LEN, SLOTS};
use byte_fields::VALUE_MAX;

// The length of what a slot has, or 0 for the slot that is left out.
fn length_unless(octets: &[u8; PAGE_LEN], slot: u8, out: u8) -> usize
    requires sound { IsSound octets.now }
    requires slot { slot < 32 }
    requires left_out { out < 32 }
    ensures number { result ≡ content_length (slice_index_or (slice_set (slots_of octets.now) out None) slot None) }
    ensures short { result ≤ VALUE_MAX }
{
    if slot == out {
        return 0;
    }
    length_of(octets, slot)
}

/// How many octets the values of the other slots have together.
fn length_of_others(octets: &[u8; PAGE_LEN], slot: u8) -> usize
    requires sound { IsSound octets.now }
    requires slot { slot < 32 }
    ensures { result ≡ total_length (slice_set (slots_of octets.now) slot None) }
{
    let mut others = 0;
    for other in 0..SLOTS {
        others += length_unless(octets, other, slot);
    }
    others
}

// The length of a content, 0 where there is no value.
fn length_given(value: Option<&[u8]>) -> usize
    ensures { result ≡ content_length (option_copied value.entry) }
{
    match value {
        None => 0,
        Some(value) => value.len(),
    }
}

/// Whether the values of all slots have room together, with this content in a slot.
pub fn fits(octets: &[u8; PAGE_LEN], slot: u8, value: Option<&[u8]>) -> bool
    requires sound { IsSound octets.now }
    requires slot { slot < 32 }
    ensures { IsTrue result ↔ FitsPage (slots_of octets.now) slot (option_copied value.entry) }
{
    let others = length_of_others(octets, slot);
    let own = length_given(value);
    if others > HEAP_LEN {
        return false;
    }
    own <= HEAP_LEN - others
}
