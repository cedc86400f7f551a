// Whether octets are those of a sound page.
ghost use Rattle.std.specs.Prelude.{◌≡◌, ◌+◌, ◌<◌, ◌≤◌, ◌↔◌, ℕ, take, drop, replicate, IsTrue};
ghost use Rattle.slotted_page.specs.Layout.{IsEntry, AreApart, IsSound};

use crate::directory::{code_of, length_of, offset_of, used_of};
use crate::{HEAP_LEN, PAGE_LEN, SLOTS};
use byte_fields::VALUE_MAX;

fn is_zero(octets: &[u8; PAGE_LEN]) -> bool
    ensures { IsTrue result ↔ (take 6 (drop 10 octets.now) ≡ replicate 6 0) }
{
    octets[10..16] == [0; 6]
}

fn is_entry(octets: &[u8; PAGE_LEN], slot: u8) -> bool
    requires slot { slot < 32 }
    ensures { IsTrue result ↔ IsEntry octets.now slot }
{
    let offset = offset_of(octets, slot);
    let code = code_of(octets, slot);
    if code == 0 {
        return offset == 0;
    }
    code <= VALUE_MAX + 1 && PAGE_LEN <= offset + used_of(octets) && offset + code <= PAGE_LEN + 1
}

fn are_entries(octets: &[u8; PAGE_LEN]) -> bool
    ensures { IsTrue result ↔ ((slot : ℕ) → slot < 32 → IsEntry octets.now slot) }
{
    for slot in 0..SLOTS {
        if !is_entry(octets, slot) {
            return false;
        }
    }
    true
}

fn are_two_apart(octets: &[u8; PAGE_LEN], a: u8, b: u8) -> bool
    requires a { a < 32 }
    requires b { b < 32 }
    ensures { IsTrue result ↔ AreApart octets.now a b }
{
    let a_len = length_of(octets, a);
    let b_len = length_of(octets, b);
    if a_len == 0 || b_len == 0 {
        return true;
    }
    let a_offset = offset_of(octets, a);
    let b_offset = offset_of(octets, b);
    a_offset + a_len <= b_offset || b_offset + b_len <= a_offset
}

// Whether a slot's value overlaps with none of a slot with a smaller number.
fn is_apart(octets: &[u8; PAGE_LEN], b: u8) -> bool
    requires slot { b < 32 }
    ensures { IsTrue result ↔ ((a : ℕ) → a < b → AreApart octets.now a b) }
{
    for a in 0..b {
        if !are_two_apart(octets, a, b) {
            return false;
        }
    }
    true
}

fn are_apart(octets: &[u8; PAGE_LEN]) -> bool
    ensures { IsTrue result ↔ ((a b : ℕ) → a < b → b < 32 → AreApart octets.now a b) }
{
    for b in 0..SLOTS {
        if !is_apart(octets, b) {
            return false;
        }
    }
    true
}

/// Whether a page is sound.
pub fn is_sound(octets: &[u8; PAGE_LEN]) -> bool
    ensures { IsTrue result ↔ IsSound octets.now }
{
    if !is_zero(octets) {
        return false;
    }
    if used_of(octets) > HEAP_LEN {
        return false;
    }
    are_entries(octets) && are_apart(octets)
}
