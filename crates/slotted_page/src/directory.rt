// The numbers in front of a page's heap.
ghost use Rattle.std.specs.Prelude.{◌≡◌, ◌+◌, ◌*◌, ◌^◌, ◌<◌, ◌≤◌, length, option_copied};
ghost use Rattle.slotted_page.specs.Layout.{lsn_of, number_at, used_of, offset_of, code_of, length_of, content_of};
ghost use Rattle.slotted_page.specs.Layout.{IsSound};
ghost use Rattle.slotted_page.specs.Changes.{Wrote, SetsEntry};
ghost use Rattle.std.specs.Int.{w16, w64, to_be_bytes};

use crate::PAGE_LEN;
use byte_fields::{get_u16, get_u64, put_u16, put_u64};

// The number in the two octets from a place on.
#[tactic(auto, unfolding(crate::specs::Layout::number_at))]
fn number_at(octets: &[u8], at: usize) -> usize
    requires { at + 2 ≤ length octets.now }
    ensures number { result ≡ number_at octets.now at }
    ensures small { result < 2 ^ 16 }
{
    get_u16(octets, at) as usize
}

/// How many octets the heap takes up.
pub fn used_of(octets: &[u8; PAGE_LEN]) -> usize
    ensures number { result ≡ used_of octets.now }
    ensures small { result < 2 ^ 16 }
{
    number_at(octets, 8)
}

/// The page's LSN.
#[tactic(auto, unfolding(crate::specs::Layout::lsn_of))]
pub fn lsn_of(octets: &[u8; PAGE_LEN]) -> u64
    ensures { result ≡ lsn_of octets.now }
{
    get_u64(octets, 0)
}

/// Where a slot's value begins.
pub fn offset_of(octets: &[u8; PAGE_LEN], slot: u8) -> usize
    requires slot { slot < 32 }
    ensures number { result ≡ offset_of octets.now slot }
    ensures small { result < 2 ^ 16 }
{
    number_at(octets, 16 + 4 * slot as usize)
}

/// The length of a slot's value plus one, or 0 where the slot is empty.
pub fn code_of(octets: &[u8; PAGE_LEN], slot: u8) -> usize
    requires slot { slot < 32 }
    ensures number { result ≡ code_of octets.now slot }
    ensures small { result < 2 ^ 16 }
{
    number_at(octets, 18 + 4 * slot as usize)
}

/// The length of a slot's value, or 0 where the slot is empty.
pub fn length_of(octets: &[u8; PAGE_LEN], slot: u8) -> usize
    requires slot { slot < 32 }
    ensures number { result ≡ length_of octets.now slot }
    ensures small { result < 2 ^ 16 }
{
    code_of(octets, slot).saturating_sub(1)
}

/// What a slot of a sound page has.
pub fn content_of(octets: &[u8; PAGE_LEN], slot: u8) -> Option<&[u8]>
    requires sound { IsSound octets.now }
    requires slot { slot < 32 }
    ensures { option_copied result ≡ content_of octets.now slot }
{
    let code = code_of(octets, slot);
    if code == 0 {
        return None;
    }
    let offset = offset_of(octets, slot);
    Some(&octets[offset..offset + code - 1])
}

// Writes a number into the two octets from a place on.
fn put_number(octets: &mut [u8], at: usize, number: u16)
    requires { at + 2 ≤ length octets.old }
    ensures { Wrote octets.old octets.new at (to_be_bytes w16 number) }
{
    put_u16(octets, at, number);
}

/// Sets the page's LSN.
pub fn put_lsn(octets: &mut [u8; PAGE_LEN], lsn: u64)
    ensures { Wrote octets.old octets.new 0 (to_be_bytes w64 lsn) }
{
    put_u64(octets, 0, lsn);
}

/// Sets how many octets the heap takes up.
pub fn put_used(octets: &mut [u8; PAGE_LEN], used: u16)
    ensures { Wrote octets.old octets.new 8 (to_be_bytes w16 used) }
{
    put_number(octets, 8, used);
}

/// Sets the entry of a slot.
pub fn put_entry(octets: &mut [u8; PAGE_LEN], slot: u8, offset: u16, code: u16)
    requires slot { slot < 32 }
    ensures { SetsEntry octets.old octets.new slot offset code }
{
    put_number(octets, 16 + 4 * slot as usize, offset);
    put_number(octets, 18 + 4 * slot as usize, code);
}
