// Changes of a page's slots.
ghost use Rattle.std.specs.Prelude.{◌≡◌, ◌≢◌, ◌+◌, ◌^◌, ◌<◌, ◌≤◌, ℕ, length, slice_set, Some, None, replicate};
ghost use Rattle.std.specs.Prelude.{option_copied};
ghost use Rattle.slotted_page.specs.Layout.{used_of, lsn_of, code_of, content_of, slots_of, content_length};
ghost use Rattle.slotted_page.specs.Layout.{total_length};
ghost use Rattle.slotted_page.specs.Layout.{IsSound, FitsPage};
ghost use Rattle.slotted_page.specs.Laws.{IsBlank};
ghost use Rattle.slotted_page.specs.Changes.{Wrote, Sets};

use crate::directory::{code_of, content_of, offset_of, put_entry, put_lsn, put_used, used_of};
use crate::{HEAP_LEN, PAGE_LEN, SLOTS};
use byte_fields::VALUE_MAX;

// Empties a slot.
fn clear(octets: &mut [u8; PAGE_LEN], slot: u8)
    requires sound { IsSound octets.old }
    requires slot { slot < 32 }
    ensures { Sets octets.old octets.new slot None }
{
    put_entry(octets, slot, 0, 0);
}

// Writes octets from a place on.
fn write(octets: &mut [u8], at: usize, text: &[u8])
    requires { at + length text.now ≤ length octets.old }
    ensures { Wrote octets.old octets.new at text.now }
{
    octets[at..at + text.len()].copy_from_slice(text);
}

// Puts a value in front of the heap, for a slot.
fn place(octets: &mut [u8; PAGE_LEN], slot: u8, value: &[u8])
    requires sound { IsSound octets.old }
    requires slot { slot < 32 }
    requires short { length value.now ≤ VALUE_MAX }
    requires room { used_of octets.old + length value.now ≤ 3952 }
    ensures sets { Sets octets.old octets.new slot (Some value.now) }
    ensures used { used_of octets.new ≡ used_of octets.old + length value.now }
{
    let used = used_of(octets) + value.len();
    let offset = PAGE_LEN - used;
    write(octets, offset, value);
    put_used(octets, used as u16);
    put_entry(octets, slot, offset as u16, value.len() as u16 + 1);
}

// Puts what a slot of another page has into the same slot of this one, which is empty.
fn carry(from: &[u8; PAGE_LEN], octets: &mut [u8; PAGE_LEN], slot: u8)
    requires from { IsSound from.now }
    requires sound { IsSound octets.old }
    requires slot { slot < 32 }
    requires empty { content_of octets.old slot ≡ None }
    requires room { used_of octets.old + content_length (content_of from.now slot) ≤ 3952 }
    ensures sets { Sets octets.old octets.new slot (content_of from.now slot) }
    ensures used { used_of octets.new ≡ used_of octets.old + content_length (content_of from.now slot) }
{
    if let Some(value) = content_of(from, slot) {
        place(octets, slot, value);
    }
}

// Sets the LSN of a page.
fn set_lsn(octets: &mut [u8; PAGE_LEN], lsn: u64)
    requires { IsSound octets.old }
    ensures sound { IsSound octets.new }
    ensures slots { slots_of octets.new ≡ slots_of octets.old }
    ensures lsn { lsn_of octets.new ≡ lsn }
    ensures used { used_of octets.new ≡ used_of octets.old }
{
    put_lsn(octets, lsn);
}

/// A page of zeros.
pub fn blank() -> [u8; PAGE_LEN]
    ensures zeros { result ≡ replicate 4096 0 }
    ensures blank { IsBlank result }
{
    [0; PAGE_LEN]
}

// Empties all slots. The octets of the heap stay: nobody reads them before they are written.
fn clear_all(octets: &mut [u8; PAGE_LEN])
    ensures sound { IsSound octets.new }
    ensures slots { slots_of octets.new ≡ replicate 32 None }
    ensures used { used_of octets.new ≡ 0 }
    ensures lsn { lsn_of octets.new ≡ lsn_of octets.old }
{
    write(octets, 8, &[0; 136]);
}

// The page with all its values at the end of the heap, so that it takes up no more octets than they have.
fn packed(octets: &[u8; PAGE_LEN]) -> [u8; PAGE_LEN]
    requires sound { IsSound octets.now }
    requires room { total_length (slots_of octets.now) ≤ 3952 }
    ensures sound { IsSound result }
    ensures slots { slots_of result ≡ slots_of octets.now }
    ensures lsn { lsn_of result ≡ lsn_of octets.now }
    ensures used { used_of result ≡ total_length (slots_of octets.now) }
{
    let mut packed = *octets;
    clear_all(&mut packed);
    for slot in 0..SLOTS {
        carry(octets, &mut packed, slot);
    }
    packed
}

// Moves all values to the end of the heap.
fn compact(octets: &mut [u8; PAGE_LEN])
    requires sound { IsSound octets.old }
    requires room { total_length (slots_of octets.old) ≤ 3952 }
    ensures sound { IsSound octets.new }
    ensures slots { slots_of octets.new ≡ slots_of octets.old }
    ensures lsn { lsn_of octets.new ≡ lsn_of octets.old }
    ensures used { used_of octets.new ≡ total_length (slots_of octets.old) }
{
    let packed = packed(octets);
    octets.copy_from_slice(&packed);
}

// Sees to it that the heap takes in so many octets more. The slot that they are for may be emptied.
fn make_room(octets: &mut [u8; PAGE_LEN], slot: u8, len: usize)
    requires sound { IsSound octets.old }
    requires slot { slot < 32 }
    requires fits { total_length (slice_set (slots_of octets.old) slot None) + len ≤ 3952 }
    ensures sound { IsSound octets.new }
    ensures others { (k : ℕ) → k < 32 → k ≢ slot → content_of octets.new k ≡ content_of octets.old k }
    ensures lsn { lsn_of octets.new ≡ lsn_of octets.old }
    ensures room { used_of octets.new + len ≤ 3952 }
{
    if used_of(octets) + len <= HEAP_LEN {
        return;
    }
    clear(octets, slot);
    compact(octets);
}

// Writes a value over that of its slot, which is as long.
fn overwrite(octets: &mut [u8; PAGE_LEN], slot: u8, value: &[u8])
    requires sound { IsSound octets.old }
    requires slot { slot < 32 }
    requires as_long { code_of octets.old slot ≡ length value.now + 1 }
    ensures { Sets octets.old octets.new slot (Some value.now) }
{
    let offset = offset_of(octets, slot);
    write(octets, offset, value);
}

// Puts a value into a slot: where the one before stood, if that is as long.
fn insert(octets: &mut [u8; PAGE_LEN], slot: u8, value: &[u8])
    requires sound { IsSound octets.old }
    requires slot { slot < 32 }
    requires short { length value.now ≤ VALUE_MAX }
    requires fits { FitsPage (slots_of octets.old) slot (Some value.now) }
    ensures { Sets octets.old octets.new slot (Some value.now) }
{
    if code_of(octets, slot) == value.len() + 1 {
        overwrite(octets, slot, value);
        return;
    }
    make_room(octets, slot, value.len());
    place(octets, slot, value);
}

// Gives a slot another content.
fn put_content(octets: &mut [u8; PAGE_LEN], slot: u8, value: Option<&[u8]>)
    requires sound { IsSound octets.old }
    requires slot { slot < 32 }
    requires short { content_length (option_copied value) ≤ VALUE_MAX }
    requires fits { FitsPage (slots_of octets.old) slot (option_copied value) }
    ensures { Sets octets.old octets.new slot (option_copied value.entry) }
{
    match value {
        None => clear(octets, slot),
        Some(value) => insert(octets, slot, value),
    }
}

/// Gives a slot another content, and the page another LSN.
pub fn set(octets: &mut [u8; PAGE_LEN], slot: u8, value: Option<&[u8]>, lsn: u64)
    requires sound { IsSound octets.old }
    requires slot { slot < 32 }
    requires short { content_length (option_copied value) ≤ VALUE_MAX }
    requires fits { FitsPage (slots_of octets.old) slot (option_copied value) }
    ensures sound { IsSound octets.new }
    ensures slots { slots_of octets.new ≡ slice_set (slots_of octets.old) slot (option_copied value.entry) }
    ensures lsn { lsn_of octets.new ≡ lsn }
{
    put_content(octets, slot, value);
    set_lsn(octets, lsn);
}
