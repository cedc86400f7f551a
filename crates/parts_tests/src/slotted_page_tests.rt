ghost use Rattle.std.specs.Prelude.{◌≡◌, ◌<◌, ◌≤◌, length};

use byte_fields::VALUE_MAX;
use slotted_page::{PAGE_LEN, Page};

// A page of which slot 5 has 0a0b, and whose LSN is 3.
fn example() -> [u8; PAGE_LEN] {
    let mut octets = [0; PAGE_LEN];
    octets[7] = 3; // LSN
    octets[9] = 2; // used
    octets[36] = 0x0f; // slot 5: offset 4,094
    octets[37] = 0xfe;
    octets[39] = 3; // length plus one
    octets[4094] = 0x0a;
    octets[4095] = 0x0b;
    octets
}

// Whether the example is sound, once these octets of it are others.
fn is_sound_with(changes: &[(usize, u8)]) -> bool {
    let mut octets = example();
    for (at, octet) in changes {
        if *at < PAGE_LEN {
            octets[*at] = *octet;
        }
    }
    Page::from_bytes(&octets).sound()
}

// Sets a slot of a page, once it is known that it may be set.
fn set(page: &mut Page, slot: u8, value: Option<&[u8]>, lsn: u64) -> bool {
    let short = match value {
        None => true,
        Some(value) => value.len() <= VALUE_MAX,
    };
    if !short || slot >= 32 || !page.sound() || !page.fits(slot, value) {
        return false;
    }
    page.set(slot, value, lsn);
    true
}

#[test]
fn a_page_is_its_octets(rt: HostRuntime) {
    let octets = example();
    let page = Page::from_bytes(&octets);
    assert!(rt; page.bytes() == octets.as_slice());
    assert!(rt; page != Page::empty());
}

#[test]
fn the_first_value_stands_at_the_end(rt: HostRuntime) {
    let mut page = Page::empty();
    assert!(rt; set(&mut page, 5, Some(&[0x0a, 0x0b]), 3));
    let octets = example();
    assert!(rt; page.bytes() == octets.as_slice());
    assert!(rt; page.lsn() == 3);
    assert!(rt; page.sound());
    assert!(rt; page.get(5) == Some([0x0a_u8, 0x0b].as_slice()));
    assert!(rt; page.get(4).is_none());
}

// Changes of the example, each of which breaks one rule or none, and whether it is sound then.
const CHANGES: [(&[(usize, u8)], bool); 16] = [
    (&[], true),
    // Octets 10 to 15 are zero.
    (&[(10, 1)], false),
    (&[(15, 1)], false),
    // The heap may take up more than the values do, at most 3,952.
    (&[(8, 0x0f), (9, 0x70)], true),
    (&[(8, 0x0f), (9, 0x71)], false),
    // and no less.
    (&[(9, 1)], false),
    // An empty slot has the offset 0.
    (&[(41, 1)], false),
    // A value ends within the page.
    (&[(37, 0xff)], false),
    // An empty value may stand at the end of the page, and within another value, but not behind the page.
    (&[(40, 0x10), (43, 1)], true),
    (&[(40, 0x0f), (41, 0xff), (43, 1)], true),
    (&[(40, 0x10), (41, 1), (43, 1)], false),
    // Values do not overlap, whichever slot comes first.
    (&[(40, 0x0f), (41, 0xff), (43, 2)], false),
    (&[(32, 0x0f), (33, 0xfe), (35, 3)], false),
    (&[(39, 2), (40, 0x0f), (41, 0xff), (43, 2)], true),
    // The heap takes up 250 octets, and the value in front has 200 or 201.
    (&[(9, 250), (40, 0x0f), (41, 0x06), (43, 201)], true),
    (&[(9, 250), (40, 0x0f), (41, 0x06), (43, 202)], false),
];

#[test]
fn soundness_by_the_table(rt: HostRuntime) {
    for (row, (changes, sound)) in CHANGES.iter().enumerate() {
        assert!(rt; is_sound_with(changes) == *sound, "row {row}");
    }
}

#[test]
fn a_slot_may_be_emptied(rt: HostRuntime) {
    let mut page = Page::from_bytes(&example());
    assert!(rt; set(&mut page, 31, Some(&[]), u64::MAX));
    assert!(rt; set(&mut page, 5, None, 4));
    assert!(rt; page.lsn() == 4);
    assert!(rt; page.sound());
    assert!(rt; page.get(5).is_none());
    assert!(rt; page.get(31) == Some([].as_slice()));
}

// 32 values of so many octets leave room in a page for 16 octets more.
const LONG: usize = 123;

// What slot `slot` has after `turn` turns of the test below.
fn length_in(turn: u8, slot: u8) -> usize
    requires turn { turn < 8 }
    requires slot { slot < 32 }
    ensures { result ≤ VALUE_MAX }
{
    if turn % 2 == 0 {
        LONG
    } else {
        LONG - slot as usize
    }
}

// Writes all slots, each of them anew, and looks each time at all of them.
fn write_all(page: &mut Page, lengths: &mut [usize; 32], octets: &mut [u8; 32], turn: u8) -> bool
    requires { turn < 8 }
{
    for slot in 0..32_u8 {
        let octet = 32 * turn + slot;
        let value = [octet; VALUE_MAX];
        let len = length_in(turn, slot);
        if !set(page, slot, Some(&value[..len]), u64::from(octet)) {
            return false;
        }
        lengths[slot as usize] = len;
        octets[slot as usize] = octet;
        if !is_as(page, lengths, octets) {
            return false;
        }
    }
    true
}

// Whether each slot has so many times this octet, none where the length is none.
fn is_as(page: &Page, lengths: &[usize; 32], octets: &[u8; 32]) -> bool {
    if !page.sound() {
        return false;
    }
    for slot in 0..32_u8 {
        let value = [octets[slot as usize]; VALUE_MAX];
        let len = lengths[slot as usize].min(VALUE_MAX);
        if page.get(slot) != Some(&value[..len]) {
            return false;
        }
    }
    true
}

// The heap is packed anew at nearly each write.
#[test]
fn values_stay_when_the_heap_is_packed_anew(rt: HostRuntime) {
    let mut page = Page::empty();
    let mut lengths = [0; 32];
    let mut octets = [0; 32];
    for slot in 0..32_u8 {
        assert!(rt; set(&mut page, slot, Some(&[]), 0));
    }
    for turn in 0..8_u8 {
        assert!(rt; write_all(&mut page, &mut lengths, &mut octets, turn));
    }
    assert!(rt; page.lsn() == 255);
}

// A slot of the example, the octets of a value, and whether it fits there. The heap has room for 3,952 octets.
const FITS: [(u8, usize, bool); 4] = [
    (0, 3950, true),
    (0, 3951, false),
    (5, 3952, true),
    (5, 3953, false),
];

#[test]
fn what_fits(rt: HostRuntime) {
    let page = Page::from_bytes(&example());
    let value = [0; 3953];
    assert!(rt; page.sound());
    for (slot, len, fits) in FITS {
        let slot = slot % 32;
        assert!(rt; page.fits(slot, value.get(..len)) == fits, "{len} octets");
    }
    assert!(rt; page.fits(5, None));
}
