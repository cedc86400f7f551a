use byte_fields::{
    BadHead, FrameHead, are_group_heads, get_u16, get_u32, get_u64, put_u16, put_u32, put_u64,
    read_head, read_heads, write_head, write_heads,
};

const OCTETS: [u8; 9] = [0xff, 0x01, 0x02, 0x03, 0x04, 0x05, 0x06, 0x07, 0x08];

#[test]
fn reads_the_highest_octet_first(rt: HostRuntime) {
    let octets: &[u8] = &OCTETS;
    assert!(rt; get_u16(octets, 1) == 258);
    assert!(rt; get_u32(octets, 1) == 16_909_060);
    assert!(rt; get_u64(octets, 1) == 72_623_859_790_382_856);
}

// A number that is put at a place.
#[derive(Clone, Copy)]
enum Put {
    Two(u16),
    Four(u32),
    Eight(u64),
}

// Puts a number at a place, or at the last one where it has room.
fn put_number(octets: &mut [u8; 9], at: usize, number: Put) {
    match number {
        Put::Two(number) => put_u16(octets, at.min(7), number),
        Put::Four(number) => put_u32(octets, at.min(5), number),
        Put::Eight(number) => put_u64(octets, at.min(1), number),
    }
}

// Numbers that are put one after the other, and what stands there then.
const PUTS: [(usize, Put, [u8; 9]); 3] = [
    (
        0,
        Put::Two(40_000),
        [0x9c, 0x40, 0x02, 0x03, 0x04, 0x05, 0x06, 0x07, 0x08],
    ),
    (
        5,
        Put::Four(4_000_000_000),
        [0x9c, 0x40, 0x02, 0x03, 0x04, 0xee, 0x6b, 0x28, 0x00],
    ),
    (
        1,
        Put::Eight(10_000_000_000_000_000_000),
        [0x9c, 0x8a, 0xc7, 0x23, 0x04, 0x89, 0xe8, 0x00, 0x00],
    ),
];

#[test]
fn writes_the_highest_octet_first(rt: HostRuntime) {
    let mut octets = OCTETS;
    for (at, number, wanted) in PUTS {
        put_number(&mut octets, at, number);
        assert!(rt; octets == wanted, "at {at}");
    }
}

const DIRTY: FrameHead = FrameHead {
    present: true,
    dirty: true,
    page: 7,
    lsn: 41,
};

const DIRTY_OCTETS: [u8; 16] = [1, 1, 0, 0, 0, 0, 0, 7, 0, 0, 0, 0, 0, 0, 0, 0x29];

// What this head is written as between two other octets.
const IN_THE_MIDDLE: [u8; 18] = [
    0xee, 1, 1, 0, 0, 0, 0, 0, 7, 0, 0, 0, 0, 0, 0, 0, 0x29, 0xee,
];

#[test]
fn writes_and_reads_a_head(rt: HostRuntime) {
    let mut octets = [0xee; 18];
    write_head(&DIRTY, &mut octets, 1);
    assert!(rt; octets == IN_THE_MIDDLE);
    assert!(rt; read_head(&octets, 1) == Ok(DIRTY));
}

// Octets that differ from those of a head in one place.
const BAD: [(usize, u8); 6] = [(0, 0), (0, 2), (1, 2), (2, 1), (3, 1), (1, 255)];

#[test]
fn refuses_what_is_no_head(rt: HostRuntime) {
    for (place, octet) in BAD {
        let mut octets = DIRTY_OCTETS;
        octets[place] = octet;
        assert!(rt; read_head(&octets, 0) == Err(BadHead), "{octet} at {place}");
    }
}

#[test]
fn an_absent_head_is_all_zero(rt: HostRuntime) {
    let mut octets = [0; 16];
    assert!(rt; read_head(&octets, 0) == Ok(FrameHead::BLANK));
    octets[15] = 1;
    assert!(rt; read_head(&octets, 0) == Err(BadHead));
    write_head(&FrameHead::BLANK, &mut octets, 0);
    assert!(rt; octets == [0; 16]);
}

// What stands for a dirty head and an absent one, and an octet behind.
const TWO: [u8; 33] = [
    1, 1, 0, 0, 0, 0, 0, 7, 0, 0, 0, 0, 0, 0, 0, 0x29, 0, 0, 0, 0, 0, 0, 0, 0, 0, 0, 0, 0, 0, 0, 0,
    0, 0xee,
];

#[test]
fn heads_stand_one_after_the_other(rt: HostRuntime) {
    let mut octets = [0xee; 33];
    write_heads(&[DIRTY, FrameHead::BLANK], &mut octets);
    assert!(rt; octets == TWO);
    let mut heads = [FrameHead::BLANK; 2];
    assert!(rt; read_heads(&octets, &mut heads) == Ok(()));
    assert!(rt; heads == [DIRTY, FrameHead::BLANK]);
    octets[16] = 2;
    assert!(rt; read_heads(&octets, &mut heads) == Err(BadHead));
}

#[test]
fn a_group_has_its_frames_first(rt: HostRuntime) {
    let mut heads = [FrameHead::BLANK; 8];
    assert!(rt; !are_group_heads(&heads));
    heads[0] = DIRTY;
    heads[1] = DIRTY;
    assert!(rt; are_group_heads(&heads));
    assert!(rt; !are_group_heads(&heads[..7]));
    heads[3] = DIRTY;
    assert!(rt; !are_group_heads(&heads));
    assert!(rt; are_group_heads(&[DIRTY; 8]));
}
