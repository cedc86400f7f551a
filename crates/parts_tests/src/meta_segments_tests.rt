use byte_fields::{BadHead, FrameHead};
use meta_segments::{segment_heads, write_segment};

const CLEAN: FrameHead = FrameHead {
    present: true,
    dirty: false,
    page: 7,
    lsn: 41,
};

const DIRTY: FrameHead = FrameHead {
    present: true,
    dirty: true,
    page: 258,
    lsn: 1_000,
};

const NONE: FrameHead = FrameHead::BLANK;

// Groups of one frame, of two, of eight and of one.
const HEADS: [FrameHead; 32] = [
    CLEAN, NONE, NONE, NONE, NONE, NONE, NONE, NONE, DIRTY, CLEAN, NONE, NONE, NONE, NONE, NONE,
    NONE, DIRTY, DIRTY, DIRTY, DIRTY, DIRTY, DIRTY, DIRTY, DIRTY, DIRTY, NONE, NONE, NONE, NONE,
    NONE, NONE, NONE,
];

const CLEAN_OCTETS: [u8; 16] = [1, 0, 0, 0, 0, 0, 0, 7, 0, 0, 0, 0, 0, 0, 0, 0x29];

const DIRTY_OCTETS: [u8; 16] = [1, 1, 0, 0, 0, 0, 1, 2, 0, 0, 0, 0, 0, 0, 3, 0xe8];

// From where to where in the segment the same 16 octets stand again and again.
const PARTS: [(usize, usize, [u8; 16]); 7] = [
    (0, 16, CLEAN_OCTETS),
    (16, 128, [0; 16]),
    (128, 144, DIRTY_OCTETS),
    (144, 160, CLEAN_OCTETS),
    (160, 256, [0; 16]),
    (256, 400, DIRTY_OCTETS),
    (400, 512, [0; 16]),
];

#[test]
fn writes_and_reads_a_segment(rt: HostRuntime) {
    let mut content = [0xee; 512];
    write_segment(&HEADS, &mut content);
    for (from, to, octets) in PARTS {
        let part = content.get(from..to).unwrap_or(&[]);
        for piece in part.chunks(16) {
            assert!(rt; piece == octets.as_slice(), "from {from} to {to}");
        }
    }
    assert!(rt; segment_heads(&content) == Ok(HEADS));
}

// A place and an octet that make a segment bad: no head there, a gap in the first group, a second
// frame of the last group that is behind a gap, an absent head with an LSN.
const BAD: [(usize, u8); 5] = [(0, 2), (32, 1), (496, 1), (400, 2), (511, 1)];

#[test]
fn refuses_what_is_no_segment(rt: HostRuntime) {
    for (place, octet) in BAD {
        let mut content = [0; 512];
        write_segment(&HEADS, &mut content);
        content[place] = octet;
        assert!(rt;
            segment_heads(&content) == Err(BadHead),
            "{octet} at {place}"
        );
    }
    assert!(rt; segment_heads(&[0; 512]) == Err(BadHead));
}
