// Lines of a log archive, and texts that are none.
use log_archive::{block_line, end_line, read_block, read_end};

// What a text without a newline says as the last line of an archive.
const ENDS: &[(&[u8], Option<u64>)] = &[
    (b"end 0", Some(0)),
    (b"end 86", Some(86)),
    (b"end 1099511627776", Some(1_099_511_627_776)),
    (b"end 1099511627777", None),
    (b"end 01", None),
    (b"end +1", None),
    (b"end ", None),
    (b"end 1 ", None),
    (b"End 1", None),
    (b"block 1", None),
    (b"", None),
];

#[test]
fn ends_are_read(rt: HostRuntime) {
    for (row, (text, number)) in ENDS.iter().enumerate() {
        assert!(rt; read_end(text) == *number, "row {row}");
    }
}

// The log's first block where the first command was `set 5 0a0b`, up to its zeros: Begin, Update, Commit.
const FIRST: [u8; 46] = [
    0, 46, 1, 2, 0, 0, 0, 0, 0, 0, 0, 2, 0, 0, 0, 0, 0, 0, 0, 2, 0, 0, 0, 0, 5, 0, 3, 10, 11, 4, 0,
    0, 0, 0, 0, 0, 0, 2, 0, 0, 0, 0, 0, 0, 0, 1,
];

const FIRST_TOLD: &[u8] =
    b"block 0 002e010200000000000000020000000000000002000000000500030a0b0400000000000000020000000000000001";

#[test]
fn the_first_block_is_told_and_read(rt: HostRuntime) {
    let mut content = [0u8; 503];
    content[..46].copy_from_slice(&FIRST);
    let mut text = [b'0'; 1015];
    text[..100].copy_from_slice(FIRST_TOLD);
    text[1014] = b'\n';
    assert!(rt; block_line(0, &content).as_slice() == text.as_slice());
    assert!(rt; read_block(&text[..1014]) == Some((0, content)));
}

#[test]
fn a_block_is_a_line_of_its_octets(rt: HostRuntime) {
    let mut content = [0u8; 503];
    content[0] = 10;
    content[1] = 255;
    let line = block_line(7, &content);
    let text = line.as_slice();
    assert!(rt; text.len() == 1015);
    assert!(rt; text.starts_with(b"block 7 0aff0000"));
    assert!(rt; text.ends_with(b"0000\n"));
    assert!(rt; end_line(8).as_slice() == b"end 8\n".as_slice());
}

// The text of block 7, whose octets are all 171, without its newline and with another octet at a place.
fn changed(place: usize, octet: u8) -> [u8; 1014] {
    let mut text = [b'a'; 1014];
    text[..8].copy_from_slice(b"block 7 ");
    for digit in 0..503 {
        text[9 + 2 * digit] = b'b';
    }
    if place < 1014 {
        text[place] = octet;
    }
    text
}

#[test]
fn a_block_is_read_where_each_octet_is_right(rt: HostRuntime) {
    let as_it_is = changed(1014, 0);
    assert!(rt; read_block(&as_it_is) == Some((7, [171; 503])));
    assert!(rt; read_block(&changed(6, b'0')) == Some((0, [171; 503])));
    let mut one_digit_less = [b'a'; 1013];
    one_digit_less[..8].copy_from_slice(b"block 7 ");
    assert!(rt; read_block(&one_digit_less).is_none());
    for (place, octet) in [
        (0, b'B'),
        (5, b'_'),
        (6, b'-'),
        (7, b'0'),
        (8, b'A'),
        (1013, b'g'),
    ] {
        assert!(rt; read_block(&changed(place, octet)).is_none(), "{place}");
    }
}
