use workload::{Life, life, load_set, next};

const NEXT: [(u64, u64); 4] = [
    (1, 0x6c57_6fac_43fd_007c),
    (7, 9_098_160_460_397_411_210),
    (9_098_160_460_397_411_210, 17_628_806_926_561_717_905),
    (u64::MAX, 13_525_302_890_751_722_018),
];

#[test]
fn makes_numbers(rt: HostRuntime) {
    for (number, following) in NEXT {
        assert!(rt; next(number) == following);
    }
}

// A number, the pages, and the record and the value that are set.
const SETS: [(u64, u32, u32, [u8; 8]); 2] = [
    (
        0x6c57_6fac_43fd_007c,
        16,
        470,
        [0x6c, 0x57, 0x6f, 0xac, 0x43, 0xfd, 0, 0x7c],
    ),
    (
        9_098_160_460_397_411_210,
        1_024,
        5_214,
        [0x7e, 0x43, 0x28, 0xbc, 0x0f, 0x7d, 0xfb, 0x8a],
    ),
];

#[test]
fn makes_sets(rt: HostRuntime) {
    for (seed, pages, wanted, octets) in SETS {
        let (number, value) = load_set(seed, pages.max(1));
        assert!(rt;
            number == wanted && value.as_slice() == octets.as_slice(),
            "record {wanted}"
        );
    }
}

// Where a life starts and ends, and the numbers of the stop line that ends it.
type Parts = (usize, usize, Option<(u64, u64)>);

// Whether a script has this life at this place.
fn has_life(script: &[u8], place: usize, wanted: Option<Parts>) -> bool {
    let wanted = match wanted {
        Some((start, end, stop)) => Some(Life { start, end, stop }),
        None => None,
    };
    life(script, place) == wanted
}

const SCRIPT: &[u8] = b"set 0 aa\nstop 1000 1\nstop 8 1\nget 0\n";

const AT_THE_END: &[u8] = b"get 0\nstop 2 0";

// A script, the number of a life in it, and this life.
const LIVES: [(&[u8], usize, Option<Parts>); 11] = [
    (SCRIPT, 0, Some((0, 9, Some((1_000, 1))))),
    (SCRIPT, 1, Some((21, 21, Some((8, 1))))),
    (SCRIPT, 2, Some((30, 36, None))),
    (SCRIPT, 3, None),
    (SCRIPT, usize::MAX, None),
    (b"", 0, Some((0, 0, None))),
    (AT_THE_END, 0, Some((0, 6, Some((2, 0))))),
    (AT_THE_END, 1, Some((14, 14, None))),
    (AT_THE_END, 2, None),
    (
        b"stop 999999999 999999999\nget 0",
        0,
        Some((0, 0, Some((999_999_999, 999_999_999)))),
    ),
    (
        b"stop 5 01\nstop 5 0 \n\nstop 1000000000 0",
        0,
        Some((0, 38, None)),
    ),
];

// A script is cut at its stop lines, and its last line is read, with a newline or without.
#[test]
fn cuts_a_script(rt: HostRuntime) {
    for (row, (script, place, wanted)) in LIVES.iter().enumerate() {
        assert!(rt; has_life(script, *place, *wanted), "row {row}");
    }
}

// The last lives of a script of 33 stop lines.
const BEHIND_31: [(usize, Option<Parts>); 3] = [
    (30, Some((270, 270, Some((7, 3))))),
    (31, Some((279, 297, None))),
    (32, None),
];

#[test]
fn counts_31_stops(rt: HostRuntime) {
    let script = [*b"stop 7 3\n"; 33];
    for (place, wanted) in BEHIND_31 {
        assert!(rt;
            has_life(script.as_flattened(), place, wanted),
            "life {place}"
        );
    }
}
