// Streams by hand, and what their commits have written.
use log_replay::{Net, Replay, ReplayFault};
use std::alloc::Global;

// Set 5 to 0a0b, and commit 1.
const FIRST: &[u8] =
    b"block 0 002e010200000000000000020000000000000002000000000500030a0b0400000000000000020000000000000001";

// A transaction begins and writes record 5.
const SECOND: &[u8] = b"block 1 001e0102000000000000020200000000000002020000000005030a0b0201";

// It writes 6 and 5, takes the last write back, and commits as number 2.
const THIRD: &[u8] =
    b"block 2 00650200000000000002020000000000000203000000000600020702000000000000020200000000000004020000000005020100030000000000000202000000000000041b0000000000000402000000000502010400000000000002020000000000000002";

// Two commits of one number.
const TWICE: &[u8] =
    b"block 0 0040010200000000000000020000000000000002000000000500030a0b04000000000000000200000000000000010104000000000000002e0000000000000001";

// Two commits, the second of a transaction that has written nothing.
const TWO_COMMITS: &[u8] =
    b"block 0 0040010200000000000000020000000000000002000000000500030a0b04000000000000000200000000000000010104000000000000002e0000000000000002";

// An Update of a record that was never written says that an empty value stood there.
const ANOTHER_BEFORE: &[u8] = b"block 0 001b01020000000000000002000000000000000200000000050100";

// An Update on page 1.
const NO_PAGE: &[u8] = b"block 0 001b01020000000000000002000000000000000200000001050000";

// An End while an Update stands.
const EARLY_END: &[u8] =
    b"block 0 002401020000000000000002000000000000000200000000050001050000000000000002";

// A transaction that is undone.
const UNDONE: &[u8] =
    b"block 0 0044010200000000000000020000000000000002000000000500020903000000000000000200000000000000030000000000000002000000000500050000000000000002";

// An Update on a record that another open transaction has written.
const TAKEN: &[u8] =
    b"block 0 00370101020000000000000002000000000000000200000000050002010200000000000000030000000000000003000000000502010202";

// Two transactions side by side on two records.
const BESIDE: &[u8] =
    b"block 0 00580101020000000000000002000000000000000200000000050002010200000000000000030000000000000003000000000600020204000000000000000300000000000000010400000000000000020000000000000002";

// A transaction that writes record 9 and then 4.
const DESCENDING: &[u8] =
    b"block 0 00460102000000000000000200000000000000020000000009000209020000000000000002000000000000000300000000040002040400000000000000020000000000000001";

// The text of a block up to its zeros, with them; an end line as it is.
fn hear(replay: &mut Replay, text: &[u8]) -> Result<(), ReplayFault> {
    if text.starts_with(b"end") {
        return replay.line(text);
    }
    let mut line = [b'0'; 1014];
    for (place, octet) in text.iter().take(1014).enumerate() {
        line[place] = *octet;
    }
    replay.line(&line)
}

// Whether a net is this one: of each record its number, and its value or none.
fn is_net(net: &Net, writes: &[(u32, Option<&[u8]>)]) -> bool {
    if net.len() != writes.len() {
        return false;
    }
    for place in 0..net.len() {
        if net.number(place) != writes[place].0 {
            return false;
        }
        if net.value(place) != writes[place].1 {
            return false;
        }
    }
    true
}

// Whether the next net is this one.
fn pops(replay: &mut Replay, writes: &[(u32, Option<&[u8]>)]) -> bool {
    match replay.pop() {
        Some(net) => is_net(&net, writes),
        None => false,
    }
}

// How lines end over a database of one page: how many were taken, and the fault of the next one.
fn played(alloc: Global, lines: &[&[u8]]) -> (usize, Option<ReplayFault>) {
    let Ok(mut replay) = Replay::start(alloc, 1) else {
        return (0, Some(ReplayFault::Memory));
    };
    for (taken, line) in lines.iter().enumerate() {
        if let Err(fault) = hear(&mut replay, line) {
            return (taken, Some(fault));
        }
    }
    (lines.len(), None)
}

#[test]
fn nets_come_in_order(rt: HostRuntime) {
    let mut replay = Replay::start(rt.alloc(), 1).expect(&rt, "memory");
    assert!(rt; replay.pop().is_none());
    for line in [FIRST, SECOND, THIRD] {
        assert!(rt; hear(&mut replay, line) == Ok(()));
    }
    assert!(rt; hear(&mut replay, b"end 3") == Ok(()));
    assert!(rt; pops(&mut replay, &[(5, Some(&[10, 11]))]));
    assert!(rt; pops(&mut replay, &[(5, Some(&[1])), (6, Some(&[7]))]));
    assert!(rt; replay.pop().is_none());
}

#[test]
fn nets_stand_by_ascending_numbers(rt: HostRuntime) {
    let mut replay = Replay::start(rt.alloc(), 1).expect(&rt, "memory");
    assert!(rt; hear(&mut replay, DESCENDING) == Ok(()));
    assert!(rt; pops(&mut replay, &[(4, Some(&[4])), (9, Some(&[9]))]));
}

#[test]
fn commits_are_popped_each(rt: HostRuntime) {
    let mut replay = Replay::start(rt.alloc(), 1).expect(&rt, "memory");
    assert!(rt; hear(&mut replay, BESIDE) == Ok(()));
    assert!(rt; pops(&mut replay, &[(6, Some(&[2]))]));
    assert!(rt; pops(&mut replay, &[(5, Some(&[1]))]));
    assert!(rt; replay.pop().is_none());
}

#[test]
fn a_refused_block_leaves_no_net(rt: HostRuntime) {
    let mut replay = Replay::start(rt.alloc(), 1).expect(&rt, "memory");
    assert!(rt; hear(&mut replay, TWICE) == Err(ReplayFault::BadStream));
    assert!(rt; replay.pop().is_none());
}

// Lines, and how many of them are taken; the next one isn't.
const STREAMS: &[(&[&[u8]], usize)] = &[
    (&[], 0),
    (&[b"end 0"], 1),
    (&[b"end 1"], 0),
    (
        &[b"end 0", FIRST, b"end 1", b"end 1", SECOND, THIRD, b"end 3"],
        7,
    ),
    (&[FIRST, b"end 0"], 1),
    (&[FIRST, b""], 1),
    (&[FIRST, FIRST], 1),
    (&[SECOND], 0),
    (&[FIRST, THIRD], 1),
    (&[FIRST, SECOND, b"end 2", THIRD, THIRD], 4),
    (&[TWO_COMMITS, b"end 1"], 2),
    (&[TWICE], 0),
    (&[ANOTHER_BEFORE], 0),
    (&[NO_PAGE], 0),
    (&[EARLY_END], 0),
    (&[UNDONE, b"end 1"], 2),
    (&[TAKEN], 0),
    (&[BESIDE, b"end 1"], 2),
];

#[test]
fn lines_are_taken_or_not(rt: HostRuntime) {
    for (row, (lines, taken)) in STREAMS.iter().enumerate() {
        let (count, fault) = played(rt.alloc(), lines);
        assert!(rt; count == *taken, "row {row}");
        assert!(rt; fault.is_none() == (*taken == lines.len()), "row {row}");
    }
}
