// A stream that goes on from the records of a log, by hand.
use archive_base::Opening;
use log_archive::read_block;
use log_records::{check_block, read_record};
use log_replay::{Ledger, Net, Replay, ReplayFault, Table, Transactions, copy_of};
use record_model::Octets;
use std::alloc::Global;
use std::collections::VecDeque;

// Set 5 to 0a0b, and commit 1.
const FIRST: &[u8] =
    b"block 0 002e010200000000000000020000000000000002000000000500030a0b0400000000000000020000000000000001";

// A transaction begins and writes record 5.
const SECOND: &[u8] = b"block 1 001e0102000000000000020200000000000002020000000005030a0b0201";

// It writes 6 and 5, takes the last write back, and commits as number 2.
const THIRD: &[u8] =
    b"block 2 00650200000000000002020000000000000203000000000600020702000000000000020200000000000004020000000005020100030000000000000202000000000000041b0000000000000402000000000502010400000000000002020000000000000002";

// The text of a block up to its zeros, with them.
fn line_of(text: &[u8]) -> [u8; 1014] {
    let mut line = [b'0'; 1014];
    for (place, octet) in text.iter().take(1014).enumerate() {
        line[place] = *octet;
    }
    line
}

// Hears the records of a block, of which there are at most eight.
fn hear(opening: &mut Opening, text: &[u8]) -> Option<()> {
    let (number, content) = read_block(&line_of(text))?;
    let used = check_block(&content).ok()?;
    let first = number.checked_mul(512)?;
    let mut at = 2;
    for _record in 0..8 {
        if at >= used {
            break;
        }
        let (rec, end) = read_record(&content, at, used).ok()?;
        opening.hear(first.checked_add(at as u64)?, &rec).ok()?;
        at = end;
    }
    Some(())
}

// What blocks leave unfinished.
fn opened(alloc: Global, blocks: &[&[u8]]) -> Option<Transactions> {
    let mut opening = Opening::none(alloc);
    for block in blocks {
        hear(&mut opening, block)?;
    }
    opening.claimed().ok()
}

// A stream behind the second block, whose table has 01 on record 5, with these transactions.
fn behind(alloc: Global, transactions: Transactions) -> Option<Replay> {
    let mut table = Table::blank(alloc, 1).ok()?;
    let value = Octets::from_slice(&[1])?;
    let content = copy_of(alloc, &Some(value)).ok()?;
    table.write(5, content);
    let ledger = Ledger {
        alloc,
        commits: 1,
        table,
        transactions,
        waiting: VecDeque::new(alloc),
    };
    Some(Replay::behind(2, ledger))
}

// Whether a net writes 01 to record 5 and 07 to record 6.
fn is_second(net: &Net) -> bool {
    net.len() == 2
        && net.number(0) == 5
        && net.value(0) == Some(&[1])
        && net.number(1) == 6
        && net.value(1) == Some(&[7])
}

#[test]
fn a_stream_goes_on_with_what_was_open(rt: HostRuntime) {
    let open = opened(rt.alloc(), &[FIRST, SECOND]).expect(&rt, "the blocks are read");
    let mut replay = behind(rt.alloc(), open).expect(&rt, "memory");
    assert!(rt; replay.pop().is_none());
    assert!(rt; replay.line(&line_of(THIRD)) == Ok(()));
    let net = replay.pop().expect(&rt, "a commit");
    assert!(rt; is_second(&net));
    assert!(rt; replay.pop().is_none());
    assert!(rt; replay.commits() == 2);
}

#[test]
fn it_knows_what_the_kept_blocks_have(rt: HostRuntime) {
    let open = opened(rt.alloc(), &[SECOND]).expect(&rt, "the block is read");
    let mut replay = behind(rt.alloc(), open).expect(&rt, "memory");
    assert!(rt; replay.line(&line_of(THIRD)) == Ok(()));
}

#[test]
fn without_what_was_open_it_is_bad(rt: HostRuntime) {
    let open = opened(rt.alloc(), &[FIRST]).expect(&rt, "the block is read");
    let mut replay = behind(rt.alloc(), open).expect(&rt, "memory");
    assert!(rt; replay.line(&line_of(THIRD)) == Err(ReplayFault::BadStream));
}

#[test]
fn what_is_closed_is_open_no_more(rt: HostRuntime) {
    let open = opened(rt.alloc(), &[FIRST, SECOND, THIRD]).expect(&rt, "the blocks are read");
    assert!(rt; open.active.is_empty());
    assert!(rt; open.writers.is_empty());
}
