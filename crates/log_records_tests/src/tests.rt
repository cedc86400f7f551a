ghost use Rattle.log_records.specs.Spelling.{HasForm};

use log_records::{
    BLOCK_LEN, BadRecord, LogRecord, check_block, length, read_record, write_record,
};
use record_model::Octets;

// The block of a log's first transaction, which sets record 5 of the table from none to 0a0b: the
// offset of its end, its Begin at 2, its Update at 3, its Commit at 29. Zeros follow.
const FIRST_BLOCK: [u8; 46] = [
    0x00, 0x2e, // used
    0x01, // Begin
    0x02, // Update
    0x00, 0x00, 0x00, 0x00, 0x00, 0x00, 0x00, 0x02, // txn
    0x00, 0x00, 0x00, 0x00, 0x00, 0x00, 0x00, 0x02, // prev
    0x00, 0x00, 0x00, 0x00, // page
    0x05, // slot
    0x00, // before
    0x03, 0x0a, 0x0b, // after
    0x04, // Commit
    0x00, 0x00, 0x00, 0x00, 0x00, 0x00, 0x00, 0x02, // txn
    0x00, 0x00, 0x00, 0x00, 0x00, 0x00, 0x00, 0x01, // number
];

const COMPENSATION: [u8; 32] = [
    0x03, // Clr
    0x01, 0x02, 0x03, 0x04, 0x05, 0x06, 0x07, 0x08, // txn
    0x00, 0x00, 0x00, 0x00, 0x00, 0x00, 0x02, 0x02, // prev
    0xff, 0xff, 0xff, 0xff, 0xff, 0xff, 0xff, 0xff, // undo_next
    0x00, 0x00, 0xff, 0xff, // page
    0x1f, // slot
    0x02, 0x7f, // after
];

fn first_block() -> [u8; BLOCK_LEN] {
    let mut content = [0; BLOCK_LEN];
    content[..46].copy_from_slice(&FIRST_BLOCK);
    content
}

fn first_update() -> LogRecord
    ensures { HasForm result }
{
    LogRecord::Update {
        txn: 2,
        prev: 2,
        page: 0,
        slot: 5,
        before: None,
        after: Octets::from_slice(&[0x0a, 0x0b]),
    }
}

fn compensation() -> LogRecord
    ensures { HasForm result }
{
    LogRecord::Clr {
        txn: 0x0102_0304_0506_0708,
        prev: 514,
        undo_next: u64::MAX,
        page: 65_535,
        slot: 31,
        after: Octets::from_slice(&[0x7f]),
    }
}

#[test]
fn writes_a_block(rt: HostRuntime) {
    let (begin, update) = (LogRecord::Begin, first_update());
    let commit = LogRecord::Commit { txn: 2, number: 1 };
    assert_eq!(rt; length(&begin), 1);
    assert_eq!(rt; length(&update), 26);
    assert_eq!(rt; length(&commit), 17);

    let mut content = [0; BLOCK_LEN];
    content[1] = 46;
    assert_eq!(rt; write_record(&begin, &mut content, 2), 3);
    assert_eq!(rt; write_record(&update, &mut content, 3), 29);
    assert_eq!(rt; write_record(&commit, &mut content, 29), 46);
    assert_eq!(rt; content, first_block());
}

#[test]
fn reads_a_block(rt: HostRuntime) {
    let content = first_block();
    assert_eq!(rt; check_block(&content), Ok(46));
    assert_eq!(rt; read_record(&content, 2, 46), Ok((LogRecord::Begin, 3)));
    assert_eq!(rt; read_record(&content, 3, 46), Ok((first_update(), 29)));
    let commit = LogRecord::Commit { txn: 2, number: 1 };
    assert_eq!(rt; read_record(&content, 29, 46), Ok((commit, 46)));
    assert_eq!(rt; read_record(&content, 29, 45), Err(BadRecord));
    assert_eq!(rt; read_record(&content, 46, 503), Err(BadRecord));
}

#[test]
fn spells_a_compensation(rt: HostRuntime) {
    let mut octets = [0; 32];
    let undo = compensation();
    assert_eq!(rt; length(&undo), 32);
    assert_eq!(rt; write_record(&undo, &mut octets, 0), 32);
    assert_eq!(rt; octets, COMPENSATION);
    assert_eq!(rt; read_record(&COMPENSATION, 0, 32), Ok((undo, 32)));
}

// The second block of a log, in which a transaction undoes an Update and writes on: the CLR at 2,
// behind it an Update of the same record.
const SECOND_BLOCK: [u8; 58] = [
    0x00, 0x3a, // used
    0x03, // Clr
    0x00, 0x00, 0x00, 0x00, 0x00, 0x00, 0x00, 0x02, // txn
    0x00, 0x00, 0x00, 0x00, 0x00, 0x00, 0x00, 0x03, // prev
    0x00, 0x00, 0x00, 0x00, 0x00, 0x00, 0x00, 0x02, // undo_next
    0x00, 0x00, 0x00, 0x00, // page
    0x05, // slot
    0x00, // after
    0x02, // Update
    0x00, 0x00, 0x00, 0x00, 0x00, 0x00, 0x00, 0x02, // txn
    0x00, 0x00, 0x00, 0x00, 0x00, 0x00, 0x02, 0x02, // prev
    0x00, 0x00, 0x00, 0x00, // page
    0x05, // slot
    0x00, // before
    0x02, 0x0c, // after
];

#[test]
fn reads_an_update_behind_a_compensation(rt: HostRuntime) {
    let mut content = [0; BLOCK_LEN];
    content[..58].copy_from_slice(&SECOND_BLOCK);
    assert_eq!(rt; check_block(&content), Ok(58));
    let undone = LogRecord::Clr {
        txn: 2,
        prev: 3,
        undo_next: 2,
        page: 0,
        slot: 5,
        after: None,
    };
    assert_eq!(rt; read_record(&content, 2, 58), Ok((undone, 33)));
    let after = Octets::from_slice(&[0x0c]);
    let again = LogRecord::Update {
        txn: 2,
        prev: 514,
        page: 0,
        slot: 5,
        before: None,
        after,
    };
    assert_eq!(rt; read_record(&content, 33, 58), Ok((again, 58)));
}

#[test]
fn spells_an_end(rt: HostRuntime) {
    let mut octets = [0xff; 11];
    let end = LogRecord::End { txn: 1_025 };
    assert_eq!(rt; length(&end), 9);
    assert_eq!(rt; write_record(&end, &mut octets, 1), 10);
    assert_eq!(rt; octets, [0xff, 0x05, 0, 0, 0, 0, 0, 0, 0x04, 0x01, 0xff]);
    assert_eq!(rt; read_record(&octets, 1, 11), Ok((end, 10)));
}

#[test]
fn refuses_other_octets(rt: HostRuntime) {
    let mut empty = [0; BLOCK_LEN];
    empty[1] = 2;
    assert_eq!(rt; check_block(&empty), Err(BadRecord));

    let mut short = first_block();
    short[1] = 45;
    assert_eq!(rt; check_block(&short), Err(BadRecord));

    let mut long = first_block();
    long[1] = 47;
    assert_eq!(rt; check_block(&long), Err(BadRecord));

    let mut loose = first_block();
    loose[502] = 1;
    assert_eq!(rt; check_block(&loose), Err(BadRecord));

    let mut slot = first_block();
    slot[24] = 32;
    assert_eq!(rt; check_block(&slot), Err(BadRecord));

    let mut value = first_block();
    value[26] = 202;
    assert_eq!(rt; read_record(&value, 3, 503), Err(BadRecord));
    value[26] = 201;
    assert_eq!(rt; read_record(&value, 3, 503).is_ok(), true);
}
