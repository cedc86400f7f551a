// The top call over a site in memory. What is expected was worked out by hand or by another program.
use crate::steps::{SMALL, STANDARD, Step, call, play};
use mem_site::{Call, MemSite};
use site::{Dev, Geometry};
use std::alloc::Global;
use std::test::Fail;

// Sizes that no database has.
const ODD: Geometry = Geometry {
    pages: 16,
    groups: 9,
    blocks: 64,
};

const LARGE: Geometry = Geometry {
    pages: 1_024,
    groups: 64,
    blocks: 400,
};

const LINES: &[Step<'static>] = &[
    Step::Run("set 5 0a0b\nget 5\n", "open 0\ncommitted 1\nvalue 0a0b\n"),
    Step::New(STANDARD),
    Step::Run("", "open 0\n"),
    Step::New(STANDARD),
    Step::Run(
        "set 511 01\nset 512 01\nget 511\n",
        "open 0\ncommitted 1\nrefused record\nvalue 01\n",
    ),
    Step::New(STANDARD),
    Step::Run("get 5", "open 0\nnone\n"),
    Step::New(STANDARD),
    Step::Run(
        "set 7 aa\nset 7 bb\nget 7\nget 512\n",
        "open 0\ncommitted 1\ncommitted 2\nvalue bb\nrefused record\n",
    ),
    Step::New(STANDARD),
    Step::Run(
        "set 3 00ff\n\nget 3",
        "open 0\ncommitted 1\nrefused line\nvalue 00ff\n",
    ),
];

const OTHER_LINES: &str = "
get 05
get  5
get 5\x20
 get 5
set 5 0
set 5 0g
set 5
set 5\x20
set 5 --
quit now
GET 5
get
get -1
get 1234567890
scan 0 0 65
checkpoint 0
cache 0
mark
mark 0 1
back
back 0 01
back 0 0 0
get 5\r";

// Whether a run over this line refuses it and makes no change but those of a restart.
fn refuses_line(alloc: Global, line: &str) -> Result<bool, Fail> {
    let mut site = MemSite::new(alloc, &STANDARD)?;
    site.feed(line.as_bytes())?;
    site.feed(b"\n")?;
    let status = call(alloc, &mut site, "run 1")?;
    let told = site.told() == b"open 0\nrefused line\n".as_slice();
    Ok(status == 0 && told && site.changes() == 7)
}

#[test]
fn other_lines_are_refused(rt: HostRuntime) -> Result<(), Fail> {
    for line in OTHER_LINES.split('\n') {
        assert!(rt; refuses_line(rt.alloc(), line)?, "{line}");
    }
    Ok(())
}

const LISTINGS: &[Step<'static>] = &[
    Step::Run("cache\n", "open 0\nend 0\n"),
    Step::New(STANDARD),
    Step::Run(
        "set 0 01\nset 32 02\ncache\n",
        "open 0\ncommitted 1\ncommitted 2\nframe 0 0 page 0 vd-\npool 1*\nend 2\n",
    ),
    Step::New(STANDARD),
    Step::Run(
        "set 0 01\ncache\nget 32\ncache\nget 0\ncache\n",
        "open 0\ncommitted 1\npool 0*\nend 1\nnone\nframe 0 0 page 0 vd-\npool 1\nend 2\nvalue 01\n\
        frame 0 0 page 0 vdr\nframe 1 0 page 1 v--\npool 0\nend 3\n",
    ),
];

// The frame that was read goes into the new group as the first group leaves, and not to the disk.
const FULL_QUEUE: &[Step<'static>] = &[
    Step::Run(
        "set 0 01\nset 32 02\nget 0\nset 64 03\nset 96 04\nset 128 05\nset 160 06\nset 192 07\nset 224 08\n\
        set 256 09\ncache\n",
        "\
open 0
committed 1
committed 2
value 01
committed 3
committed 4
committed 5
committed 6
committed 7
committed 8
committed 9
frame 1 0 page 1 vd-
frame 2 0 page 2 vd-
frame 3 0 page 3 vd-
frame 4 0 page 4 vd-
frame 5 0 page 5 vd-
frame 6 0 page 6 vd-
frame 7 0 page 0 vd-
frame 7 1 page 7 vd-
pool 8*
end 9
",
    ),
    Step::Zeros(Dev::Disk, 0, 65_536),
];

// A group is filled from the pool, all its frames are read, and seven checkpoints push groups of one page: as the first
// group leaves, the eighth frame that was read goes to the disk, and no other page.
const SECOND_CHANCES: &[Step<'static>] = &[
    Step::Feed(
        "set 0 00\nset 32 01\nset 64 02\nset 96 03\nset 128 04\nset 160 05\nset 192 06\nset 224 07\nset 256 08\n\
        get 0\nget 32\nget 64\nget 96\nget 128\nget 160\nget 192\nget 224\n",
    ),
    Step::FeedMany(6, "set 256 08\ncheckpoint\n"),
    Step::Feed("cache\n"),
    Step::Call("run 8", 0),
    Step::Told(
        "\
open 0
committed 1
committed 2
committed 3
committed 4
committed 5
committed 6
committed 7
committed 8
committed 9
value 00
value 01
value 02
value 03
value 04
value 05
value 06
value 07
committed 10
checkpoint
committed 11
checkpoint
committed 12
checkpoint
committed 13
checkpoint
committed 14
checkpoint
committed 15
checkpoint
frame 1 0 page 8 -dr
frame 2 0 page 8 -d-
frame 3 0 page 8 -d-
frame 4 0 page 8 -d-
frame 5 0 page 8 -d-
frame 6 0 page 8 -d-
frame 7 0 page 0 vd-
frame 7 1 page 1 vd-
frame 7 2 page 2 vd-
frame 7 3 page 3 vd-
frame 7 4 page 4 vd-
frame 7 5 page 5 vd-
frame 7 6 page 6 vd-
frame 7 7 page 8 vd-
pool 8
pool 7
pool 6
pool 5
pool 4
pool 3
pool 2
pool 1
end 22
",
    ),
    Step::Zeros(Dev::Disk, 0, 28_672),
    Step::Filled(Dev::Disk, 28_672, 32_768),
    Step::Zeros(Dev::Disk, 32_768, 65_536),
];

// The log's first slot after a set of record 5 to 0a0b on blank devices.
const FIRST_SLOT: [u8; 64] = [
    0xA5, // gate
    0, 0, 0, 0, 0, 0, 0, 0, // number
    0x00, 0x2E, // used
    0x01, // Begin
    0x02, // Update
    0, 0, 0, 0, 0, 0, 0, 2, // txn
    0, 0, 0, 0, 0, 0, 0, 2, // prev
    0, 0, 0, 0, // page
    0x05, // slot
    0x00, // before
    0x03, 0x0A, 0x0B, // after
    0x04, // Commit
    0, 0, 0, 0, 0, 0, 0, 2, // txn
    0, 0, 0, 0, 0, 0, 0, 1, // commit number
    0, 0, 0, 0, 0, 0, 0, 0, 0, // nothing behind
];

// The restart's master unit says nothing: the log keeps the blocks from the first one on, and no transaction is
// unfinished.
const ONE_SET: &[Step<'static>] = &[
    Step::Run("set 5 0a0b\nget 5\n", "open 0\ncommitted 1\nvalue 0a0b\n"),
    Step::Has(Dev::Log, 1_536, &FIRST_SLOT),
    Step::Has(Dev::Log, 0, &[0xA5]),
    Step::Zeros(Dev::Log, 1, 1_536),
    Step::Zeros(Dev::Log, 1_600, 34_304),
    Step::Zeros(Dev::Flash, 0, 271_360),
    Step::Zeros(Dev::Disk, 0, 65_536),
];

const SPELLINGS: &[Step<'static>] = &[Step::Run(
    "set 3 -\nget 3\nget 4\nset 5 AB\nget 5\nset 5 aBcD\nget 5\n",
    "open 0\ncommitted 1\nvalue -\nnone\ncommitted 2\nvalue ab\ncommitted 3\nvalue abcd\n",
)];

// Sets of record 3 to 200 and to 201 octets.
const LONG_VALUES: &[Step<'static>] = &[
    Step::Feed("set 3 "),
    Step::FeedMany(200, "5a"),
    Step::Feed("\nset 3 "),
    Step::FeedMany(201, "5a"),
    Step::Feed("\nset 3 -\nget 3\nget 4\n"),
    Step::Call("run 1", 0),
    Step::Told("open 0\ncommitted 1\nrefused long\ncommitted 2\nvalue -\nnone\n"),
];

// 135 lines of 408, 410, .. up to 500 octets, again and again: 61,179 octets with their newlines.
const LONG_INPUT: &[Step<'static>] = &[
    Step::FeedSets(135),
    Step::Feed("get 3\n"),
    Step::Call("run 1", 0),
    Step::Length(1_767),
    Step::Begins("open 0\n"),
    Step::Repeats(7, 135, "refused long\n"),
    Step::Ends("none\n"),
    Step::Changes(142),
];

const QUITS: &[Step<'static>] = &[
    Step::Run("get 5", "open 0\nnone\n"),
    Step::New(STANDARD),
    Step::Run("quit\nget 5\n", "open 0\nbye\n"),
];

// A line of 5,501 octets.
const LONG_LINE: &[Step<'static>] = &[
    Step::FeedMany(5_501, "7"),
    Step::Run("\nget 5\n", "open 0\nrefused line\nnone\n"),
];

const MANY_SETS: &[Step<'static>] = &[
    Step::New(SMALL),
    Step::FeedMany(100, "set 0 aa\n"),
    Step::Feed("stat\n"),
    Step::Call("run 1", 0),
    Step::Begins("open 0\ncommitted 1\ncommitted 2\n"),
    Step::Ends("committed 99\ncommitted 100\nstat commits 100 used 3 owed 0 cap 15 active 0\n"),
    Step::Length(1_346),
    Step::Crash(0),
    Step::Run("get 0\n", "open 100\nvalue aa\n"),
];

// The records of an active session stay.
const CHECKPOINTS: &[Step<'static>] = &[
    Step::Run(
        "set 0 01\ncheckpoint\ncheckpoint\nstat\nget 0\n",
        "open 0\ncommitted 1\ncheckpoint\ncheckpoint\nstat commits 1 used 0 owed 0 cap 63 active 0\nvalue 01\n",
    ),
    Step::New(STANDARD),
    Step::Run(
        "begin 0\nwrite 0 1 aa\ncheckpoint\nstat\nwrite 0 2 bb\ncheckpoint\nstat\ncommit 0\nstat\ncheckpoint\nstat\n",
        "open 0\nok\nok\ncheckpoint\nstat commits 0 used 2 owed 2 cap 63 active 1\nok\ncheckpoint\n\
        stat commits 0 used 3 owed 3 cap 63 active 1\ncommitted 1\nstat commits 1 used 4 owed 0 cap 63 active 0\n\
        checkpoint\nstat commits 1 used 0 owed 0 cap 63 active 0\n",
    ),
];

const WORN: &[Step<'static>] = &[
    Step::Write(Dev::Log, 0, &[0xA5, 0, 0, 0, 0xFF, 0xFF, 0xFF, 0xFF, 0xFF]),
    Step::Write(Dev::Log, 1_025, &[0, 0, 0, 0xFF, 0xFF, 0xFF, 0xFF, 0xFE]),
    Step::Call("run 1", 8),
    Step::Told("fault worn log\n"),
];

const NEW: &[Step<'static>] = &[
    Step::Call("new 16 8 64", 0),
    Step::Told("ready 16 8 64\n"),
    Step::Changes(1),
    Step::New(STANDARD),
    Step::Put(Dev::Disk, 7, 1),
    Step::Put(Dev::Disk, 9, 1),
    Step::Call("new 16 8 64", 10),
    Step::Told("fault notblank disk 7\n"),
    Step::New(STANDARD),
    Step::Put(Dev::Flash, 271_359, 1),
    Step::Call("new 16 8 64", 10),
    Step::Told("fault notblank flash 271359\n"),
    Step::New(STANDARD),
    Step::Call("new 16 8 65", 9),
    Step::Told("fault foreign\n"),
    Step::New(STANDARD),
    Step::Fail(Call::Read(Dev::Log), 2),
    Step::Call("new 16 8 64", 3),
    Step::Told("fault log\n"),
    Step::New(STANDARD),
    Step::Fail(Call::Tell, 1),
    Step::Call("new 16 8 64", 6),
    Step::Length(0),
];

// A verdict is told, and nothing else is done; devices without sizes aren't read.
const CHECKS: &[Step<'static>] = &[
    Step::Call("check", 0),
    Step::Told("sound records 0 commits 0\n"),
    Step::Changes(1),
    Step::New(ODD),
    Step::Call("check", 11),
    Step::Told("unsound S1\n"),
    Step::Reads(Dev::Log, 0),
];

// The log's blocks are told from one on. A small log has the last 15 of 100.
const ARCHIVES: &[Step<'static>] = &[
    Step::Run("set 5 0a0b\n", "open 0\ncommitted 1\n"),
    Step::Crash(0),
    Step::Call("archive 0", 0),
    Step::Begins(
        "block 0 002e010200000000000000020000000000000002000000000500030a0b0400000000000000020000000000000001",
    ),
    Step::Repeats(100, 914, "0"),
    Step::Ends("0\nend 1\n"),
    Step::Length(1_021),
    Step::Crash(0),
    Step::Call("archive 2", 12),
    Step::Told("ahead 1\n"),
    Step::New(SMALL),
    Step::FeedMany(100, "set 0 aa\n"),
    Step::Call("run 1", 0),
    Step::Crash(0),
    Step::Call("archive 0", 12),
    Step::Told("gone 85\n"),
    Step::Crash(0),
    Step::Call("archive 85", 0),
    Step::Begins("block 85 "),
    Step::Ends("0\nend 100\n"),
    Step::New(ODD),
    Step::Call("archive 0", 9),
    Step::Told("fault foreign\n"),
    Step::Reads(Dev::Log, 0),
];

// The line of the block of `set 5 0a0b` without its last 914 zeros.
const FIRST_BLOCK: &str =
    "block 0 002e010200000000000000020000000000000002000000000500030a0b0400000000000000020000000000000001";

// An archive is read; no device is touched. What isn't accepted is told by its line: no block, one twice, a long one.
const VERIFIED: &[Step<'static>] = &[
    Step::Feed(FIRST_BLOCK),
    Step::FeedMany(914, "0"),
    Step::Feed("\nend 1\nend 1"),
    Step::Call("verify 1", 0),
    Step::Told("verified 1\n"),
    Step::Reads(Dev::Log, 0),
    Step::Changes(1),
    Step::New(STANDARD),
    Step::Call("verify 65536", 0),
    Step::Told("verified 0\n"),
    Step::New(STANDARD),
    Step::Feed("end 1\n"),
    Step::Call("verify 16", 13),
    Step::Told("fault stream 1\n"),
    Step::New(STANDARD),
    Step::Feed(FIRST_BLOCK),
    Step::FeedMany(914, "0"),
    Step::Feed("\n"),
    Step::Feed(FIRST_BLOCK),
    Step::FeedMany(914, "0"),
    Step::Call("verify 16", 13),
    Step::Told("fault stream 2\n"),
    Step::New(STANDARD),
    Step::FeedMany(1_027, "0"),
    Step::Call("verify 16", 13),
    Step::Told("fault stream 1\n"),
    Step::New(STANDARD),
    Step::Fail(Call::Take, 1),
    Step::Call("verify 16", 5),
    Step::Told("fault input\n"),
    Step::New(STANDARD),
    Step::Fail(Call::Tell, 1),
    Step::Call("verify 16", 6),
    Step::Told(""),
];

const RESTORED: &[Step<'static>] = &[
    Step::Feed(FIRST_BLOCK),
    Step::FeedMany(914, "0"),
    Step::Feed("\nend 1\n"),
    Step::Call("restore 1 1", 0),
    Step::Told("restored 1\n"),
    Step::Crash(1),
    Step::Run("get 5\n", "open 1\nvalue 0a0b\n"),
    Step::Crash(2),
    Step::Call("restore 1 1", 10),
    Step::Begins("fault notblank log "),
    Step::New(STANDARD),
    Step::Feed("end 0\n"),
    Step::Call("restore 2 4096", 14),
    Step::Told("fault short 0\n"),
    Step::New(STANDARD),
    Step::Feed("end 1\n"),
    Step::Call("restore 2 4096", 13),
    Step::Told("fault stream 1\n"),
];

const LARGE_DEVICES: &[Step<'static>] = &[
    Step::New(LARGE),
    Step::Call("new 1024 64 400", 0),
    Step::Told("ready 1024 64 400\n"),
];

// The first line has no words, and one ends with an empty word.
const OTHER_WORDS: &str = "
help run
check x
check check
run help
run 1 2
1 run 1
serve 1
runs 1
run new 16 8 64
-h
run
run 0
run 4097
run 01
run 1 1
help
run -1
run\x20
--help
--version
run -- 1
new 16 8
new 16 8 64 1
new 16 10 64
new 0 8 64
new 65537 8 64
new 16 8 15
new 16 16388 64
load 1 1
load 1 1 4 1
load 0 1 4
load 100001 1 4
load 1 18446744073709551616 4
load 1 01 4
load 1 +1 4
load 1 1 4097
trial 16 8 64
trial 1025 8 64 1
trial 16 260 64 1
trial 16 10 64 1
trial 16 8 4097 1
trial 16 8 64 4097
trial 16 8 64 1 1
simulate 8
simulate 8 1 1
simulate 4 1
simulate 10 1
simulate 16388 1
simulate 8 4097
verify
verify 0
verify 65537
verify 1 1";

// Whether these words are refused, and nothing is done but telling it.
fn refuses_words(alloc: Global, words: &str) -> Result<bool, Fail> {
    let mut site = MemSite::new(alloc, &STANDARD)?;
    let status = call(alloc, &mut site, words)?;
    let told = site.told() == b"fault words\n".as_slice();
    Ok(status == 2 && told && site.changes() == 1)
}

#[test]
fn other_words_are_refused(rt: HostRuntime) -> Result<(), Fail> {
    for words in OTHER_WORDS.split('\n') {
        assert!(rt; refuses_words(rt.alloc(), words)?, "{words}");
    }
    Ok(())
}

const LARGEST_POOL: &[Step<'static>] = &[Step::Call("run 4096", 0)];

// No device is touched.
const TRACES: &[Step<'static>] = &[
    Step::Feed("r 0\nr 0\n"),
    Step::Call("simulate 16384 4096", 0),
    Step::Told(
        "\
fifo touches 2 pool 1 flash 0 disk 1 staged 0 pushed 0
group touches 2 pool 1 flash 0 disk 1 staged 0 pushed 0
chance touches 2 pool 1 flash 0 disk 1 staged 0 pushed 0
",
    ),
    Step::Reads(Dev::Log, 0),
    Step::Changes(1),
    Step::New(STANDARD),
    Step::Feed("r 0\nx 1\n"),
    Step::Call("simulate 8 1", 16),
    Step::Told("fault trace 2\n"),
    Step::Reads(Dev::Log, 0),
    Step::Changes(1),
];

const FAULTS: &[Step<'static>] = &[
    Step::Fail(Call::Read(Dev::Log), 1),
    Step::Feed("set 5 0a0b\n"),
    Step::Call("run 1", 3),
    Step::Told("fault log\n"),
    Step::New(STANDARD),
    Step::Fail(Call::Write(Dev::Log), 1),
    Step::Feed("set 5 0a0b\n"),
    Step::Call("run 1", 3),
    Step::Told("fault log\n"),
    Step::New(STANDARD),
    Step::Fail(Call::Sync(Dev::Log), 1),
    Step::Feed("get 5\n"),
    Step::Call("run 1", 3),
    Step::Told("fault log\n"),
    Step::New(STANDARD),
    Step::Fail(Call::Write(Dev::Log), 4),
    Step::Feed("set 5 0a0b\n"),
    Step::Call("run 1", 3),
    Step::Told("open 0\nfault log\n"),
    Step::New(STANDARD),
    Step::Fail(Call::Sync(Dev::Log), 3),
    Step::Feed("set 5 0a0b\n"),
    Step::Call("run 1", 3),
    Step::Told("open 0\nfault log\n"),
    Step::New(STANDARD),
    Step::Fail(Call::Take, 1),
    Step::Feed("get 5\n"),
    Step::Call("run 1", 5),
    Step::Told("open 0\nfault input\n"),
    Step::New(STANDARD),
    Step::Fail(Call::Take, 2),
    Step::Feed("set 5 0a0b\n"),
    Step::Call("run 1", 5),
    Step::Told("open 0\ncommitted 1\nfault input\n"),
    Step::New(STANDARD),
    Step::Fail(Call::Tell, 2),
    Step::Feed("set 5 0a0b\nget 5\n"),
    Step::Call("run 1", 6),
    Step::Told("open 0\n"),
];

const FOLLOWERS: &[Step<'static>] = &[
    Step::Fail(Call::Read(Dev::Flash), 1),
    Step::Call("run 1", 3),
    Step::Told("fault flash\n"),
    Step::Run("", "fault flash\nopen 0\n"),
    Step::New(STANDARD),
    Step::Fail(Call::Write(Dev::Disk), 1),
    Step::Feed(
        "set 0 01\nset 32 02\nset 64 03\nset 96 04\nset 128 05\nset 160 06\nset 192 07\nset 224 08\nset 256 09\n",
    ),
    Step::Call("run 1", 3),
    Step::Told(
        "open 0\ncommitted 1\ncommitted 2\ncommitted 3\ncommitted 4\ncommitted 5\ncommitted 6\ncommitted 7\n\
        committed 8\nfault disk\n",
    ),
    Step::Crash(2),
    Step::Run("get 0\n", "open 8\nvalue 01\n"),
];

// Six reads of flash find the ring of segments, one the first gate of the groups.
const SHORT_TELL: &[Step<'static>] = &[
    Step::ShortTell(2, 3),
    Step::Run("set 5 0a0b\nget 5\n", "open 0\ncommitted 1\nvalue 0a0b\n"),
    Step::Reads(Dev::Log, 69),
    Step::Reads(Dev::Flash, 7),
    Step::Reads(Dev::Disk, 1),
];

// An open gate over a block of zeros; then a first slot that says that more octets are used than it has; then lengths
// that no sizes have.
const DAMAGED: &[Step<'static>] = &[
    Step::Put(Dev::Log, 1_536, 0xA5),
    Step::Feed("get 5\n"),
    Step::Call("run 1", 9),
    Step::Told("fault foreign\n"),
    Step::New(STANDARD),
    Step::Feed("set 5 0a0b\nget 5\n"),
    Step::Call("run 1", 0),
    Step::Crash(0),
    Step::Put(Dev::Log, 1_545, 0xFF),
    Step::Feed("get 5\n"),
    Step::Call("run 1", 9),
    Step::Told("fault foreign\n"),
    Step::New(ODD),
    Step::Feed("get 5\n"),
    Step::Call("run 1", 9),
    Step::Reads(Dev::Log, 0),
    Step::Changes(1),
];

// A load of a few sets on blank devices, and what a run finds after it. The numbers were worked out by another program.
const LOAD: &[Step<'static>] = &[
    Step::Call("load 1 1 4", 0),
    Step::Told("open 0\nload 1 committed 1 checkpoints 0 found 1\n"),
];

const LOAD_AND_RUN: &[Step<'static>] = &[
    Step::Call("load 1 1 4", 0),
    Step::Feed("get 470\n"),
    Step::Call("run 4", 0),
    Step::Told(
        "open 0\nload 1 committed 1 checkpoints 0 found 1\nopen 1\nvalue 6c576fac43fd007c\n",
    ),
];

// The sets make checkpoints where the log is half full: 3 of 12 do in a log of 16 blocks.
const LOAD_IN_A_SMALL_LOG: &[Step<'static>] = &[
    Step::New(SMALL),
    Step::Call("load 12 5 1", 0),
    Step::Told("open 0\nload 12 committed 12 checkpoints 3 found 12\n"),
];

// Two of 200 sets make one in a log of 400 blocks.
const LONG_LOAD: &[Step<'static>] = &[
    Step::New(LARGE),
    Step::Call("load 200 7 64", 0),
    Step::Told("open 0\nload 200 committed 200 checkpoints 2 found 200\n"),
];

// The largest seed is read.
const LARGEST_SEED: &[Step<'static>] = &[
    Step::Call("load 1 18446744073709551615 1", 0),
    Step::Told("open 0\nload 1 committed 1 checkpoints 0 found 1\n"),
];

// The tests by their names.
const TESTS: [(&str, &[Step<'static>]); 30] = [
    ("the_largest_pool_is_served", LARGEST_POOL),
    ("a_long_input_is_heard_to_its_end", LONG_INPUT),
    ("lines_are_answered", LINES),
    ("the_cache_is_listed", LISTINGS),
    ("a_full_queue_is_listed", FULL_QUEUE),
    ("seven_frames_have_a_second_chance", SECOND_CHANCES),
    ("a_set_fills_the_first_slot", ONE_SET),
    ("values_have_every_spelling", SPELLINGS),
    ("a_long_value_is_refused", LONG_VALUES),
    ("quit_ends_the_run", QUITS),
    ("a_long_line_is_refused_once", LONG_LINE),
    ("a_small_log_is_used_again", MANY_SETS),
    ("a_checkpoint_lets_records_go", CHECKPOINTS),
    ("a_worn_ring_of_masters_ends_a_run", WORN),
    ("a_new_database_is_tested", NEW),
    ("devices_are_checked", CHECKS),
    ("archives_are_told", ARCHIVES),
    ("archives_are_verified", VERIFIED),
    ("archives_are_restored", RESTORED),
    ("large_devices_are_tested", LARGE_DEVICES),
    ("a_trace_is_reported", TRACES),
    ("faults_have_their_status", FAULTS),
    ("a_run_follows_a_fault", FOLLOWERS),
    ("a_short_tell_goes_on", SHORT_TELL),
    ("damaged_devices_are_foreign", DAMAGED),
    ("a_load_is_summed_up", LOAD),
    ("a_load_is_found_again", LOAD_AND_RUN),
    ("a_load_makes_checkpoints", LOAD_IN_A_SMALL_LOG),
    ("a_long_load_is_summed_up", LONG_LOAD),
    ("a_seed_has_64_bits", LARGEST_SEED),
];

#[test]
fn steps_hold(rt: HostRuntime) -> Result<(), Fail> {
    for (name, rows) in TESTS {
        let held = play(rt.alloc(), rows)?;
        assert!(rt; held == rows.len(), "{name}: row {held}");
    }
    Ok(())
}
