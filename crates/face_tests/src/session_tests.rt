// Sessions, their locks, and restarts that undo them. What is expected was worked out by hand or by another program.
use crate::steps::{SMALL, STANDARD, Step, play};
use face::serve;
use mem_site::{Call, MemSite};
use site::Dev;
use std::alloc::Global;
use std::test::Fail;

// Runs over a site with some input, and answers the status.
fn run(alloc: Global, site: &mut MemSite, input: &str) -> Result<u8, Fail> {
    site.feed(input.as_bytes())?;
    Ok(serve(alloc, 1, site))
}

// Inputs that are served over blank devices of these sizes, and what is told.
macro_rules! served {
    ($sizes:expr; $($input:literal => $told:literal;)+) => {
        &[$(Step::New($sizes), Step::Serve($input, $told),)+]
    };
}

const APART: &[Step<'static>] = served! {
    STANDARD;
    "begin 0\nwrite 0 7 01\nbegin 1\nread 1 7\nabort 0\nread 1 7\n" =>
    "open 0\nok\nok\nok\nbusy 0\naborted\nnone\n";
    "begin 0\nbegin 1\nread 0 9\nread 1 9\nwrite 0 9 aa\ncommit 1\nwrite 0 9 aa\ncommit 0\nget 9\n" =>
    "open 0\nok\nok\nnone\nnone\nbusy 1\ncommitted 1\nok\ncommitted 2\nvalue aa\n";
    "begin 0\nwrite 0 1 aa\nerase 0 1\nread 0 1\ncommit 0\nget 1\n" =>
    "open 0\nok\nok\nok\nnone\ncommitted 1\nnone\n";
    "begin 8\nread 0 0\nbegin 0\nbegin 0\nset 5 AB\nget 5\n" =>
    "open 0\nrefused session\nrefused session\nok\nrefused session\ncommitted 1\nvalue ab\n";
    "set 1 aa\nbegin 3\nwrite 3 1 bb\nget 1\nset 1 cc\nbegin 2\nread 2 1\nread 3 1\nabort 3\nread 2 1\n\
    set 1 dd\ncommit 2\nstat\n" =>
    "open 0\ncommitted 1\nok\nok\nbusy 3\nbusy 3\nok\nbusy 3\nvalue bb\naborted\nvalue aa\nbusy 2\n\
    committed 2\nstat commits 2 used 9 owed 0 cap 63 active 0\n";
    "set 2 aa\nset 4 -\nbegin 0\nscan 0 0 6\nbegin 1\nwrite 1 9 01\nscan 0 5 8\nset 6 bb\nscan 0 500 64\n" =>
    "open 0\ncommitted 1\ncommitted 2\nok\nitem 2 aa\nitem 4 -\nend 2\nok\nok\nbusy 1\ncommitted 3\n\
    refused record\n";
    "set 31 aa\nbegin 2\nwrite 2 32 bb\nscan 2 31 2\nbegin 4\nwrite 4 33 cc\nbegin 3\nwrite 3 34 dd\n\
    scan 2 31 64\nset 31 ee\nscan 2 449 64\nscan 2 449 63\n" =>
    "open 0\ncommitted 1\nok\nok\nitem 31 aa\nitem 32 bb\nend 2\nok\nok\nok\nok\nbusy 4\nbusy 2\n\
    refused record\nend 0\n";
};

const REFUSALS: &[Step<'static>] = &[
    Step::Feed("\nget 05\nget  5\nget 5 \nset 5 0\nset 5 0g\nscan 0 0 0\nscan 0 0 65\nGET 5\n"),
    Step::FeedMany(501, "7"),
    Step::Feed("\nbegin 8\nread 0 0\nbegin 0\nbegin 0\nset 5 AB\nget 5\n"),
    Step::Call("run 1", 0),
    Step::Begins("open 0\n"),
    Step::Repeats(7, 10, "refused line\n"),
    Step::Behind(
        137,
        "refused session\nrefused session\nok\nrefused session\ncommitted 1\nvalue ab\n",
    ),
];

const ROOM: &[Step<'static>] = served! {
    SMALL;
    "begin 0\nwrite 0 1 aa\nwrite 0 1 aa\nwrite 0 1 aa\nwrite 0 1 aa\nwrite 0 1 aa\nwrite 0 1 aa\n\
    write 0 1 aa\nabort 0\nstat\nset 0 aa\n" =>
    "open 0\nok\nok\nok\nok\nok\nok\nok\nfull 7 7 15\naborted\nstat commits 0 used 14 owed 0 cap 15 active 0\n\
    committed 1\n";
    "begin 0\nbegin 1\nbegin 2\nbegin 3\nbegin 4\nbegin 5\nbegin 6\nbegin 7\ncommit 0\nbegin 7\nstat\n" =>
    "open 0\nok\nok\nok\nok\nok\nok\nok\nfull 7 7 15\ncommitted 1\nok\n\
    stat commits 1 used 8 owed 7 cap 15 active 7\n";
};

const BACK: &[Step<'static>] = served! {
    STANDARD;
    "begin 0\nwrite 0 1 aa\nmark 0\nwrite 0 1 bb\nwrite 0 2 cc\nback 0\nread 0 1\nread 0 2\nget 2\ncommit 0\n\
    get 1\nget 2\n" =>
    "open 0\nok\nok\nok\nok\nok\nback 2\nvalue aa\nnone\nbusy 0\ncommitted 1\nvalue aa\nnone\n";
    "mark 8\nback 0\nbegin 0\nread 0 5\nbegin 1\nwrite 0 1 aa\nwrite 0 2 bb\nmark 0\nback 0\nwrite 0 1 cc\nback 0\n\
    erase 0 2\nread 0 2\nback 0\nread 0 2\nread 1 2\nwrite 1 5 01\ncommit 0\nget 1\nread 1 2\n" =>
    "open 0\nrefused session\nrefused session\nok\nnone\nok\nok\nok\nok\nback 0\nok\nback 1\nok\nnone\nback 1\n\
    value bb\nbusy 0\nbusy 0\ncommitted 1\nvalue aa\nvalue bb\n";
    "begin 0\nwrite 0 1 aa\nwrite 0 2 bb\nmark 0\nwrite 0 3 cc\nback 0 4\nback 0 3\nread 0 3\nback 0 1\nread 0 2\n\
    write 0 4 dd\nback 0\nread 0 4\nback 0 0\nread 0 1\nstat\ncommit 0\nget 1\n" =>
    "open 0\nok\nok\nok\nok\nok\nrefused mark\nback 0\nvalue cc\nback 2\nnone\nok\nback 1\nnone\nback 1\nnone\n\
    stat commits 0 used 9 owed 1 cap 63 active 1\ncommitted 1\nnone\n";
    // The pages of the dropped writes are touched, the last one's first.
    "set 0 01\nset 32 02\nbegin 0\nwrite 0 0 11\nmark 0\nwrite 0 32 12\nwrite 0 64 13\nback 0\ncache\nabort 0\ncache\n" =>
    "open 0\ncommitted 1\ncommitted 2\nok\nok\nok\nok\nok\nback 2\nframe 0 0 page 0 -dr\nframe 1 0 page 1 -dr\n\
    frame 2 0 page 0 vd-\nframe 3 0 page 1 vdr\nframe 4 0 page 2 vd-\npool 1*\nend 6\naborted\n\
    frame 0 0 page 0 -dr\nframe 1 0 page 1 -dr\nframe 2 0 page 0 vdr\nframe 3 0 page 1 -dr\nframe 4 0 page 2 vd-\n\
    frame 5 0 page 1 vd-\npool 0*\nend 7\n";
};

const BACK_WITH_FEW_BLOCKS: &[Step<'static>] = served! {
    SMALL;
    "begin 0\nwrite 0 1 aa\nwrite 0 1 aa\nwrite 0 1 aa\nwrite 0 1 aa\nwrite 0 1 aa\nwrite 0 1 aa\n\
    back 0\nstat\nwrite 0 1 aa\nback 0\ncommit 0\n" =>
    "open 0\nok\nok\nok\nok\nok\nok\nok\nback 6\nstat commits 0 used 13 owed 1 cap 15 active 1\nfull 13 1 15\n\
    back 0\ncommitted 1\n";
};

const FAULTS: &[Step<'static>] = &[
    Step::Fail(Call::Write(Dev::Log), 4),
    Step::Feed("begin 0\nwrite 0 1 aa\ncommit 0\n"),
    Step::Call("run 1", 3),
    Step::Told("open 0\nok\nok\nfault log\n"),
    Step::New(STANDARD),
    Step::Fail(Call::Sync(Dev::Log), 3),
    Step::Feed("begin 0\nwrite 0 1 aa\ncommit 0\n"),
    Step::Call("run 1", 3),
    Step::Told("open 0\nok\nok\nfault log\n"),
    Step::New(STANDARD),
    Step::Fail(Call::Tell, 4),
    Step::Feed("begin 0\nwrite 0 1 aa\ncommit 0\n"),
    Step::Call("run 1", 6),
    Step::Told("open 0\nok\nok\n"),
];

// The tests by their names.
const TESTS: [(&str, &[Step<'static>]); 6] = [
    ("sessions_are_kept_apart", APART),
    ("lines_and_sessions_are_refused", REFUSALS),
    ("undo_has_room", ROOM),
    ("sessions_go_back", BACK),
    ("going_back_has_room", BACK_WITH_FEW_BLOCKS),
    ("faults_end_a_session", FAULTS),
];

#[test]
fn steps_hold(rt: HostRuntime) -> Result<(), Fail> {
    for (name, rows) in TESTS {
        let held = play(rt.alloc(), rows)?;
        assert!(rt; held == rows.len(), "{name}: row {held}");
    }
    Ok(())
}

// The status of a restart by the change at which it is stopped: it makes so many changes of the devices, and tells one
// line.
fn status_at(changes: u64, made: u64) -> u8 {
    if changes < made {
        3
    } else if changes == made {
        6
    } else {
        0
    }
}

// The devices after a crash that leaves a session unfinished which began before a checkpoint and wrote behind it too.
fn unfinished_for_long(alloc: Global) -> Result<MemSite, Fail> {
    let mut site = MemSite::new(alloc, &STANDARD)?;
    let input = "set 0 aa\nbegin 0\nwrite 0 1 bb\ncheckpoint\nwrite 0 0 cc\nset 2 dd\n";
    let _status = run(alloc, &mut site, input)?;
    Ok(site.crash(0))
}

// Whether a restart that is stopped so has its status, and the next one undoes the session.
fn is_undone(alloc: Global, changes: u64, seed: u64) -> Result<bool, Fail> {
    let mut site = unfinished_for_long(alloc)?;
    site.fuse(changes);
    let status = run(alloc, &mut site, "")?;
    if status != status_at(changes, 15) {
        return Ok(false);
    }
    let mut site = site.crash(seed);
    let status = run(alloc, &mut site, "get 0\nget 1\nget 2\nstat\n")?;
    let told =
        b"open 2\nvalue aa\nnone\nvalue dd\nstat commits 2 used 0 owed 0 cap 63 active 0\n".as_slice();
    Ok(status == 0 && site.told() == told)
}

#[test]
fn a_restart_undoes_what_is_older_than_a_checkpoint(rt: HostRuntime) -> Result<(), Fail> {
    for changes in 0..17 {
        for seed in [0, 1, 2, 77] {
            assert!(rt; is_undone(rt.alloc(), changes, seed)?);
        }
    }
    Ok(())
}
