// Each kind of call of a site is made to fail in turn, at each place of a run, a load, a new database and a trial. The
// numbers of writes, syncs, takes and tells were worked out by another program; reads are counted by the site.
ghost use Rattle.std.specs.Prelude.{◌≤◌};

use crate::steps;
use mem_site::{Call, MemSite};
use site::{Dev, Geometry};
use std::alloc::{AllocError, Global};
use std::test::Fail;

const SMALL: Geometry = Geometry {
    pages: 16,
    groups: 8,
    blocks: 16,
};

const CALLS: [Call; 8] = [
    Call::Write(Dev::Log),
    Call::Write(Dev::Flash),
    Call::Write(Dev::Disk),
    Call::Sync(Dev::Log),
    Call::Sync(Dev::Flash),
    Call::Sync(Dev::Disk),
    Call::Take,
    Call::Tell,
];

const SEEDS: [u64; 4] = [0, 1, 2, 77];

// What a script does to the records of the site's devices.
#[derive(Clone, Copy, Drop)]
enum Work {
    // Each commit is told.
    Run,
    // So many sets are made, and summed up in one line.
    Load(u64),
    // Nothing.
    Nothing,
}

// What is played: the lines of a life on blank devices, where there are any, and the commits that a crash after it
// leaves; the words, the input behind a line that is too long, and the number of calls of each of the kinds above.
#[derive(Clone, Copy, Drop)]
struct Script {
    before: &'static [u8],
    commits: u64,
    work: Work,
    words: &'static str,
    input: &'static [u8],
    calls: [u64; 8],
}

// The restart of the first two redoes pages and undoes a session; then the queue is full, frames get a second chance,
// a page is staged, and a checkpoint is made.
const SCRIPTS: [Script; 4] = [
    Script {
        before: UNFINISHED,
        commits: 4,
        work: Work::Run,
        words: "run 1",
        input: b"\n\
get 0
begin 0
write 0 128 05
scan 0 31 2
begin 1
write 1 1 06
commit 1
abort 0
set 160 07
checkpoint
cache
set 161 08
quit
",
        calls: [30, 24, 1, 20, 16, 1, 2, 24],
    },
    Script {
        before: UNFINISHED,
        commits: 4,
        work: Work::Load(4),
        words: "load 4 5 1",
        input: b"",
        calls: [24, 24, 1, 16, 16, 1, 0, 2],
    },
    Script {
        before: b"",
        commits: 0,
        work: Work::Nothing,
        words: "new 16 8 16",
        input: b"",
        calls: [0, 0, 0, 0, 0, 0, 0, 1],
    },
    Script {
        before: b"",
        commits: 0,
        work: Work::Nothing,
        words: "trial 16 8 16 1",
        input: b"\nset 0 01\nstop 9 1\nset 0 02\nset 0 03\nstop 20 2\nget 0\n",
        calls: [0, 0, 0, 0, 0, 0, 2, 6],
    },
];

const UNFINISHED: &[u8] = b"\
set 0 01
set 32 02
set 64 03
begin 0
write 0 0 aa
write 0 32 bb
set 96 04
";

// The devices and the input of a script.
fn prepared(alloc: Global, script: &Script) -> Result<MemSite, Fail> {
    let mut site = MemSite::new(alloc, &SMALL)?;
    if !script.before.is_empty() {
        site.feed(script.before)?;
        let _status = steps::call(alloc, &mut site, "run 1")?;
        site = site.crash(0);
    }
    site.feed(&[b'7'; 4_000])?;
    site.feed(script.input)?;
    Ok(site)
}

fn status_of(call: Call) -> u8 {
    match call {
        Call::Read(_) | Call::Write(_) | Call::Sync(_) => 3,
        Call::Take => 5,
        Call::Tell => 6,
    }
}

fn fault_line_of(call: Call) -> &'static [u8] {
    match call {
        Call::Read(dev) | Call::Write(dev) | Call::Sync(dev) => match dev {
            Dev::Log => b"fault log\n",
            Dev::Flash => b"fault flash\n",
            Dev::Disk => b"fault disk\n",
        },
        Call::Take => b"fault input\n",
        Call::Tell => b"",
    }
}

// Whether lines are whole, and whole replies too but where telling failed: of a reply of many lines each but the last
// begins with one of these words.
fn are_whole(call: Call, lines: &[u8]) -> bool {
    let mut backward = lines.rsplit(|octet| *octet == b'\n');
    let ended = backward.next().is_some_and(|piece| piece.is_empty());
    let goes_on = backward.next().is_some_and(|last| last.starts_with(b"item ")
        || last.starts_with(b"frame ")
        || last.starts_with(b"pool "));
    ended && (call == Call::Tell || !goes_on)
}

// How many commits were told.
fn committed(lines: &[u8]) -> u64 {
    lines
        .split(|octet| *octet == b'\n')
        .filter(|line| line.starts_with(b"committed "))
        .count() as u64
}

// The commits that the next run may find, at least and at most, behind these lines and with these yet to come.
fn range_of(script: &Script, call: Call, lines: &[u8], rest: &[u8]) -> (u64, u64) {
    match script.work {
        Work::Run => {
            let told = script.commits.saturating_add(committed(lines));
            if rest.starts_with(b"committed ") {
                return (told, told.saturating_add(1));
            }
            (told, told)
        }
        Work::Load(sets) => {
            let all = script.commits.saturating_add(sets);
            if rest.starts_with(b"open ") {
                return (script.commits, script.commits);
            }
            if call == Call::Tell {
                return (all, all);
            }
            (script.commits, all)
        }
        Work::Nothing => (script.commits, script.commits),
    }
}

// The commits that the next run may find, where the status is that of the call, and some of the whole text was told and
// then the fault line.
fn judged(
    script: &Script,
    whole: &[u8],
    call: Call,
    status: u8,
    told: &[u8],
) -> Option<(u64, u64)> {
    let lines = told.strip_suffix(fault_line_of(call))?;
    let rest = whole.strip_prefix(lines)?;
    if status != status_of(call) || rest.is_empty() || !are_whole(call, lines) {
        return None;
    }
    Some(range_of(script, call, lines, rest))
}

// Whether this tells of a number of commits within the range.
fn opens(alloc: Global, told: &[u8], (least, most): (u64, u64)) -> Result<bool, AllocError> {
    for commits in least..=most {
        if format!(in alloc; "open {commits}\n")?.as_bytes() == told {
            return Ok(true);
        }
    }
    Ok(false)
}

// How a script went of which a call was to fail.
#[derive(Clone, Copy, Drop)]
enum Played {
    Unmet,
    Failed,
    Wrong,
}

// Plays a script whose nth call of a kind fails, then a crash with this seed, and the next run.
fn play(
    alloc: Global,
    script: &Script,
    whole: &[u8],
    call: Call,
    nth: u64,
    seed: u64,
) -> Result<Played, Fail>
    requires { 1 ≤ nth }
{
    let mut site = prepared(alloc, script)?;
    site.fail(call, nth)?;
    let status = steps::call(alloc, &mut site, script.words)?;
    if status == 0 && site.told() == whole {
        return Ok(Played::Unmet);
    }
    let Some(range) = judged(script, whole, call, status, site.told()) else {
        return Ok(Played::Wrong);
    };
    let mut site = site.crash(seed);
    let status = steps::call(alloc, &mut site, "run 1")?;
    if status == 0 && opens(alloc, site.told(), range)? {
        return Ok(Played::Failed);
    }
    Ok(Played::Wrong)
}

// Plays it with each seed, until it goes otherwise.
fn play_seeds(
    alloc: Global,
    script: &Script,
    whole: &[u8],
    call: Call,
    nth: u64,
) -> Result<Played, Fail>
    requires { 1 ≤ nth }
{
    for seed in SEEDS {
        let played = play(alloc, script, whole, call, nth, seed)?;
        if !matches!(played, Played::Failed) {
            return Ok(played);
        }
    }
    Ok(Played::Failed)
}

// How many calls of a kind failed in turn until the script met none; None where one went wrong.
fn failed(alloc: Global, script: &Script, whole: &[u8], call: Call) -> Result<Option<u64>, Fail> {
    for nth in 1..1_000 {
        match play_seeds(alloc, script, whole, call, nth)? {
            Played::Unmet => return Ok(Some(nth - 1)),
            Played::Failed => {}
            Played::Wrong => return Ok(None),
        }
    }
    Ok(None)
}

#[test]
fn every_call_that_can_fail_fails(rt: HostRuntime) -> Result<(), Fail> {
    for script in SCRIPTS {
        let mut site = prepared(rt.alloc(), &script)?;
        assert!(rt; steps::call(rt.alloc(), &mut site, script.words)? == 0);
        for dev in [Dev::Log, Dev::Flash, Dev::Disk] {
            let reads = failed(rt.alloc(), &script, site.told(), Call::Read(dev))?;
            assert!(rt; reads == Some(site.reads(dev)));
        }
        for (call, calls) in CALLS.iter().zip(script.calls) {
            assert!(rt; failed(rt.alloc(), &script, site.told(), *call)? == Some(calls));
        }
    }
    Ok(())
}
