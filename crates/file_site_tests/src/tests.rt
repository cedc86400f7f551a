// What no clause says: which files are read, written, synced, made and locked, and what the standard streams give and
// take. A test is a table of rows, which one function plays.
use crate::fakes::{Fake, FakeReader, World};
use file_site::{Call, Failure, FileSite, Folder, Intake, LockFile, NoFolder, Watch, tell_line};
use site::{Dev, Failed, Site, Stop};
use std::alloc::{AllocError, Global};
use std::fs;
use std::io::{self, Eprint, ErrorKind, Input, Print};
use std::os::unix::fs::FileExt;
use std::rt::{Clock, Files};
use std::test::Fail;

const NAMES: [&str; 6] = [
    "face.log",
    "face.flash",
    "face.disk",
    "face.log.new",
    "face.flash.new",
    "face.disk.new",
];

// The length of a file that isn't there.
const NONE: u64 = u64::MAX;

// How a site is opened: without files, over those that are there, for a check of them, or over those of a new database
// of these lengths; and each in a folder.
#[derive(Clone, Copy)]
enum How {
    Bare,
    Existing,
    Check,
    Fresh(u64, u64, u64),
    ExistingIn(&'static str),
    CheckIn(&'static str),
    FreshIn(&'static str, u64, u64, u64),
}

// A row of a test.
#[derive(Clone, Copy)]
enum Step {
    // None of the files is there from now on; one is there with these octets.
    Clear,
    File(&'static str, &'static [u8]),
    // A folder is there, without files; and then it isn't.
    Folder(&'static str),
    NoFolder(&'static str),
    // The site is closed, and then opened anew.
    Open(How),
    // From now on so many of these calls on this file fail.
    Fail(&'static str, &'static str, ErrorKind, u32),
    // From now on the output takes no more at once.
    AtMost(usize),
    // A site that is opened from now on has this input.
    Feed(&'static [u8]),
    // From now on so many milliseconds pass at each look at the clock.
    Pass(u64),
    // The calls that were made are forgotten.
    Forget,
    // None of the files is there, and this call on this file fails once, when those of a new database of 10, 20 and 30
    // octets are made: its log has this length then, and all of the files are there, or none.
    Make(&'static str, &'static str, ErrorKind, u64),
    // The files of the devices and of their drafts have these lengths.
    Files([u64; 6]),
    // The device has this length.
    Len(Dev, u64),
    // The call at this place, with the octets that it writes, tells, reads or takes, gives this.
    Call(Call, u64, &'static [u8], Result<usize, Failed>),
    // Of a call of each kind on each device and one that tells, at the front and with one octet, this one alone fails.
    Fails(Call),
    // No call has failed since the site was opened; or this was the first, with this error.
    Sound,
    First(Call, ErrorKind),
    // A line is told without a site, whole or not.
    Line(&'static [u8], bool),
    // Behind these first ones these calls were made since the last such row; this was told, and this was said.
    Calls(&'static str, &'static str),
    Told(&'static [u8]),
    Said(&'static str),
    // So many pauses were made in all.
    Slept(u64),
}

fn remove_all(rt: &HostRuntime) {
    for path in NAMES {
        let _ = fs::remove_file(rt, path);
    }
}

// Whether the files have these lengths.
fn have_lengths(rt: &HostRuntime, lengths: [u64; 6]) -> bool {
    for (path, wanted) in NAMES.iter().zip(&lengths) {
        let found = match rt.metadata(path) {
            Ok(metadata) => metadata.len(),
            Err(_) => NONE,
        };
        if found != *wanted {
            return false;
        }
    }
    true
}

// Reads as many octets from this place on, where the device has so many; answers how many there are, if they are these.
fn read<S: Site>(site: &mut S, dev: Dev, at: u64, octets: &[u8]) -> Result<usize, Failed> {
    let mut found = [9; 8];
    let Some(part) = found.get_mut(..octets.len()) else {
        return Ok(0);
    };
    let len = site.len(dev);
    if len < at || len - at < octets.len() as u64 {
        return Ok(0);
    }
    site.read_at(dev, at, part)?;
    if !part.starts_with(octets) {
        return Ok(0);
    }
    Ok(octets.len())
}

// Writes these octets from this place on, where the device has so many; answers how many.
fn write<S: Site>(site: &mut S, dev: Dev, at: u64, octets: &[u8]) -> Result<usize, Failed> {
    let len = site.len(dev);
    if len < at {
        return Ok(0);
    }
    if len - at < octets.len() as u64 {
        return Ok(0);
    }
    site.write_at(dev, at, octets)?;
    Ok(octets.len())
}

// Takes at most eight octets; answers how many, if they are these, and else nine.
fn take<S: Site>(site: &mut S, octets: &[u8]) -> Result<usize, Failed> {
    let mut found = [9; 8];
    let count = site.take(&mut found)?;
    if !found.starts_with(octets) {
        return Ok(9);
    }
    Ok(count)
}

// Makes a call; answers how many octets it wrote, told, read or took.
fn call<S: Site>(site: &mut S, call: Call, at: u64, octets: &[u8]) -> Result<usize, Failed> {
    match call {
        Call::Read(dev) => read(site, dev, at, octets),
        Call::Write(dev) => write(site, dev, at, octets),
        Call::Sync(dev) => match site.sync(dev) {
            Ok(()) => Ok(0),
            Err(failed) => Err(failed),
        },
        Call::Take => take(site, octets),
        Call::Tell => {
            if octets.is_empty() {
                return Ok(0);
            }
            site.tell(octets)
        }
    }
}

// A call of each kind on each device, and one that tells; a write comes before its device is read.
const EACH: [Call; 10] = [
    Call::Write(Dev::Log),
    Call::Sync(Dev::Log),
    Call::Read(Dev::Log),
    Call::Write(Dev::Flash),
    Call::Sync(Dev::Flash),
    Call::Read(Dev::Flash),
    Call::Write(Dev::Disk),
    Call::Sync(Dev::Disk),
    Call::Read(Dev::Disk),
    Call::Tell,
];

// Whether of all these calls this one alone fails.
fn fails_alone<S: Site>(site: &mut S, failed: Call) -> bool {
    for made in EACH {
        if call(site, made, 0, b"a").is_err() != (made == failed) {
            return false;
        }
    }
    true
}

// Changes what the site stands on, where the row says so.
fn prepare(rt: &HostRuntime, world: &World, step: Step) -> io::Result<()> {
    match step {
        Step::Clear => remove_all(rt),
        Step::File(path, octets) => fs::write(rt, path, octets)?,
        Step::Folder(path) => {
            let _ = rt.remove_dir_all(rt.alloc(), path);
            rt.create_dir(path)?;
        }
        Step::NoFolder(path) => rt.remove_dir_all(rt.alloc(), path)?,
        Step::Fail(call, path, kind, times) => world.fail(call, path, kind, times),
        Step::AtMost(count) => world.tell_at_most(count),
        Step::Feed(input) => world.feed(input),
        Step::Pass(millis) => world.let_pass(millis),
        Step::Forget => drop(world.calls(rt.alloc())),
        _ => {}
    }
    Ok(())
}

// Whether a row holds that looks at what was made, called, told and said.
fn shows(rt: &HostRuntime, world: &World, step: Step) -> bool {
    let alloc = rt.alloc();
    match step {
        Step::Files(lengths) => have_lengths(rt, lengths),
        Step::Calls(first, calls) => world.calls(alloc).as_str().strip_prefix(first) == Some(calls),
        Step::Told(told) => world.told(alloc).as_slice() == told,
        Step::Said(said) => world.said(alloc).as_str() == said,
        Step::Slept(pauses) => world.slept() == pauses,
        _ => true,
    }
}

// Whether the first call that failed is this one, with this error.
fn is_first(found: Option<Failure>, call: Call, kind: ErrorKind) -> bool {
    match found {
        Some(failure) => failure.call == call && failure.error.kind() == kind,
        None => false,
    }
}

// Whether a row on the site holds.
fn holds<R>(over: &R, site: &mut FileSite<R>, step: Step) -> bool
where
    R: Files + Input + Print + Clock + Eprint + Drop,
    R::File: FileExt + LockFile,
{
    match step {
        Step::Len(dev, len) => site.len(dev) == len,
        Step::Call(made, at, octets, gives) => call(site, made, at, octets) == gives,
        Step::Fails(failed) => fails_alone(site, failed),
        Step::Sound => site.failure().is_none(),
        Step::First(failed, kind) => is_first(site.failure(), failed, kind),
        Step::Line(line, whole) => tell_line(over, line) == whole,
        _ => true,
    }
}

// The folder with this path, which is one that a database may lie in.
fn folder(alloc: Global, path: &str) -> Result<Folder, Stop> {
    match Folder::new(alloc, path) {
        Ok(folder) => Ok(folder),
        Err(_) => Err(Stop::Foreign),
    }
}

fn open<R>(over: R, alloc: Global, how: How) -> Result<FileSite<R>, Stop>
where
    R: Files + Input + Print + Clock + Eprint + Drop,
    R::File: FileExt + LockFile,
{
    match how {
        How::Bare => FileSite::bare(over, alloc),
        How::Existing => FileSite::existing(over, alloc),
        How::Check => FileSite::for_check(over, alloc),
        How::Fresh(log, flash, disk) => FileSite::fresh(over, alloc, log, flash, disk),
        How::ExistingIn(path) => FileSite::existing_in(over, alloc, &folder(alloc, path)?),
        How::CheckIn(path) => FileSite::for_check_in(over, alloc, &folder(alloc, path)?),
        How::FreshIn(path, log, flash, disk) => {
            FileSite::fresh_in(over, alloc, &folder(alloc, path)?, log, flash, disk)
        }
    }
}

// Makes the files of a new database of 10, 20 and 30 octets, and answers whether its log has this length then, with all
// of the files there, or none.
fn is_made<R>(rt: &HostRuntime, over: R, len: u64) -> Result<bool, Stop>
where
    R: Files + Input + Print + Clock + Eprint + Drop,
    R::File: FileExt + LockFile,
{
    let site = FileSite::fresh(over, rt.alloc(), 10, 20, 30)?;
    let found = site.len(Dev::Log);
    drop(site);
    let left = if len == 0 {
        [NONE; 6]
    } else {
        [10, 20, 30, NONE, NONE, NONE]
    };
    Ok(found == len && have_lengths(rt, left))
}

// Plays rows over a runtime in this world, and answers how many hold, up to the first one that doesn't.
fn play_over<R>(rt: &HostRuntime, world: &World, over: R, steps: &[Step]) -> Result<usize, Fail>
where
    R: Files + Input + Print + Clock + Eprint + Copy + Drop,
    R::File: FileExt + LockFile,
{
    let mut site = FileSite::bare(over, rt.alloc())?;
    for (row, step) in steps.iter().enumerate() {
        match *step {
            Step::Open(how) => {
                site = FileSite::bare(over, rt.alloc())?;
                site = open(over, rt.alloc(), how)?;
            }
            Step::Make(call, path, kind, len) => {
                remove_all(rt);
                world.fail(call, path, kind, 1);
                if !is_made(rt, over, len)? {
                    return Ok(row);
                }
            }
            step => {
                prepare(rt, world, step)?;
                if !shows(rt, world, step) || !holds(&over, &mut site, step) {
                    return Ok(row);
                }
            }
        }
    }
    Ok(steps.len())
}

// Plays rows over a new world.
fn play(rt: &HostRuntime, steps: &[Step]) -> Result<usize, Fail> {
    let world = World::new(rt.alloc());
    let fake = Fake { rt, world: &world };
    play_over(rt, &world, fake, steps)
}

const FOUND_AGAIN: [Step; 18] = [
    Step::Clear,
    Step::Open(How::Existing),
    Step::Len(Dev::Log, 0),
    Step::Open(How::Fresh(70_000, 8, 4_096)),
    Step::Len(Dev::Log, 70_000),
    Step::Call(Call::Write(Dev::Log), 69_998, b"ab", Ok(2)),
    Step::Len(Dev::Flash, 8),
    Step::Call(Call::Write(Dev::Flash), 0, b"flash", Ok(5)),
    Step::Call(Call::Sync(Dev::Log), 0, b"", Ok(0)),
    Step::Open(How::Bare),
    Step::Files([70_000, 8, 4_096, NONE, NONE, NONE]),
    Step::Open(How::Existing),
    Step::Len(Dev::Log, 70_000),
    Step::Len(Dev::Disk, 4_096),
    Step::Call(Call::Read(Dev::Log), 69_997, b"\0ab", Ok(3)),
    Step::Len(Dev::Flash, 8),
    Step::Call(Call::Read(Dev::Flash), 0, b"flash\0\0\0", Ok(8)),
    Step::Clear,
];

// The site over the runtime itself.
#[test]
fn files_are_made_and_found_again(rt: HostRuntime) -> Result<(), Fail> {
    let world = World::new(rt.alloc());
    let held = play_over(&rt, &world, &rt, &FOUND_AGAIN)?;
    assert!(rt; held == FOUND_AGAIN.len());
    Ok(())
}

// A folder that is named has files of its own: those of the current one stay as they are. One that isn't there has
// none.
const IN_FOLDER: &[Step] = &[
    Step::Clear,
    Step::Folder("named"),
    Step::Open(How::FreshIn("named", 10, 20, 30)),
    Step::Len(Dev::Log, 10),
    Step::Call(Call::Write(Dev::Flash), 0, b"flash", Ok(5)),
    Step::Open(How::Bare),
    Step::Files([NONE; 6]),
    Step::Open(How::Fresh(20, 20, 20)),
    Step::Forget,
    Step::Open(How::ExistingIn("named/")),
    Step::Calls(
        HELD,
        "open named/face.log;lock named/face.log;sync named/face.log;open named/face.flash;lock named/face.flash;sync \
        named/face.flash;open named/face.disk;lock named/face.disk;sync named/face.disk;open named/;sync all named/;",
    ),
    Step::Len(Dev::Disk, 30),
    Step::Call(Call::Read(Dev::Flash), 0, b"flash\0", Ok(6)),
    Step::Open(How::CheckIn("./named")),
    Step::Call(Call::Read(Dev::Flash), 0, b"flash\0", Ok(6)),
    Step::Open(How::CheckIn(".")),
    Step::Len(Dev::Disk, 20),
    Step::Call(Call::Read(Dev::Flash), 0, b"\0\0", Ok(2)),
    Step::Open(How::ExistingIn("")),
    Step::Len(Dev::Disk, 20),
    Step::Open(How::ExistingIn("nowhere")),
    Step::Len(Dev::Log, 0),
    Step::Open(How::FreshIn("nowhere", 10, 20, 30)),
    Step::Len(Dev::Log, 0),
    Step::NoFolder("named"),
    Step::Clear,
];

// A text that is too long with the longest name behind it, or has a NUL, names no folder.
#[test]
fn a_folder_has_a_path_that_can_be_opened(rt: HostRuntime) -> Result<(), Fail> {
    let mut path = String::new(rt.alloc());
    for _octet in 0..4_080 {
        path.push('a')?;
    }
    assert!(rt; Folder::new(rt.alloc(), path.as_str()).is_ok());
    path.push('a')?;
    assert!(rt; Folder::new(rt.alloc(), path.as_str()).err() == Some(NoFolder::TooLong));
    assert!(rt; Folder::new(rt.alloc(), "a\0b").err() == Some(NoFolder::HasNul));
    Ok(())
}

// Where a file that is there can't be read, no device is there: else the missing ones would read as blank and not be
// made.
const NOT_FIT: &[Step] = &[
    Step::Clear,
    Step::File("face.disk", &[0; 30]),
    Step::Fail("read", "face.disk", ErrorKind::Other, 1),
    Step::Open(How::Fresh(10, 20, 30)),
    Step::Len(Dev::Log, 0),
    Step::Len(Dev::Disk, 0),
    Step::Open(How::Bare),
    Step::Files([NONE, NONE, 30, NONE, NONE, NONE]),
    Step::Clear,
];

// The first calls wherever files are opened, and where those of a new database are.
const HELD: &str = "open /dev/null;open /dev/null;open /dev/null;";

const OPENING: &str = "open /dev/null;open /dev/null;open /dev/null;open .;lock .;";

// Each file is filled and synced under the name of a draft, and then gets its own; the folder is synced last, also
// where nothing was to be made. Who owns what is made there is seen of a file that doesn't stay.
const IN_ORDER: &[Step] = &[
    Step::Clear,
    Step::File("face.log.new", b"left by another"),
    Step::Open(How::Fresh(70_000, 20, 30)),
    Step::Calls(
        OPENING,
        "remove face.log.new;make face.log.new;lock face.log.new;fill face.log.new;fill face.log.new;sync all \
        face.log.new;remove face.flash.new;make face.flash.new;lock face.flash.new;fill face.flash.new;sync all \
        face.flash.new;remove face.disk.new;make face.disk.new;lock face.disk.new;fill face.disk.new;sync all \
        face.disk.new;link face.log.new;link face.flash.new;link face.disk.new;remove face.log.new;remove \
        face.flash.new;remove face.disk.new;sync all .;",
    ),
    Step::Open(How::Bare),
    Step::Files([70_000, 20, 30, NONE, NONE, NONE]),
    Step::File("face.disk", &[0; 30]),
    Step::Open(How::Fresh(20, 20, 30)),
    Step::Calls(
        OPENING,
        "open face.log;lock face.log;sync face.log;open face.flash;lock face.flash;sync face.flash;open face.disk;lock \
        face.disk;sync face.disk;",
    ),
    Step::Open(How::Bare),
    Step::Files([70_000, 20, 30, NONE, NONE, NONE]),
    Step::File("face.log", &[0; 20]),
    Step::Open(How::Fresh(20, 20, 30)),
    Step::Calls(
        OPENING,
        "open face.log;lock face.log;sync face.log;open face.flash;lock face.flash;sync face.flash;open face.disk;lock \
        face.disk;sync face.disk;read face.log;read face.flash;read face.disk;remove face.log.new;make \
        face.log.new;remove face.log.new;remove face.log.new;remove face.flash.new;remove face.disk.new;sync all .;",
    ),
    Step::Open(How::Bare),
    Step::Files([20, 20, 30, NONE, NONE, NONE]),
    Step::Clear,
];

// The files and the names of a folder are made stable before they are believed, where the file system has a sync of
// folders: else none of them is there.
const SETTLED: &[Step] = &[
    Step::Clear,
    Step::Open(How::Fresh(10, 20, 30)),
    Step::Fail("sync", "face.flash", ErrorKind::Other, 1),
    Step::Open(How::Existing),
    Step::Len(Dev::Log, 10),
    Step::Len(Dev::Flash, 0),
    Step::Fail("sync all", ".", ErrorKind::Other, 1),
    Step::Open(How::Existing),
    Step::Len(Dev::Log, 0),
    Step::Len(Dev::Disk, 0),
    Step::Fail("open", ".", ErrorKind::PermissionDenied, 1),
    Step::Open(How::Existing),
    Step::Len(Dev::Log, 0),
    Step::Fail("sync all", ".", ErrorKind::InvalidInput, 1),
    Step::Open(How::Existing),
    Step::Len(Dev::Log, 10),
    Step::Fail("sync all", ".", ErrorKind::Unsupported, 1),
    Step::Open(How::Existing),
    Step::Len(Dev::Log, 10),
    Step::Clear,
];

// A check asks for no write: it opens to read, beside others, and syncs where that can be.
const LOOKED_AT: &[Step] = &[
    Step::Clear,
    Step::Open(How::Fresh(10, 20, 30)),
    Step::Open(How::Bare),
    Step::Forget,
    Step::Open(How::Check),
    Step::Calls(
        HELD,
        "open face.log;share face.log;sync face.log;open face.flash;share face.flash;sync face.flash;open \
        face.disk;share face.disk;sync face.disk;",
    ),
    Step::Call(Call::Read(Dev::Log), 0, b"\0\0", Ok(2)),
    Step::Call(Call::Write(Dev::Log), 0, b"a", Err(Failed)),
    Step::Fail("sync", "face.log", ErrorKind::ReadOnlyFilesystem, 1),
    Step::Open(How::Check),
    Step::Len(Dev::Log, 10),
    Step::Fail("sync", "face.disk", ErrorKind::InvalidInput, 1),
    Step::Open(How::Check),
    Step::Len(Dev::Disk, 30),
    Step::Fail("sync", "face.flash", ErrorKind::Other, 1),
    Step::Open(How::Check),
    Step::Len(Dev::Flash, 0),
    Step::Clear,
];

// Where a file can't be made, nothing is there and nothing stays; but a file system without a sync of folders or
// without locks makes a new database all the same.
const UNMADE: &[Step] = &[
    Step::Make("make", "face.flash.new", ErrorKind::PermissionDenied, 0),
    Step::Make("fill", "face.disk.new", ErrorKind::StorageFull, 0),
    Step::Make("sync all", "face.log.new", ErrorKind::Other, 0),
    Step::Make("link", "face.flash.new", ErrorKind::Other, 0),
    Step::Make("link", "face.disk.new", ErrorKind::AlreadyExists, 0),
    Step::Make("link", "face.flash.new", ErrorKind::PermissionDenied, 10),
    Step::Make("link", "face.disk.new", ErrorKind::Unsupported, 10),
    Step::Make("sync all", ".", ErrorKind::Other, 0),
    Step::Make("open", ".", ErrorKind::PermissionDenied, 0),
    Step::Make("open", "/dev/null", ErrorKind::NotFound, 10),
    Step::Make("sync all", ".", ErrorKind::InvalidInput, 10),
    Step::Make("sync all", ".", ErrorKind::Unsupported, 10),
    Step::Make("lock", ".", ErrorKind::Unsupported, 10),
    Step::Make("lock", "face.log.new", ErrorKind::Unsupported, 10),
    Step::Make("remove", "face.disk.new", ErrorKind::PermissionDenied, 10),
    Step::Make("fill", "face.log.new", ErrorKind::Interrupted, 10),
    Step::Clear,
];

// The calls on the file of each device, one device after the other.
macro_rules! calls_on {
    ($($dev:expr, $path:literal, $calls:literal;)+) => {
        &[
            Step::Clear,
            Step::Open(How::Fresh(10, 20, 30)),
            Step::Open(How::Existing),
            $(
                Step::Forget,
                Step::Call(Call::Write($dev), 6, b"ab", Ok(2)),
                Step::Call(Call::Sync($dev), 0, b"", Ok(0)),
                Step::Call(Call::Read($dev), 5, b"\0ab", Ok(3)),
                Step::Calls("", $calls),
                Step::Fail("write", $path, ErrorKind::StorageFull, 1),
                Step::Call(Call::Write($dev), 6, b"cd", Err(Failed)),
                Step::Fail("sync", $path, ErrorKind::Other, 1),
                Step::Call(Call::Sync($dev), 0, b"", Err(Failed)),
                Step::Fail("read", $path, ErrorKind::Other, 1),
                Step::Call(Call::Read($dev), 5, b"\0ab", Err(Failed)),
                Step::Fail("write", $path, ErrorKind::Interrupted, 2),
                Step::Call(Call::Write($dev), 6, b"ab", Ok(2)),
                Step::Call(Call::Read($dev), 5, b"\0ab", Ok(3)),
                Step::Fail("read", $path, ErrorKind::Interrupted, 2),
                Step::Call(Call::Write($dev), 6, b"ab", Ok(2)),
                Step::Call(Call::Read($dev), 5, b"\0ab", Ok(3)),
            )+
            Step::Clear,
        ]
    };
}

// Each call is made on the file of its device and at its place, and fails where that does.
const OWN_FILE: &[Step] = calls_on! {
    Dev::Log, "face.log", "write face.log;sync face.log;read face.log;";
    Dev::Flash, "face.flash", "write face.flash;sync face.flash;read face.flash;";
    Dev::Disk, "face.disk", "write face.disk;sync face.disk;read face.disk;";
};

// What an output takes is what is counted; one that isn't ready is tried again behind a pause, and one that fails is a
// fault.
const COUNTED: &[Step] = &[
    Step::Call(Call::Tell, 0, b"one", Ok(3)),
    Step::AtMost(2),
    Step::Call(Call::Tell, 0, b"two", Ok(2)),
    Step::AtMost(0),
    Step::Call(Call::Tell, 0, b"three", Err(Failed)),
    Step::AtMost(4),
    Step::Fail("tell", "", ErrorKind::Interrupted, 3),
    Step::Call(Call::Tell, 0, b"four", Ok(4)),
    Step::Slept(0),
    Step::Fail("tell", "", ErrorKind::WouldBlock, 70_000),
    Step::Call(Call::Tell, 0, b"fives", Ok(4)),
    Step::Slept(70_000),
    Step::Fail("tell", "", ErrorKind::BrokenPipe, 1),
    Step::Call(Call::Tell, 0, b"six", Err(Failed)),
    Step::Told(b"onetwfourfive"),
    Step::AtMost(3),
    Step::Fail("tell", "", ErrorKind::WouldBlock, 2),
    Step::Line(b"a whole line", true),
    Step::Told(b"a whole line"),
    Step::Fail("tell", "", ErrorKind::BrokenPipe, 1),
    Step::Line(b"a line", false),
];

// What each take gives where the third one fails.
const COUNTS: [Option<usize>; 13] = [
    Some(3),
    Some(1),
    None,
    Some(3),
    Some(1),
    Some(3),
    Some(1),
    Some(3),
    Some(1),
    Some(3),
    Some(1),
    Some(2),
    Some(0),
];

const INPUT: &[u8] = b"the octets of an input";

// Takes three octets and keeps those that are given; answers how many, where the take doesn't fail.
fn take_three(
    intake: &mut Intake<FakeReader<'_>>,
    fake: &Fake<'_>,
    taken: &mut Vec<u8>,
) -> Result<Option<usize>, AllocError> {
    let mut three = [0; 3];
    match intake.take(fake, &mut three) {
        Ok(count) => {
            taken.extend_from_slice(&three[..count])?;
            Ok(Some(count))
        }
        Err(_) => Ok(None),
    }
}

// Whether all of the input is taken, three octets at once, where the third take fails so many times. A fault that
// passes
// has no take of its own.
fn is_all_taken(
    alloc: Global,
    fake: &Fake<'_>,
    kind: ErrorKind,
    times: u32,
    passes: bool,
) -> Result<bool, Fail> {
    fake.world.feed(INPUT);
    let mut intake = Intake::new(FakeReader::new(fake.world), vec![in alloc; 0u8; 4]?);
    let mut taken = Vec::new(alloc);
    for (turn, count) in COUNTS.iter().enumerate() {
        if turn == 2 {
            fake.world.fail("take", "", kind, times);
            if passes {
                continue;
            }
        }
        if take_three(&mut intake, fake, &mut taken)? != *count {
            return Ok(false);
        }
    }
    Ok(taken.as_slice() == INPUT)
}

// An error, how often it comes, whether it passes, and the pauses then.
const FAULTS: [(ErrorKind, u32, bool, u64); 3] = [
    (ErrorKind::Interrupted, 3, true, 0),
    (ErrorKind::WouldBlock, 70_000, true, 70_000),
    (ErrorKind::Other, 1, false, 0),
];

const BY_SITE: &[Step] = &[
    Step::Feed(b"input"),
    Step::Open(How::Bare),
    Step::Call(Call::Take, 0, b"input", Ok(5)),
    Step::Call(Call::Take, 0, b"", Ok(0)),
];

// All of the input is taken in its order, through a buffer of any size, and only its end is 0. A take that fails moves
// nothing.
#[test]
fn all_input_is_taken(rt: HostRuntime) -> Result<(), Fail> {
    for (kind, times, passes, pauses) in FAULTS {
        let world = World::new(rt.alloc());
        let fake = Fake {
            rt: &rt,
            world: &world,
        };
        let all = is_all_taken(rt.alloc(), &fake, kind, times, passes)?;
        assert!(rt; all && world.slept() == pauses, "{times} times");
    }
    Ok(())
}

// Calls that fail twice, each of a new site, by name, file and kind: the first time for want of room.
macro_rules! failures {
    ($($call:literal, $path:literal, $failed:expr;)+) => {
        &[
            Step::Clear,
            Step::Open(How::Fresh(10, 20, 30)),
            $(
                Step::Open(How::Existing),
                Step::Sound,
                Step::Fail($call, $path, ErrorKind::StorageFull, 1),
                Step::Fails($failed),
                Step::Fail($call, $path, ErrorKind::BrokenPipe, 1),
                Step::Fails($failed),
                Step::First($failed, ErrorKind::StorageFull),
            )+
            Step::Clear,
        ]
    };
}

// The write that fails is the last, since each read is to find what was written.
// The first call that failed is kept with its error, whatever fails behind it.
const FIRST: &[Step] = failures! {
    "sync", "face.flash", Call::Sync(Dev::Flash);
    "read", "face.log", Call::Read(Dev::Log);
    "tell", "", Call::Tell;
    "write", "face.disk", Call::Write(Dev::Disk);
};

// What takes long is said on standard error, and what can't be said is not.
const LARGE: &[Step] = &[
    Step::Clear,
    Step::Pass(125),
    Step::Open(How::Fresh(2_097_152, 20, 30)),
    Step::Len(Dev::Log, 2_097_152),
    Step::Len(Dev::Disk, 30),
    Step::Said(
        "face.log.new: 1 of 2 MiB are written\nface.log.new: 2 of 2 MiB are written, and being synced\n",
    ),
    Step::Open(How::Bare),
    Step::Clear,
    Step::Fail("say", "", ErrorKind::BrokenPipe, 100),
    Step::Open(How::Fresh(2_097_152, 20, 30)),
    Step::Len(Dev::Log, 2_097_152),
    Step::Len(Dev::Disk, 30),
    Step::Said(""),
    Step::Open(How::Bare),
    Step::Clear,
    Step::Fail("", "", ErrorKind::BrokenPipe, 100),
    Step::Pass(50),
    Step::Open(How::Fresh(2_097_152, 20, 30)),
    Step::Len(Dev::Log, 2_097_152),
    Step::Len(Dev::Disk, 30),
    Step::Said(""),
    Step::Clear,
];

// Where a check of the files takes long, it is said how much of them is read.
const LONG_CHECK: &[Step] = &[
    Step::Clear,
    Step::Open(How::Fresh(10, 20, 30)),
    Step::Pass(1_500),
    Step::Open(How::Check),
    Step::Call(Call::Read(Dev::Log), 0, b"\0\0\0", Ok(3)),
    Step::Said(""),
    Step::Call(Call::Read(Dev::Disk), 0, b"\0\0\0", Ok(3)),
    Step::Said("check: 0 MiB are read; the files have 1 MiB, of which parts are read again\n"),
    Step::Clear,
];

// An input and the first line that ends with a carriage return.
const RETURNED: [(&[u8], Option<u64>); 6] = [
    (b"", None),
    (b"get 5\nget 6\n", None),
    (b"get 5\nget\r6\n\nget 7\r\nget 8\r\n", Some(4)),
    (b"\r\n", Some(1)),
    (b"get 5\nget 6\r", Some(2)),
    (b"\n\r", Some(2)),
];

const REPLIES: &[u8] =
    b"open 0\nrefused line\nvalue 0a\nitem 2 refused \nrefused session\nrefused\nrefused long\n";

// What is told, and the rule that has been said to fail then.
const RULES: [(&[u8], Option<u8>); 3] = [
    (b"sound S2\nunsou", None),
    (b"nd S1", Some(1)),
    (b"1\n", Some(11)),
];

// Lets input or replies pass in pieces of this size.
fn pass(watch: &mut Watch, text: &[u8], size: usize, told: bool) {
    for piece in text.chunks(size.max(1)) {
        if told {
            watch.tells(piece);
        } else {
            watch.hears(piece);
        }
    }
}

// However the input and the replies are cut, the first line that ends with a carriage return, the refusals and the rule
// that fails are noticed.
#[test]
fn carriage_returns_and_refusals_are_noticed(rt: HostRuntime) {
    for size in [1, 2, 3, 100] {
        for (input, line) in RETURNED {
            let mut watch = Watch::new();
            pass(&mut watch, input, size, false);
            pass(&mut watch, REPLIES, size, true);
            assert!(rt;
                watch.returned() == line && watch.refused() == 3,
                "{size} at once"
            );
        }
    }
    let mut watch = Watch::new();
    for (told, rule) in RULES {
        watch.tells(told);
        assert!(rt; watch.rule() == rule);
    }
}

// The tests by their names.
const TESTS: [(&str, &[Step]); 12] = [
    ("all_input_is_taken", BY_SITE),
    ("a_folder_that_is_named_is_opened", IN_FOLDER),
    ("a_file_that_cannot_be_read_is_not_fit", NOT_FIT),
    ("a_new_database_is_made_in_this_order", IN_ORDER),
    ("names_are_made_stable_at_the_opening", SETTLED),
    ("a_check_asks_for_no_write", LOOKED_AT),
    ("what_cannot_be_made_is_removed", UNMADE),
    ("each_call_is_made_on_its_own_file", OWN_FILE),
    ("what_is_told_is_counted", COUNTED),
    ("the_first_failure_is_kept", FIRST),
    ("making_large_files_is_told_of", LARGE),
    ("a_long_check_is_told_of", LONG_CHECK),
];

#[test]
fn steps_hold(rt: HostRuntime) -> Result<(), Fail> {
    for (name, rows) in TESTS {
        let held = play(&rt, rows)?;
        assert!(rt; held == rows.len(), "{name}: row {held}");
    }
    Ok(())
}
