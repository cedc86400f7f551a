// The program around the top call, over files of the current folder and standard streams that are kept.
use host::{run, stopped};
use notices::{Number, Wrong, find_wrong};
use site::Stop;
use std::alloc::{Alloc, AllocError, Allocator, Global};
use std::cell::{Cell, RefCell};
use std::env::FillError;
use std::fmt::Display;
use std::fs;
use std::fs::{File, Files, Metadata, OpenOptions};
use std::io::{self, BufRead, Eprint, ErrorKind, Input, Lines, Print};
use std::rt::{Clock, Env};
use std::test::Fail;
use std::time::Duration;

// A runtime with these words and this input. It counts the calls that look for a file of a database or open one, and
// keeps what is told, of which it takes a few octets at once; before each it isn't ready once.
#[derive(Drop)]
struct Caller<'a> {
    rt: &'a HostRuntime,
    words: &'a [&'a [u8]],
    input: &'static [u8],
    calls: Cell<u64>,
    told: RefCell<Vec<u8>>,
    said: RefCell<String>,
    mute: Cell<bool>,
    ready: Cell<bool>,
}

fn make_caller<'a>(rt: &'a HostRuntime, words: &'a [&'a [u8]], input: &'static [u8]) -> Caller<'a> {
    Caller {
        rt,
        words,
        input,
        calls: Cell::new(0),
        told: RefCell::new(Vec::new(rt.alloc())),
        said: RefCell::new(String::new(rt.alloc())),
        mute: Cell::new(false),
        ready: Cell::new(false),
    }
}

impl<'a> Caller<'a> {
    fn note(&self, path: &str) {
        if path.starts_with("face.") {
            self.calls.set(self.calls.get().saturating_add(1));
        }
    }

    fn told(&self) -> Vec<u8> {
        match self.told.try_replace(Vec::new(self.rt.alloc())) {
            Ok(told) => told,
            Err(_) => Vec::new(self.rt.alloc()),
        }
    }

    fn said(&self) -> String {
        match self.said.try_replace(String::new(self.rt.alloc())) {
            Ok(said) => said,
            Err(_) => String::new(self.rt.alloc()),
        }
    }
}

impl<'a> Alloc for Caller<'a> {
    type A = Global;

    fn alloc(&self) -> Global {
        self.rt.alloc()
    }
}

impl<'a> Env for Caller<'a> {
    fn arg(&self, i: usize, buf: &mut [u8]) -> Result<usize, FillError> {
        match self.words.get(i) {
            Some(word) if word.len() > buf.len() => Err(FillError::TooLong),
            Some(word) => {
                buf[..word.len()].copy_from_slice(word);
                Ok(word.len())
            }
            None => Err(FillError::NotPresent),
        }
    }

    fn var(&self, _name: &str, _buf: &mut [u8]) -> Result<usize, FillError> {
        Err(FillError::NotPresent)
    }

    fn var_at(&self, _i: usize, _buf: &mut [u8]) -> Result<usize, FillError> {
        Err(FillError::NotPresent)
    }
}

impl<'a> Files for Caller<'a> {
    type File = File;

    type Dir = File;

    fn open_file(&self, how: &OpenOptions, path: &str) -> io::Result<File> {
        self.note(path);
        self.rt.open_file(how, path)
    }

    fn open_dir(&self, _path: &str) -> io::Result<File> {
        Err(io::Error::from(ErrorKind::Unsupported))
    }

    fn metadata(&self, path: &str) -> io::Result<Metadata> {
        self.note(path);
        self.rt.metadata(path)
    }

    fn symlink_metadata(&self, path: &str) -> io::Result<Metadata> {
        self.rt.symlink_metadata(path)
    }

    fn copy(&self, from: &str, to: &str) -> io::Result<u64> {
        self.rt.copy(from, to)
    }

    fn rename(&self, from: &str, to: &str) -> io::Result<()> {
        self.rt.rename(from, to)
    }

    fn remove_file(&self, path: &str) -> io::Result<()> {
        self.rt.remove_file(path)
    }

    fn create_dir(&self, path: &str) -> io::Result<()> {
        self.rt.create_dir(path)
    }

    fn remove_dir(&self, path: &str) -> io::Result<()> {
        self.rt.remove_dir(path)
    }

    fn remove_dir_all<B: Allocator>(&self, alloc: B, path: &str) -> io::Result<()> {
        self.rt.remove_dir_all(alloc, path)
    }
}

impl<'a> Input for Caller<'a> {
    type Reader = &'static [u8];

    fn read_line<A: Allocator + Clone>(&self, _buf: &mut String<A>) -> io::Result<usize> {
        Err(io::Error::from(ErrorKind::Unsupported))
    }

    fn lines<A: Allocator>(&self, alloc: A) -> Lines<&'static [u8], A> {
        self.input.lines(alloc)
    }

    fn reader(&self) -> &'static [u8] {
        self.input
    }
}

impl<'a> Clock for Caller<'a> {
    fn monotonic(&self) -> io::Result<Duration> {
        Ok(Duration::from_millis(0))
    }

    fn since_1970(&self) -> io::Result<Duration> {
        Ok(Duration::from_millis(0))
    }

    fn sleep(&self, _duration: Duration) {
        self.ready.set(true);
    }
}

impl<'a> Print for Caller<'a> {
    fn print<D: Display + Drop>(&self, _value: D) -> io::Result<()> {
        Err(io::Error::from(ErrorKind::Unsupported))
    }

    fn println<D: Display + Drop>(&self, _value: D) -> io::Result<()> {
        Err(io::Error::from(ErrorKind::Unsupported))
    }

    fn write_all(&self, _bytes: &[u8]) -> io::Result<()> {
        Err(io::Error::from(ErrorKind::Unsupported))
    }

    fn write_some(&self, bytes: &[u8]) -> io::Result<usize> {
        if !self.ready.replace(false) {
            return Err(io::Error::from(ErrorKind::WouldBlock));
        }
        let count = bytes.len().min(3);
        if let Ok(mut told) = self.told.try_borrow_mut() {
            told.extend_from_slice(&bytes[..count])?;
        }
        Ok(count)
    }
}

impl<'a> Eprint for Caller<'a> {
    fn eprint<D: Display + Drop>(&self, value: D) -> io::Result<()> {
        if self.mute.get() {
            return Err(io::Error::from(ErrorKind::BrokenPipe));
        }
        if let Ok(mut said) = self.said.try_borrow_mut() {
            write!(said, "{value}")?;
        }
        Ok(())
    }

    fn eprintln<D: Display + Drop>(&self, value: D) -> io::Result<()> {
        self.eprint(value)?;
        self.eprint("\n")
    }
}

const PATHS: [&str; 3] = ["face.log", "face.flash", "face.disk"];

fn remove_all(rt: &HostRuntime) {
    for path in PATHS {
        let _ = fs::remove_file(rt, path);
    }
}

// A call of the program: the words and the input, the status and the text, and so many calls on files.
type Row = (
    &'static [&'static [u8]],
    &'static [u8],
    u8,
    &'static [u8],
    u64,
);

const CALLS: [Row; 20] = [
    (&[b"face", b"run", b"1"], b"", 9, b"fault foreign\n", 3),
    (&[b"face", b"check"], b"", 11, b"unsound S1\n", 3),
    (
        &[b"face", b"new", b"16", b"8", b"64"],
        b"",
        0,
        b"ready 16 8 64\n",
        6,
    ),
    (
        &[b"face", b"new", b"16", b"8", b"64"],
        b"",
        0,
        b"ready 16 8 64\n",
        7,
    ),
    (&[b"face"], b"", 2, b"fault words\n", 0),
    (&[], b"", 2, b"fault words\n", 0),
    (&[b"face", b"run", b"0"], b"get 5\n", 2, b"fault words\n", 0),
    (&[b"face", b"run", b"\xff"], b"", 2, b"fault words\n", 0),
    (
        &[b"face", b"new", b"16", b"8", b"15"],
        b"",
        2,
        b"fault words\n",
        0,
    ),
    (&[b"face", b"--help"], b"", 2, b"fault words\n", 0),
    (
        &[b"face", b"run", b"1"],
        b"set 5 0a\nget 5\n",
        0,
        b"open 0\ncommitted 1\nvalue 0a\n",
        6,
    ),
    (
        &[b"face", b"check"],
        b"",
        0,
        b"sound records 1 commits 1\n",
        6,
    ),
    (&[b"face", b"archive", b"1"], b"", 0, b"end 1\n", 6),
    (&[b"face", b"archive", b"2"], b"", 12, b"ahead 1\n", 6),
    (&[b"face", b"archive", b"01"], b"", 2, b"fault words\n", 0),
    (
        &[b"face", b"verify", b"16"],
        b"end 0\n",
        0,
        b"verified 0\n",
        0,
    ),
    (
        &[b"face", b"verify", b"16"],
        b"end 1\n",
        13,
        b"fault stream 1\n",
        0,
    ),
    (
        &[b"face", b"load", b"2", b"7", b"1"],
        b"",
        0,
        b"open 1\nload 2 committed 2 checkpoints 0 found 2\n",
        6,
    ),
    (
        &[b"face", b"new", b"16", b"8", b"65"],
        b"",
        9,
        b"fault foreign\n",
        6,
    ),
    (
        &[b"face", b"trial", b"16", b"8", b"64", b"1"],
        b"set 5 0a\nstop 12 0\nget 5\n",
        0,
        b"open 0\ncommitted 1\nlife 1 status 0\nopen 1\nvalue 0a\nlife 2 status 0\n",
        0,
    ),
];

// Whether a call is as the row says.
fn is_as(rt: &HostRuntime, row: Row) -> bool {
    let (words, input, status, told, calls) = row;
    let caller = make_caller(rt, words, input);
    caller.mute.set(calls == 3);
    if run(&caller) != status || caller.told().as_slice() != told {
        return false;
    }
    caller.calls.get() == calls && caller.said().is_empty() == (status == 0 || calls == 3)
}

// Each list of words has its status, its text, and so many calls on files: each of the three is looked for and then
// opened, and for a new database the drafts of those that are missing are, or one that shows whose files are made.
#[test]
fn words_open_their_files(rt: HostRuntime) {
    remove_all(&rt);
    for (place, row) in CALLS.iter().enumerate() {
        assert!(rt; is_as(&rt, *row), "row {place}");
    }
    remove_all(&rt);
}

// Where memory is wanted before there is a site, the line is told whole and the status is 4.
#[test]
fn a_stop_has_its_line_and_its_status(rt: HostRuntime) -> Result<(), Fail> {
    let caller = make_caller(&rt, &[], b"");
    assert!(rt; stopped(&caller, Stop::Memory) == 4);
    assert!(rt; caller.told().as_slice() == b"fault memory\n".as_slice());
    Ok(())
}

// The words, without the program's own name, and what is wrong with them.
const WRONG: [(&str, Option<Wrong>); 44] = [
    ("new 1 8 16", None),
    ("new 65536 16384 1048576", None),
    ("run 1", None),
    ("run 4096", None),
    ("load 1 0 1", None),
    ("load 100000 18446744073709551615 4096", None),
    ("new 0 8 16", Some(Wrong::Unfit(2, Number::Pages))),
    ("new 65537 8 16", Some(Wrong::Unfit(2, Number::Pages))),
    ("new 1 4 16", Some(Wrong::Unfit(3, Number::Groups))),
    ("new 1 9 16", Some(Wrong::Unfit(3, Number::Groups))),
    ("new 1 16388 16", Some(Wrong::Unfit(3, Number::Groups))),
    ("new 1 8 15", Some(Wrong::Unfit(4, Number::Blocks))),
    ("new 1 8 1048577", Some(Wrong::Unfit(4, Number::Blocks))),
    ("new 1 8", Some(Wrong::Lacks(Number::Blocks))),
    ("new", Some(Wrong::Lacks(Number::Pages))),
    ("run 0", Some(Wrong::Unfit(2, Number::Pool))),
    ("run 4097", Some(Wrong::Unfit(2, Number::Pool))),
    ("run -- 1", Some(Wrong::Unfit(2, Number::Pool))),
    ("run 01 2 3", Some(Wrong::Unfit(2, Number::Pool))),
    ("run 1 2 3", Some(Wrong::TooMany(3))),
    ("load 100001 0 1", Some(Wrong::Unfit(2, Number::Count))),
    (
        "load 1 18446744073709551616 1",
        Some(Wrong::Unfit(3, Number::Seed)),
    ),
    ("load 1 1", Some(Wrong::Lacks(Number::Pool))),
    (
        "trial 1025 8 16 1",
        Some(Wrong::Unfit(2, Number::TrialPages)),
    ),
    (
        "trial 1 260 16 1",
        Some(Wrong::Unfit(3, Number::TrialGroups)),
    ),
    (
        "trial 1 8 4097 1",
        Some(Wrong::Unfit(4, Number::TrialBlocks)),
    ),
    ("trial 1 8 16", Some(Wrong::Lacks(Number::Pool))),
    ("simulate 16384 4096", None),
    ("simulate 10 1", Some(Wrong::Unfit(2, Number::Groups))),
    ("simulate 8", Some(Wrong::Lacks(Number::Pool))),
    ("check", None),
    ("check x", Some(Wrong::TooMany(2))),
    ("archive 18446744073709551615", None),
    (
        "archive 18446744073709551616",
        Some(Wrong::Unfit(2, Number::From)),
    ),
    ("archive", Some(Wrong::Lacks(Number::From))),
    ("archive 0 1", Some(Wrong::TooMany(3))),
    ("verify 65536", None),
    ("verify 65537", Some(Wrong::Unfit(2, Number::Pages))),
    ("verify", Some(Wrong::Lacks(Number::Pages))),
    ("restore 18446744073709551615 4096", None),
    ("restore x 1", Some(Wrong::Unfit(2, Number::Commits))),
    ("restore 1 0", Some(Wrong::Unfit(3, Number::Pool))),
    ("restore 1", Some(Wrong::Lacks(Number::Pool))),
    ("RUN 1", Some(Wrong::Unknown)),
];

// What is wrong with the words of a line.
fn wrong_in(alloc: Global, line: &str) -> Result<Option<Wrong>, AllocError> {
    let mut words: Vec<String> = Vec::new(alloc);
    for word in line.split(' ') {
        words.push(String::from_str(alloc, word)?)?;
    }
    Ok(find_wrong(words.as_slice()))
}

#[test]
fn the_first_wrong_word_is_found(rt: HostRuntime) -> Result<(), Fail> {
    for (line, wrong) in WRONG {
        assert!(rt; wrong_in(rt.alloc(), line)? == wrong, "{line}");
    }
    assert!(rt; find_wrong(&[]) == Some(Wrong::Nothing));
    Ok(())
}
