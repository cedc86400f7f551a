// A runtime for tests: files of the current folder under a record of the calls, of which one may be told to fail; an
// input of given octets, and an output that keeps what it took.

use file_site::LockFile;
use std::alloc::{AllocError, Allocator, Global};
use std::cell::{Cell, RefCell};
use std::fmt::Display;
use std::fs::{File, Files, Metadata, OpenFile, OpenOptions, Permissions, TryLockError};
use std::io::{self, BufRead, Eprint, ErrorKind, Input, Lines, Print, Read, Seek, SeekFrom, Write};
use std::os::unix::fs::FileExt;
use std::rt::Clock;
use std::time::Duration;

/// A call on a file that is to fail, so many times, with an error of this kind.
#[derive(Clone, Copy)]
struct Fault {
    call: &'static str,
    path: &'static str,
    kind: ErrorKind,
    times: u32,
}

/// What the fakes share.
#[derive(Drop)]
pub struct World {
    calls: RefCell<String>,
    fault: Cell<Option<Fault>>,
    told: RefCell<Vec<u8>>,
    said: RefCell<String>,
    passed: Cell<u64>,
    at_once: Cell<usize>,
    input: Cell<&'static [u8]>,
    slept: Cell<u64>,
}

impl World {
    pub fn new(alloc: Global) -> World {
        World {
            calls: RefCell::new(String::new(alloc)),
            fault: Cell::new(None),
            told: RefCell::new(Vec::new(alloc)),
            said: RefCell::new(String::new(alloc)),
            passed: Cell::new(0),
            at_once: Cell::new(usize::MAX),
            input: Cell::new(b""),
            slept: Cell::new(0),
        }
    }

    /// Lets this call on this file fail, so many times; "tell" and "take" are calls on no file.
    pub fn fail(&self, call: &'static str, path: &'static str, kind: ErrorKind, times: u32) {
        self.fault.set(Some(Fault {
            call,
            path,
            kind,
            times,
        }));
    }

    /// Lets the output take no more than so many octets at once.
    pub fn tell_at_most(&self, count: usize) {
        self.at_once.set(count);
    }

    pub fn feed(&self, input: &'static [u8]) {
        self.input.set(input);
    }

    /// The pauses that were made.
    pub fn slept(&self) -> u64 {
        self.slept.get()
    }

    /// The calls that were made since this was last asked, each as its name, the file's and a semicolon.
    pub fn calls(&self, alloc: Global) -> String {
        match self.calls.try_replace(String::new(alloc)) {
            Ok(calls) => calls,
            Err(_) => String::new(alloc),
        }
    }

    pub fn told(&self, alloc: Global) -> Vec<u8> {
        match self.told.try_replace(Vec::new(alloc)) {
            Ok(told) => told,
            Err(_) => Vec::new(alloc),
        }
    }

    /// What was said on standard error since this was last asked.
    pub fn said(&self, alloc: Global) -> String {
        match self.said.try_replace(String::new(alloc)) {
            Ok(said) => said,
            Err(_) => String::new(alloc),
        }
    }

    /// Lets so many milliseconds pass at each look at the clock.
    pub fn let_pass(&self, millis: u64) {
        self.passed.set(millis);
    }

    fn write_down(&self, call: &str, path: &str) -> Result<(), AllocError> {
        if let Ok(mut calls) = self.calls.try_borrow_mut() {
            calls.push_str(call)?;
            calls.push_str(" ")?;
            calls.push_str(path)?;
            calls.push_str(";")?;
        }
        Ok(())
    }

    // Fails where the call is told to.
    fn pass(&self, call: &str, path: &str) -> io::Result<()> {
        let Some(fault) = self.fault.get() else {
            return Ok(());
        };
        if fault.times == 0 || fault.call != call || fault.path != path {
            return Ok(());
        }
        self.fault.set(Some(Fault {
            times: fault.times - 1,
            ..fault
        }));
        Err(io::Error::from(fault.kind))
    }

    // Notes the call, and fails where it is told to.
    fn note(&self, call: &str, path: &str) -> io::Result<()> {
        if self.write_down(call, path).is_err() {
            return Err(io::Error::from(ErrorKind::OutOfMemory));
        }
        self.pass(call, path)
    }

    fn keep(&self, bytes: &[u8]) -> Result<(), AllocError> {
        if let Ok(mut told) = self.told.try_borrow_mut() {
            told.extend_from_slice(bytes)?;
        }
        Ok(())
    }
}

/// A file of the current folder.
#[derive(Drop)]
pub struct FakeFile<'a> {
    world: &'a World,
    name: String,
    file: File,
}

/// The runtime: one over the same world is another program.
#[derive(Clone, Copy)]
pub struct Fake<'a> {
    pub rt: &'a HostRuntime,
    pub world: &'a World,
}

impl<'a> Files for Fake<'a> {
    type File = FakeFile<'a>;

    type Dir = File;

    fn open_file(&self, how: &OpenOptions, path: &str) -> io::Result<FakeFile<'a>> {
        let call = if how.asks_create_new() {
            "make"
        } else {
            "open"
        };
        self.world.note(call, path)?;
        Ok(FakeFile {
            world: self.world,
            name: String::from_str(self.rt.alloc(), path)?,
            file: self.rt.open_file(how, path)?,
        })
    }

    fn open_dir(&self, _path: &str) -> io::Result<File> {
        Err(io::Error::from(ErrorKind::Unsupported))
    }

    fn metadata(&self, path: &str) -> io::Result<Metadata> {
        self.rt.metadata(path)
    }

    fn symlink_metadata(&self, path: &str) -> io::Result<Metadata> {
        self.rt.symlink_metadata(path)
    }

    fn copy(&self, from: &str, to: &str) -> io::Result<u64> {
        self.rt.copy(from, to)
    }

    fn rename(&self, from: &str, to: &str) -> io::Result<()> {
        self.world.note("rename", from)?;
        self.rt.rename(from, to)
    }

    fn hard_link(&self, original: &str, link: &str) -> io::Result<()> {
        self.world.note("link", original)?;
        self.rt.hard_link(original, link)
    }

    fn remove_file(&self, path: &str) -> io::Result<()> {
        self.world.note("remove", path)?;
        self.rt.remove_file(path)
    }

    fn create_dir(&self, path: &str) -> io::Result<()> {
        self.rt.create_dir(path)
    }

    fn remove_dir(&self, path: &str) -> io::Result<()> {
        self.rt.remove_dir(path)
    }

    fn remove_dir_all<B: Allocator>(&self, alloc: B, path: &str) -> io::Result<()> {
        self.rt.remove_dir_all(alloc, path)
    }
}

impl<'a> OpenFile for FakeFile<'a> {
    fn metadata(&self) -> io::Result<Metadata> {
        self.file.metadata()
    }

    fn set_len(&self, size: u64) -> io::Result<()> {
        self.file.set_len(size)
    }

    fn sync_all(&self) -> io::Result<()> {
        self.world.note("sync all", self.name.as_str())
    }

    fn sync_data(&self) -> io::Result<()> {
        self.world.note("sync", self.name.as_str())
    }

    fn set_permissions(&self, perm: Permissions) -> io::Result<()> {
        self.world.note("permit", self.name.as_str())?;
        self.file.set_permissions(perm)
    }
}

impl<'a> LockFile for FakeFile<'a> {
    fn try_lock(&self) -> Result<(), TryLockError> {
        match self.world.note("lock", self.name.as_str()) {
            Ok(()) => self.file.try_lock(),
            Err(error) => Err(TryLockError::Error(error)),
        }
    }

    fn try_lock_shared(&self) -> Result<(), TryLockError> {
        match self.world.note("share", self.name.as_str()) {
            Ok(()) => self.file.try_lock_shared(),
            Err(error) => Err(TryLockError::Error(error)),
        }
    }
}

impl<'a> Read for FakeFile<'a> {
    fn read(&mut self, buf: &mut [u8]) -> io::Result<usize> {
        self.file.read(buf)
    }
}

impl<'a> Write for FakeFile<'a> {
    fn write(&mut self, buf: &[u8]) -> io::Result<usize> {
        self.world.note("fill", self.name.as_str())?;
        self.file.write(buf)
    }

    fn flush(&mut self) -> io::Result<()> {
        Ok(())
    }
}

impl<'a> Seek for FakeFile<'a> {
    fn seek(&mut self, to: SeekFrom) -> io::Result<u64> {
        self.file.seek(to)
    }
}

impl<'a> FileExt for FakeFile<'a> {
    fn read_at(&self, buf: &mut [u8], offset: u64) -> io::Result<usize> {
        self.world.note("read", self.name.as_str())?;
        self.file.read_at(buf, offset)
    }

    fn write_at(&self, buf: &[u8], offset: u64) -> io::Result<usize> {
        self.world.note("write", self.name.as_str())?;
        self.file.write_at(buf, offset)
    }
}

impl<'a> Clock for Fake<'a> {
    fn monotonic(&self) -> io::Result<Duration> {
        let now = self
            .world
            .slept
            .get()
            .saturating_add(self.world.passed.get());
        self.world.slept.set(now);
        Ok(Duration::from_millis(now))
    }

    fn since_1970(&self) -> io::Result<Duration> {
        Ok(Duration::from_millis(self.world.slept.get()))
    }

    fn sleep(&self, _duration: Duration) {
        self.world
            .slept
            .set(self.world.slept.get().saturating_add(1));
    }
}

impl<'a> Print for Fake<'a> {
    fn print<D: Display + Drop>(&self, _value: D) -> io::Result<()> {
        Err(io::Error::from(ErrorKind::Unsupported))
    }

    fn println<D: Display + Drop>(&self, _value: D) -> io::Result<()> {
        Err(io::Error::from(ErrorKind::Unsupported))
    }

    fn write_all(&self, bytes: &[u8]) -> io::Result<()> {
        self.world.pass("tell", "")?;
        self.world.keep(bytes)?;
        Ok(())
    }

    fn write_some(&self, bytes: &[u8]) -> io::Result<usize> {
        self.world.pass("tell", "")?;
        let count = bytes.len().min(self.world.at_once.get());
        self.world.keep(&bytes[..count])?;
        Ok(count)
    }
}

impl<'a> Eprint for Fake<'a> {
    fn eprint<D: Display + Drop>(&self, value: D) -> io::Result<()> {
        self.world.pass("say", "")?;
        if let Ok(mut said) = self.world.said.try_borrow_mut() {
            write!(said, "{value}")?;
        }
        Ok(())
    }

    fn eprintln<D: Display + Drop>(&self, value: D) -> io::Result<()> {
        self.eprint(value)?;
        self.eprint("\n")
    }
}

/// The input of a world, which gives at most five octets at once.
#[derive(Drop)]
pub struct FakeReader<'a> {
    world: &'a World,
}

impl<'a> FakeReader<'a> {
    pub fn new(world: &'a World) -> FakeReader<'a> {
        FakeReader { world }
    }
}

impl<'a> Read for FakeReader<'a> {
    fn read(&mut self, buf: &mut [u8]) -> io::Result<usize> {
        self.world.pass("take", "")?;
        let left = self.world.input.get();
        let count = buf.len().min(left.len()).min(5);
        buf[..count].copy_from_slice(&left[..count]);
        self.world.input.set(&left[count..]);
        Ok(count)
    }
}

impl<'a> Input for Fake<'a> {
    type Reader = &'static [u8];

    fn read_line<A: Allocator + Clone>(&self, _buf: &mut String<A>) -> io::Result<usize> {
        Err(io::Error::from(ErrorKind::Unsupported))
    }

    fn lines<A: Allocator>(&self, alloc: A) -> Lines<&'static [u8], A> {
        self.world.input.get().lines(alloc)
    }

    fn reader(&self) -> &'static [u8] {
        self.world.input.get()
    }
}
