// Three files of a folder, standard input and standard output as a site.
ghost use Rattle.std.specs.Prelude.{◌≡◌, ◌≤◌, ◌<◌, ◌+◌, length, false, IsTrue, IfOk, IfErr, OnOk, OnErr};
ghost use Rattle.site.specs.declared.outside.Stop.{Stop};
ghost use Rattle.file_site.specs.declared.book.Book.{Book};
ghost use Rattle.file_site.specs.declared.folder.NoFolder.{NoFolder};
ghost use Rattle.file_site.specs.declared.trouble.NoFiles.{NoFiles};
ghost use Rattle.file_site.specs.Counting.{state_of, reads_after, faulted, IsBare, IsFresh};

use crate::book::Book;
use crate::device::{DEVS, Devices};
use crate::folder::{Folder, file_name};
use crate::intake::Intake;
use crate::lock::LockFile;
use crate::making::{Lengths, fresh};
use crate::opening::{existing, hold_streams, looked_at};
use crate::outlet::tells;
use crate::progress::{Pace, Reading, note_read, say_heard};
use crate::trouble::{Absence, Call, Failure, Failures, NoFiles};
use crate::watch::Watch;
use site::{Dev, Failed, Geometry, Site, Stop};
use std::alloc::Global;
use std::io::{Eprint, Input, Print};
use std::os::unix::fs::FileExt;
use std::rt::{Clock, Files};

// The largest piece of input that is read at once, and of zeros that is written at once.
const PIECE: usize = 65_536;

/// The files `face.log`, `face.flash` and `face.disk` of a folder, standard input and standard output. It
/// isn't honest: nothing is claimed of what stands in a file between two calls.
///
/// While it lasts it holds a lock on each file; a program that finds one locked doesn't have it.
#[derive(Drop)]
pub struct FileSite<R: Files + Input + Print + Clock> {
    rt: R,
    devices: Devices<R::File>,
    input: Intake<R::Reader>,
    book: Book,
    failures: Failures,
    watch: Watch,
    // Where the input is a trace: when it was last said how much of it is heard.
    pace: Option<Pace>,
    // Where the files are checked: how much of them is read.
    reading: Option<Reading>,
}

// The files that are there, if files may be opened at all.
fn open_existing<R: Files>(rt: &R, folder: &Folder) -> Devices<R::File>
where
    R::File: LockFile,
{
    match hold_streams(rt) {
        Ok(_streams) => existing(rt, folder),
        Err(error) => Devices::closed(Absence::Unopened("/dev/null", error)),
    }
}

// The files that are there, to look at, if files may be opened at all.
fn open_looked_at<R: Files>(rt: &R, folder: &Folder) -> Devices<R::File>
where
    R::File: LockFile,
{
    match hold_streams(rt) {
        Ok(_streams) => looked_at(rt, folder),
        Err(error) => Devices::closed(Absence::Unopened("/dev/null", error)),
    }
}

// The files of a new database, if files may be opened at all.
fn open_fresh<R: Files + Clock + Eprint>(
    rt: &R,
    folder: &Folder,
    lengths: &Lengths,
    zeros: &[u8],
) -> Devices<R::File>
where
    R::File: FileExt + LockFile,
{
    match hold_streams(rt) {
        Ok(_streams) => fresh(rt, folder, lengths, zeros),
        Err(error) => Devices::closed(Absence::Unopened("/dev/null", error)),
    }
}

impl<R: Files + Input + Print + Clock + Drop> FileSite<R>
where
    R::File: FileExt + LockFile,
{
    /// The files of this folder that are there. A file that can't be opened to be read and written, or that another
    /// program holds, is a device of length 0, and so is each where the folder's names can't be made stable. The one
    /// error is want of memory.
    pub fn existing_in(rt: R, alloc: Global, folder: &Folder) -> Result<FileSite<R>, Stop>
        ensures fresh { IfOk result (λ site. IsFresh (state_of site.book)) }
        ensures memory { IfErr result (λ stop. stop ≡ Stop.Memory) }
    {
        let buffer = vec![in alloc; 0u8; PIECE]?;
        let devices = open_existing(&rt, folder);
        Ok(FileSite::over(rt, devices, buffer))
    }

    /// As `existing_in`, of the current folder.
    pub fn existing(rt: R, alloc: Global) -> Result<FileSite<R>, Stop>
        ensures fresh { IfOk result (λ site. IsFresh (state_of site.book)) }
        ensures memory { IfErr result (λ stop. stop ≡ Stop.Memory) }
    {
        let folder = Folder::current(alloc)?;
        FileSite::existing_in(rt, alloc, &folder)
    }

    /// Three devices of length 0; no file is opened. The one error is want of memory.
    pub fn bare(rt: R, alloc: Global) -> Result<FileSite<R>, Stop>
        ensures fresh { IfOk result (λ site. IsFresh (state_of site.book)) }
        ensures bare { IfOk result (λ site. IsBare (state_of site.book)) }
        ensures memory { IfErr result (λ stop. stop ≡ Stop.Memory) }
    {
        let reader = rt.reader();
        Ok(FileSite {
            rt,
            devices: Devices::closed(Absence::Missing),
            input: Intake::new(reader, vec![in alloc; 0u8; PIECE]?),
            book: Book::new(0, 0, 0),
            failures: Failures::new(),
            watch: Watch::new(),
            pace: None,
            reading: None,
        })
    }

    /// As `bare`, for a trace on standard input: where it takes long to hear it, standard error says how far it has
    /// come.
    pub fn for_trace(rt: R, alloc: Global) -> Result<FileSite<R>, Stop>
        ensures fresh { IfOk result (λ site. IsFresh (state_of site.book)) }
        ensures bare { IfOk result (λ site. IsBare (state_of site.book)) }
        ensures memory { IfErr result (λ stop. stop ≡ Stop.Memory) }
    {
        let mut site = FileSite::bare(rt, alloc)?;
        site.pace = Some(Pace::new(&site.rt));
        Ok(site)
    }

    /// The files of this folder that are there, to be read alone, beside others that do the same: a write fails. A
    /// file that can't be opened to be read, or that another program works on, is a device of length 0. Where it takes
    /// long to read them, standard error says how far it has come. The one error is want of memory.
    pub fn for_check_in(rt: R, alloc: Global, folder: &Folder) -> Result<FileSite<R>, Stop>
        ensures fresh { IfOk result (λ site. IsFresh (state_of site.book)) }
        ensures memory { IfErr result (λ stop. stop ≡ Stop.Memory) }
    {
        let buffer = vec![in alloc; 0u8; PIECE]?;
        let devices = open_looked_at(&rt, folder);
        let all = devices.octets();
        let mut site = FileSite::over(rt, devices, buffer);
        site.reading = Some(Reading::new(&site.rt, all));
        Ok(site)
    }

    /// As `for_check_in`, of the current folder.
    pub fn for_check(rt: R, alloc: Global) -> Result<FileSite<R>, Stop>
        ensures fresh { IfOk result (λ site. IsFresh (state_of site.book)) }
        ensures memory { IfErr result (λ stop. stop ≡ Stop.Memory) }
    {
        let folder = Folder::current(alloc)?;
        FileSite::for_check_in(rt, alloc, &folder)
    }

    // The site over these devices, with this buffer for the input.
    fn over(rt: R, devices: Devices<R::File>, buffer: Vec<u8>) -> FileSite<R>
        ensures { IsFresh (state_of result.book) }
    {
        let reader = rt.reader();
        let book = Book::new(devices.log.len(), devices.flash.len(), devices.disk.len());
        FileSite {
            rt,
            devices,
            input: Intake::new(reader, buffer),
            book,
            failures: Failures::new(),
            watch: Watch::new(),
            pace: None,
            reading: None,
        }
    }

    /// Why no file stands for this device, if none does.
    pub fn absence(&self, dev: Dev) -> Option<Absence> {
        self.devices.of(dev).absence()
    }

    /// What was noticed of the input and the replies.
    pub fn watch(&self) -> Watch {
        self.watch
    }

    /// The first call that failed.
    pub fn failure(&self) -> Option<Failure> {
        self.failures.first()
    }

    ghost use Rattle.site.specs.Calls.{Preserves};
    ghost use Rattle.site.specs.Faults.{CallFaults};

    // The answer of a call on the device, which is counted where it failed.
    fn answer(&mut self, dev: Dev, done: bool) -> Result<(), Failed>
        ensures done { OnOk result (IsTrue done) }
        ensures failed { OnErr result (done ≡ false) }
        ensures ok { OnOk result (self.new.book ≡ self.old.book) }
        ensures err { OnErr result (self.new.book ≡ faulted dev self.old.book) }
        ensures faults { CallFaults dev result (state_of self.old.book) (state_of self.new.book) }
        ensures preserves { Preserves (state_of self.old.book) (state_of self.new.book) }
    {
        if !done {
            self.book.device_fault(dev);
            return Err(Failed);
        }
        Ok(())
    }
}

impl<R: Files + Input + Print + Clock + Eprint + Drop> FileSite<R>
where
    R::File: FileExt + LockFile,
{
    /// The files of a new database of these lengths. Each missing file is made of this many zeros, stable, where all
    /// that are there have their length and are blank; else it reads as a blank one, and nothing is made. Where one
    /// can't be made, none of them is there then. All else is as of `existing_in`. Want of memory comes before a file
    /// is made.
    pub fn fresh_in(
        rt: R,
        alloc: Global,
        folder: &Folder,
        log: u64,
        flash: u64,
        disk: u64,
    ) -> Result<FileSite<R>, Stop>
        ensures fresh { IfOk result (λ site. IsFresh (state_of site.book)) }
        ensures memory { IfErr result (λ stop. stop ≡ Stop.Memory) }
    {
        let buffer = vec![in alloc; 0u8; PIECE]?;
        let devices = open_fresh(&rt, folder, &Lengths { log, flash, disk }, &buffer);
        Ok(FileSite::over(rt, devices, buffer))
    }

    /// As `fresh_in`, of the current folder.
    pub fn fresh(rt: R, alloc: Global, log: u64, flash: u64, disk: u64) -> Result<FileSite<R>, Stop>
        ensures fresh { IfOk result (λ site. IsFresh (state_of site.book)) }
        ensures memory { IfErr result (λ stop. stop ≡ Stop.Memory) }
    {
        let folder = Folder::current(alloc)?;
        FileSite::fresh_in(rt, alloc, &folder, log, flash, disk)
    }

    /// The files of the folder with this path, to work on: those that are there, or, where each that is there is blank
    /// and has its length, new ones of these sizes. All three are files then, which no other program holds.
    pub fn open_or_make(
        rt: R,
        alloc: Global,
        path: &str,
        sizes: &Geometry,
    ) -> Result<FileSite<R>, NoFiles>
        ensures fresh { IfOk result (λ site. IsFresh (state_of site.book)) }
        ensures short { IfOk result (λ _. length path.now ≤ 4080) }
        ensures long { IfErr result (λ why. why ≡ NoFiles.Folder NoFolder.TooLong → 4080 < length path.now) }
    {
        let folder = match Folder::new(alloc, path) {
            Ok(folder) => folder,
            Err(why) => return Err(NoFiles::Folder(why)),
        };
        let (log, flash, disk) = sizes.lengths();
        let Ok(site) = FileSite::fresh_in(rt, alloc, &folder, log, flash, disk) else {
            return Err(NoFiles::Memory);
        };
        for dev in DEVS {
            match site.absence(dev) {
                None => {}
                Some(Absence::Busy(name)) => return Err(NoFiles::Busy(name)),
                Some(_) => return Err(NoFiles::Unopened(file_name(dev))),
            }
        }
        Ok(site)
    }
}

impl<R: Files + Input + Print + Clock + Eprint + Drop> Site for FileSite<R>
where
    R::File: FileExt + LockFile,
{
    ghost use Rattle.site.specs.State.{content_of, faults_of, reads_of};
    ghost use Rattle.site.specs.Calls.{HasRead, Wrote, Synced, Took, Told, Preserves, ReadsMore, SameReads, Rose};
    ghost use Rattle.site.specs.Faults.{CallFaults, TakeFaults, TellFaults};

    ghost state = { λ site. state_of site.book };

    fn len(&self, dev: Dev) -> u64 {
        self.book.len(dev)
    }

    fn read_at(&mut self, dev: Dev, at: u64, into: &mut [u8]) -> Result<(), Failed>
        requires { at + length into.old ≤ length (content_of dev (state_of self.old.book).image) }
        ensures read { IsTrue (state_of self.old.book).honest
            → HasRead dev at into.new (state_of self.old.book) (state_of self.new.book) result }
        ensures preserves { Preserves (state_of self.old.book) (state_of self.new.book) }
        ensures reads { ReadsMore dev (length into.old) (state_of self.old.book) (state_of self.new.book) }
        ensures cause { OnErr result (Rose (faults_of dev (state_of self.old.book))
            (faults_of dev (state_of self.new.book))) }
        ensures faults { CallFaults dev result (state_of self.old.book) (state_of self.new.book) }
        ensures counted { reads_of dev (state_of self.new.book)
            ≡ reads_after (length into.old) (reads_of dev (state_of self.old.book)) }
    {
        self.book.read(dev, into.len());
        let done = self.devices.of(dev).read(at, into);
        note_read(&self.rt, &mut self.reading, into.len());
        let done = self.failures.passes(Call::Read(dev), done);
        self.answer(dev, done)
    }

    fn write_at(&mut self, dev: Dev, at: u64, bytes: &[u8]) -> Result<(), Failed>
        requires { at + length bytes.now ≤ length (content_of dev (state_of self.old.book).image) }
        ensures wrote { IsTrue (state_of self.old.book).honest
            → Wrote dev at bytes.now (state_of self.old.book) (state_of self.new.book) result }
        ensures preserves { Preserves (state_of self.old.book) (state_of self.new.book) }
        ensures reads { SameReads (state_of self.old.book) (state_of self.new.book) }
        ensures cause { OnErr result (Rose (faults_of dev (state_of self.old.book))
            (faults_of dev (state_of self.new.book))) }
        ensures faults { CallFaults dev result (state_of self.old.book) (state_of self.new.book) }
    {
        let done = self.devices.of(dev).write(at, bytes);
        let done = self.failures.passes(Call::Write(dev), done);
        self.answer(dev, done)
    }

    fn sync(&mut self, dev: Dev) -> Result<(), Failed>
        ensures synced { IsTrue (state_of self.old.book).honest
            → Synced dev (state_of self.old.book) (state_of self.new.book) result }
        ensures preserves { Preserves (state_of self.old.book) (state_of self.new.book) }
        ensures reads { SameReads (state_of self.old.book) (state_of self.new.book) }
        ensures cause { OnErr result (Rose (faults_of dev (state_of self.old.book))
            (faults_of dev (state_of self.new.book))) }
        ensures faults { CallFaults dev result (state_of self.old.book) (state_of self.new.book) }
    {
        let done = self.devices.of(dev).sync();
        let done = self.failures.passes(Call::Sync(dev), done);
        self.answer(dev, done)
    }

    fn take(&mut self, into: &mut [u8]) -> Result<usize, Failed>
        requires { 0 < length into.old }
        ensures took { IsTrue (state_of self.old.book).honest
            → Took into.new (state_of self.old.book) (state_of self.new.book) result }
        ensures at_most { IfOk result (λ n. n ≤ length into.old) }
        ensures preserves { Preserves (state_of self.old.book) (state_of self.new.book) }
        ensures reads { SameReads (state_of self.old.book) (state_of self.new.book) }
        ensures cause { OnErr result (Rose (state_of self.old.book).input_faults
            (state_of self.new.book).input_faults) }
        ensures faults { TakeFaults result (state_of self.old.book) (state_of self.new.book) }
    {
        match self.input.take(&self.rt, into) {
            Ok(count) => {
                self.watch.hears(&into[..count]);
                if let Some(pace) = &mut self.pace {
                    say_heard(&self.rt, pace, &self.watch);
                }
                Ok(count)
            }
            Err(error) => {
                self.failures.keep(Call::Take, error);
                self.book.input_fault();
                Err(Failed)
            }
        }
    }

    fn tell(&mut self, piece: &[u8]) -> Result<usize, Failed>
        requires { 0 < length piece.now }
        ensures told { IsTrue (state_of self.old.book).honest
            → Told piece.now (state_of self.old.book) (state_of self.new.book) result }
        ensures at_least { IfOk result (λ n. 1 ≤ n) }
        ensures at_most { IfOk result (λ n. n ≤ length piece.now) }
        ensures preserves { Preserves (state_of self.old.book) (state_of self.new.book) }
        ensures reads { SameReads (state_of self.old.book) (state_of self.new.book) }
        ensures cause { OnErr result (Rose (state_of self.old.book).output_faults
            (state_of self.new.book).output_faults) }
        ensures faults { TellFaults result (state_of self.old.book) (state_of self.new.book) }
    {
        match tells(&self.rt, piece) {
            Ok(count) => {
                self.watch.tells(&piece[..count]);
                Ok(count)
            }
            Err(error) => {
                self.failures.keep(Call::Tell, error);
                self.book.output_fault();
                Err(Failed)
            }
        }
    }
}
