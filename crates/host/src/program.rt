// The words make a site, the top call works on it, and what is to be said is said.
ghost use Rattle.std.specs.Prelude.{◌≡◌};
ghost use Rattle.site.specs.declared.outside.Stop.{Stop};
ghost use Rattle.front_end.specs.declared.halt.Halt.{Halt};
ghost use Rattle.front_end.specs.Texts.{status_of};

use command_line::{Request, Unread, read_words, sizes};
use file_site::{FileSite, LockFile, tell_line};
use front_end::Halt;
use image_check::{Verdict, check_image, find_place};
use image_form::Place;
use notices::{say, see};
use site::Stop;
use std::alloc::{AllocError, Global};
use std::env;
use std::io::{Eprint, ErrorKind};
use std::os::unix::fs::FileExt;
use std::rt::{Clock, Env, Files};
use top_call::face;

// The words without the program's own name; none where one of them is no text.
fn words<R: Env + AllocGlobal>(rt: &R) -> Result<Vec<String>, AllocError> {
    let mut words = Vec::new(rt.alloc());
    match env::args(rt) {
        Ok(args) => {
            for word in args.skip(1) {
                words.push(word)?;
            }
        }
        Err(error) => {
            if error.kind() == ErrorKind::OutOfMemory {
                return Err(AllocError);
            }
        }
    }
    Ok(words)
}

// The site that these words work on: for a new database its files are made where they are missing; a simulation, a
// trial, an archive that is verified and wrong words open none.
fn site<'a, R>(rt: &'a R, words: &[String]) -> Result<FileSite<&'a R>, Stop>
where
    R: Files + Input + Print + Eprint + Clock + AllocGlobal,
    R::File: FileExt + LockFile,
{
    if let Some(geometry) = sizes(words) {
        let (log, flash, disk) = geometry.lengths();
        return FileSite::fresh(rt, rt.alloc(), log, flash, disk);
    }
    match read_words(rt.alloc(), words) {
        Ok(Request::Simulate(_)) => FileSite::for_trace(rt, rt.alloc()),
        Ok(Request::Trial(_)) | Ok(Request::Verify(_)) | Err(Unread::Words) => {
            FileSite::bare(rt, rt.alloc())
        }
        Ok(Request::Check) | Ok(Request::Archive(_)) => FileSite::for_check(rt, rt.alloc()),
        Ok(_) => FileSite::existing(rt, rt.alloc()),
        Err(Unread::Memory) => Err(Stop::Memory),
    }
}

// Whether devices were found that aren't sound: a check has told so, or a run has refused what stands there.
fn may_be_unsound(status: u8, words: &[String]) -> bool {
    status == 11 || status == 9 && sizes(words).is_none()
}

// The rule of sound devices that fails, and where: a check has told which, and only its place is found; behind a run
// the devices are judged.
fn find_failing<R>(alloc: Global, site: &mut FileSite<R>) -> Option<(u8, Place)>
where
    R: Files + Input + Print + Eprint + Clock + Drop,
    R::File: FileExt + LockFile,
{
    if let Some(rule) = site.watch().rule() {
        let place = find_place(alloc, site, rule).ok()??;
        return Some((rule, place));
    }
    match check_image(alloc, site) {
        Ok(Verdict::Unsound { rule, place }) => Some((rule, place)),
        _ => None,
    }
}

// Runs the program over the files, says why it ends as it does, and answers its status.
fn run_over_files<R>(rt: &R) -> Result<u8, Stop>
where
    R: Env + Files + Input + Print + Eprint + Clock + AllocGlobal,
    R::File: FileExt + LockFile,
{
    let words = words(rt)?;
    let mut site = site(rt, words.as_slice())?;
    let status = face(rt.alloc(), words.as_slice(), &mut site);
    let failing = if may_be_unsound(status, words.as_slice()) {
        find_failing(rt.alloc(), &mut site)
    } else {
        None
    };
    say(rt, status, words.as_slice(), &see(&site), failing);
    Ok(status)
}

/// Tells why the program stops before it has a site, and answers its status.
pub fn stopped<R: Print + Clock>(rt: &R, stop: Stop) -> u8
    ensures status { result ≡ status_of (Halt.Stop stop) }
{
    let halt = Halt::Stop(stop);
    let _ = tell_line(rt, halt.line());
    halt.status()
}

/// Runs the program over the files of the current folder, and answers its status.
pub fn run<R>(rt: &R) -> u8
where
    R: Env + Files + Input + Print + Eprint + Clock + AllocGlobal,
    R::File: FileExt + LockFile,
{
    match run_over_files(rt) {
        Ok(status) => status,
        Err(stop) => stopped(rt, stop),
    }
}
