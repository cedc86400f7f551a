// What is said on standard error while a large file is made, a long trace is heard, or large devices are checked.

use crate::watch::Watch;
use std::io::Eprint;
use std::rt::Clock;
use std::time::Duration;

// The pause before the first word and between two of them.
const PAUSE_SECONDS: u64 = 2;

const MEBIBYTE: u64 = 1 << 20;

/// When something was said last.
#[derive(Drop)]
pub struct Pace {
    said_at: Option<Duration>,
}

impl Pace {
    /// The first pause begins.
    pub fn new<C: Clock>(clock: &C) -> Pace {
        Pace {
            said_at: clock.monotonic().ok(),
        }
    }

    // Whether the pause since the last word is over; if so a new one begins.
    fn is_due<C: Clock>(&mut self, clock: &C) -> bool {
        let Some(said_at) = self.said_at else {
            return false;
        };
        let Ok(now) = clock.monotonic() else {
            return false;
        };
        if now.saturating_sub(said_at).as_secs() < PAUSE_SECONDS {
            return false;
        }
        self.said_at = Some(now);
        true
    }
}

/// Says how many lines of a trace are heard, from time to time. What can't be said is left unsaid.
pub fn say_heard<R: Clock + Eprint>(rt: &R, pace: &mut Pace, watch: &Watch) {
    if !pace.is_due(rt) {
        return;
    }
    let lines = watch.lines();
    let _ = eprintln!(rt; "trace: {lines} lines are heard");
}

/// How many octets of devices are read. What can't be said is left unsaid.
#[derive(Drop)]
pub struct Reading {
    read: u64,
    all: u64,
    pace: Pace,
}

impl Reading {
    /// Nothing is read yet of devices that have so many octets together.
    pub fn new<C: Clock>(clock: &C, all: u64) -> Reading {
        Reading {
            read: 0,
            all,
            pace: Pace::new(clock),
        }
    }

    // So many octets more are read. Says how many are, from time to time.
    fn add<R: Clock + Eprint>(&mut self, rt: &R, octets: usize) {
        self.read = self.read.saturating_add(octets as u64);
        if !self.pace.is_due(rt) {
            return;
        }
        let read = self.read / MEBIBYTE;
        let all = self.all.div_ceil(MEBIBYTE);
        let _ = eprintln!(rt;
            "check: {read} MiB are read; the files have {all} MiB, of which parts are read again"
        );
    }
}

/// Notes that so many octets more are read, where that is to be said.
pub fn note_read<R: Clock + Eprint>(rt: &R, reading: &mut Option<Reading>, octets: usize) {
    if let Some(reading) = reading {
        reading.add(rt, octets);
    }
}

/// How much of a file is written. What can't be said is left unsaid.
#[derive(Drop)]
pub struct Progress<'a, R> {
    rt: &'a R,
    path: &'static str,
    len: u64,
    written: u64,
    pace: Pace,
}

impl<'a, R: Clock + Eprint> Progress<'a, R> {
    /// Nothing is written yet of a file of this length.
    pub fn new(rt: &'a R, path: &'static str, len: u64) -> Progress<'a, R> {
        Progress {
            rt,
            path,
            len,
            written: 0,
            pace: Pace::new(rt),
        }
    }

    /// So many octets more are written. Says how many are, from time to time.
    pub fn add(&mut self, octets: u64) {
        self.written = self.written.saturating_add(octets);
        if !self.pace.is_due(self.rt) {
            return;
        }
        let path = self.path;
        let done = self.written / MEBIBYTE;
        let all = self.len.div_ceil(MEBIBYTE);
        let then = if self.written < self.len {
            ""
        } else {
            ", and being synced"
        };
        let _ = eprintln!(self.rt; "{path}: {done} of {all} MiB are written{then}");
    }
}
