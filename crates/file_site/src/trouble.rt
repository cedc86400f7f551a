// What went wrong at the system, kept for the words that are said of it.
ghost use Rattle.std.specs.Prelude.{◌≡◌, IsTrue, false, OnOk, OnErr};

use crate::folder::NoFolder;
use site::Dev;
use std::io;
use thiserror::Error;

/// Why a folder has no files to work on. A name is that of a file in the folder, or `.` for the folder itself.
#[derive(Clone, Copy, Debug, PartialEq, Eq, Drop, Error)]
pub enum NoFiles {
    /// The text names no folder that a database may lie in.
    #[error("{0}")]
    Folder(NoFolder),
    /// Another program holds what has this name.
    #[error("another program works on {0}")]
    Busy(&'static str),
    /// The file with this name can't be used, or made where it is missing.
    #[error("{0} can't be opened or made")]
    Unopened(&'static str),
    /// Memory lacked.
    #[error("out of memory")]
    Memory,
}

/// Why no file stands for a device. A name is that of a file in its folder, or `.` for the folder itself.
#[derive(Clone, Copy)]
pub enum Absence {
    /// No file has the device's name.
    Missing,
    /// Another program holds what has this name.
    Busy(&'static str),
    /// What has this name is no file.
    NoFile(&'static str),
    /// What has this name can't be opened to be read and written.
    Unopened(&'static str, io::Error),
    /// What has this name can't be opened to be read.
    Unread(&'static str, io::Error),
    /// What has this name can't be synced.
    Unsynced(&'static str, io::Error),
    /// The file with this name, blank, belongs to another user than who makes a database.
    Anothers(&'static str),
    /// What has this name, which a file has while it is made, can't be removed.
    InTheWay(&'static str, io::Error),
    /// A file has got this name while a database was made.
    Appeared(&'static str),
    /// A new database can't be made: this file of it.
    Unmade(&'static str, io::Error),
}

/// A call on a device or a standard stream.
#[derive(Clone, Copy, Debug, PartialEq, Eq, Drop)]
pub enum Call {
    Read(Dev),
    Write(Dev),
    Sync(Dev),
    Take,
    Tell,
}

/// A call that failed, and the system's error.
#[derive(Clone, Copy)]
pub struct Failure {
    pub call: Call,
    pub error: io::Error,
}

/// The failed calls of a site, of which the first is kept: it decides how a run ends.
#[derive(Clone, Copy)]
pub struct Failures {
    first: Option<Failure>,
}

impl Failures {
    /// No call has failed yet.
    pub fn new() -> Failures {
        Failures { first: None }
    }

    /// The first call that failed.
    pub fn first(&self) -> Option<Failure> {
        self.first
    }

    /// Keeps a failed call, unless one failed before.
    pub fn keep(&mut self, call: Call, error: io::Error) {
        if self.first.is_none() {
            self.first = Some(Failure { call, error });
        }
    }

    /// Whether the call has passed; one that hasn't is kept.
    pub fn passes(&mut self, call: Call, done: io::Result<()>) -> bool
        ensures passed { OnOk done (IsTrue result) }
        ensures failed { OnErr done (result ≡ false) }
    {
        match done {
            Ok(()) => true,
            Err(error) => {
                self.keep(call, error);
                false
            }
        }
    }
}
