// What is known of the files when the program ends.
use file_site::{Absence, Failure, FileSite, LockFile, Watch};
use site::{Dev, Geometry, Site};
use std::io::{Eprint, Input, Print};
use std::os::unix::fs::FileExt;
use std::rt::{Clock, Files};

const DEVS: [Dev; 3] = [Dev::Log, Dev::Flash, Dev::Disk];

// Whether a device of a database may have this length.
fn is_length_of(dev: Dev, len: u64) -> bool {
    let least = Geometry {
        pages: 1,
        groups: 8,
        blocks: 16,
    };
    let (log, flash, disk) = least.lengths();
    let sizes = match dev {
        Dev::Log => Geometry::of_lengths(len, flash, disk),
        Dev::Flash => Geometry::of_lengths(log, len, disk),
        Dev::Disk => Geometry::of_lengths(log, flash, len),
    };
    sizes.is_some()
}

/// What is known of a site when the program ends: for each device, in their order, why it has no file, if it has
/// none, and its length; the first call that failed; and what was noticed of the input and the replies.
#[derive(Clone, Copy)]
pub struct Seen {
    absences: [Option<Absence>; 3],
    lengths: [u64; 3],
    pub failure: Option<Failure>,
    pub watch: Watch,
}

/// What is known of this site.
pub fn see<R>(site: &FileSite<R>) -> Seen
where
    R: Files + Input + Print + Eprint + Clock + Drop,
    R::File: FileExt + LockFile,
{
    Seen {
        absences: [
            site.absence(Dev::Log),
            site.absence(Dev::Flash),
            site.absence(Dev::Disk),
        ],
        lengths: [
            site.len(Dev::Log),
            site.len(Dev::Flash),
            site.len(Dev::Disk),
        ],
        failure: site.failure(),
        watch: site.watch(),
    }
}

impl Seen {
    /// The first device that has no file, and why.
    pub fn first_absence(&self) -> Option<(Dev, Absence)> {
        for (dev, absence) in DEVS.iter().zip(self.absences) {
            if let Some(absence) = absence {
                return Some((*dev, absence));
            }
        }
        None
    }

    /// The first device whose file another program works on, and why it has none.
    pub fn first_busy(&self) -> Option<(Dev, Absence)> {
        for (dev, absence) in DEVS.iter().zip(self.absences) {
            if let Some(Absence::Busy(name)) = absence {
                return Some((*dev, Absence::Busy(name)));
            }
        }
        None
    }

    /// The first device that has no file though one is there or was to be made, and why.
    pub fn first_hindrance(&self) -> Option<(Dev, Absence)> {
        for (dev, absence) in DEVS.iter().zip(self.absences) {
            match absence {
                None | Some(Absence::Missing) => {}
                Some(absence) => return Some((*dev, absence)),
            }
        }
        None
    }

    /// Whether no file of a database is there.
    pub fn is_bare(&self) -> bool {
        self.absences
            .iter()
            .all(|absence| matches!(absence, Some(Absence::Missing)))
    }

    /// The first device whose length isn't that of these, with its length and that of these.
    pub fn first_unlike(&self, wanted: [u64; 3]) -> Option<(Dev, u64, u64)> {
        for ((dev, len), wanted) in DEVS.iter().zip(self.lengths).zip(wanted) {
            if len != wanted {
                return Some((*dev, len, wanted));
            }
        }
        None
    }

    /// The first device whose length is that of no database, with its length.
    pub fn first_odd(&self) -> Option<(Dev, u64)> {
        for (dev, len) in DEVS.iter().zip(self.lengths) {
            if !is_length_of(*dev, len) {
                return Some((*dev, len));
            }
        }
        None
    }
}
