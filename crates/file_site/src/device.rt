// What stands for the three devices: files, or what is read where there is none.
use crate::trouble::Absence;
use site::Dev;
use std::fs::OpenFile;
use std::io::{self, ErrorKind};
use std::os::unix::fs::FileExt;

/// The devices, in the order in which they are tested and made.
pub const DEVS: [Dev; 3] = [Dev::Log, Dev::Flash, Dev::Disk];

/// What stands for a device.
#[derive(Drop)]
pub enum Device<F> {
    /// A file, and its length when it was opened.
    File(F, u64),
    /// No file yet, in a folder where a new database is tested for: it reads as this many zeros.
    Blank(u64),
    /// No file that can be used: the device has no octets.
    Closed(Absence),
}

/// Some of the devices.
#[derive(Clone, Copy, Debug, PartialEq, Eq, Drop)]
pub struct Which {
    log: bool,
    flash: bool,
    disk: bool,
}

/// What stands for each device.
#[derive(Drop)]
pub struct Devices<F> {
    pub log: Device<F>,
    pub flash: Device<F>,
    pub disk: Device<F>,
}

impl<F> Device<F> {
    /// The length of the device in octets.
    pub fn len(&self) -> u64 {
        match self {
            Device::File(_, len) => *len,
            Device::Blank(len) => *len,
            Device::Closed(_) => 0,
        }
    }

    /// Why no file stands for the device, if none does.
    pub fn absence(&self) -> Option<Absence> {
        match self {
            Device::File(_, _) => None,
            Device::Blank(_) => Some(Absence::Missing),
            Device::Closed(absence) => Some(*absence),
        }
    }

    /// Whether there is no file yet.
    pub fn is_missing(&self) -> bool {
        matches!(self, Device::Blank(_))
    }
}

impl Which {
    /// The devices that have no file yet.
    pub fn missing<F>(found: &Devices<F>) -> Which {
        Which {
            log: found.log.is_missing(),
            flash: found.flash.is_missing(),
            disk: found.disk.is_missing(),
        }
    }

    /// Whether this device is one of them.
    pub fn has(&self, dev: Dev) -> bool {
        match dev {
            Dev::Log => self.log,
            Dev::Flash => self.flash,
            Dev::Disk => self.disk,
        }
    }

    /// Whether each device is.
    pub fn are_all(&self) -> bool {
        self.log && self.flash && self.disk
    }
}

// The answer of a call where there is no file: it passes only for a range without octets.
fn without_file(is_empty: bool) -> io::Result<()> {
    if is_empty {
        Ok(())
    } else {
        Err(io::Error::from(ErrorKind::NotFound))
    }
}

impl<F: FileExt> Device<F> {
    /// Reads the whole range. Of a device without octets only an empty range is there.
    pub fn read(&self, at: u64, into: &mut [u8]) -> io::Result<()> {
        match self {
            Device::File(file, _) => file.read_exact_at(into, at),
            Device::Blank(_) => {
                into.fill(0);
                Ok(())
            }
            Device::Closed(_) => without_file(into.is_empty()),
        }
    }

    /// Writes all the bytes.
    pub fn write(&self, at: u64, bytes: &[u8]) -> io::Result<()> {
        match self {
            Device::File(file, _) => file.write_all_at(bytes, at),
            Device::Blank(_) | Device::Closed(_) => without_file(bytes.is_empty()),
        }
    }
}

impl<F: OpenFile> Device<F> {
    /// Makes stable what was written to the device.
    pub fn sync(&self) -> io::Result<()> {
        match self {
            Device::File(file, _) => file.sync_data(),
            Device::Blank(_) | Device::Closed(_) => Ok(()),
        }
    }
}

impl<F> Devices<F> {
    /// Three devices without octets, for one reason.
    pub fn closed(absence: Absence) -> Devices<F> {
        Devices {
            log: Device::Closed(absence),
            flash: Device::Closed(absence),
            disk: Device::Closed(absence),
        }
    }

    /// Whether a file stands for each device.
    pub fn are_files(&self) -> bool {
        DEVS.iter().all(|dev| self.of(*dev).absence().is_none())
    }

    /// How many octets the devices have together.
    pub fn octets(&self) -> u64 {
        let caches = self.log.len().saturating_add(self.flash.len());
        caches.saturating_add(self.disk.len())
    }

    /// What stands for this device.
    pub fn of(&self, dev: Dev) -> &Device<F> {
        match dev {
            Dev::Log => &self.log,
            Dev::Flash => &self.flash,
            Dev::Disk => &self.disk,
        }
    }
}
