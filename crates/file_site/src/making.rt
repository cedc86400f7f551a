// Making the files of a new database. Nothing is made before all that is there is known to be fit for it, and no file
// has its name before it is whole and stable.

use crate::device::{DEVS, Device, Devices, Which};
use crate::drafts::{draft_missing, is_free, name_drafts, owner_here, remove_drafts, remove_made};
use crate::folder::{FOLDER, Folder, file_name};
use crate::lock::{LockFile, hold};
use crate::opening::{Purpose, open, open_folder};
use crate::trouble::Absence;
use site::Dev;
use std::fs::OpenFile;
use std::io::{self, Eprint, ErrorKind};
use std::os::unix::fs::{FileExt, MetadataExt};
use std::rt::{Clock, Files};

// So many octets are read at once.
const PIECE: usize = 4_096;

/// The lengths of the devices of a new database, in octets.
#[derive(Clone, Copy, Debug, PartialEq, Eq, Drop)]
pub struct Lengths {
    pub log: u64,
    pub flash: u64,
    pub disk: u64,
}

impl Lengths {
    fn of(&self, dev: Dev) -> u64 {
        match dev {
            Dev::Log => self.log,
            Dev::Flash => self.flash,
            Dev::Disk => self.disk,
        }
    }
}

// The folder, locked so that no other program makes files in it.
fn hold_folder<R: Files>(rt: &R, folder: &Folder) -> Result<R::File, Absence>
where
    R::File: LockFile,
{
    let held = open_folder(rt, folder)?;
    if hold(&held) {
        Ok(held)
    } else {
        Err(Absence::Busy(FOLDER))
    }
}

// The device's file; where there is none it is one to be made, of this length.
fn look<R: Files>(rt: &R, folder: &Folder, dev: Dev, len: u64) -> Device<R::File>
where
    R::File: LockFile,
{
    match open(rt, folder, dev, Purpose::Work) {
        Ok(device) => device,
        Err(Absence::Missing) => {
            if is_free(rt, folder.path(dev)) {
                return Device::Blank(len);
            }
            let error = io::Error::from(ErrorKind::NotFound);
            Device::Closed(Absence::Unopened(file_name(dev), error))
        }
        Err(absence) => Device::Closed(absence),
    }
}

// What is there of a new database.
fn look_for_all<R: Files>(rt: &R, folder: &Folder, lengths: &Lengths) -> Devices<R::File>
where
    R::File: LockFile,
{
    Devices {
        log: look(rt, folder, Dev::Log, lengths.log),
        flash: look(rt, folder, Dev::Flash, lengths.flash),
        disk: look(rt, folder, Dev::Disk, lengths.disk),
    }
}

// Whether the first octets of the file, this many, are zeros.
fn is_blank<F: FileExt>(file: &F, len: u64) -> io::Result<bool> {
    let mut buffer = [0u8; PIECE];
    let mut left = len;
    for _piece in 0..len {
        if left == 0 {
            break;
        }
        let count = left.min(PIECE as u64);
        let piece = &mut buffer[..count as usize];
        file.read_exact_at(piece, len.saturating_sub(left))?;
        if piece.iter().any(|octet| *octet != 0) {
            return Ok(false);
        }
        left -= count;
    }
    Ok(true)
}

// Whether the device has this length and is blank.
fn is_fit<F: FileExt>(device: &Device<F>, len: u64) -> io::Result<bool> {
    match device {
        Device::File(file, found) => {
            if *found != len {
                return Ok(false);
            }
            is_blank(file, len)
        }
        Device::Blank(_) => Ok(true),
        Device::Closed(_) => Ok(false),
    }
}

// Whether all devices have their lengths and are blank. The error is that one of them can't be read.
fn are_fit<F: FileExt>(found: &Devices<F>, lengths: &Lengths) -> Result<bool, Absence> {
    for dev in DEVS {
        match is_fit(found.of(dev), lengths.of(dev)) {
            Ok(true) => {}
            Ok(false) => return Ok(false),
            Err(error) => return Err(Absence::Unopened(file_name(dev), error)),
        }
    }
    Ok(true)
}

// The file of a device has this owner, if it is there: another one could read and write what the database holds.
fn belongs_to<F: OpenFile>(device: &Device<F>, dev: Dev, owner: u32) -> Result<(), Absence> {
    let Device::File(file, _) = device else {
        return Ok(());
    };
    match file.metadata() {
        Ok(found) => {
            if found.uid() == owner {
                return Ok(());
            }
            Err(Absence::Anothers(file_name(dev)))
        }
        Err(error) => Err(Absence::Unopened(file_name(dev), error)),
    }
}

// The files that are there belong to who makes files in the folder, as far as that can be seen.
fn are_own<R: Files>(rt: &R, folder: &Folder, found: &Devices<R::File>) -> Result<(), Absence> {
    if Which::missing(found).are_all() {
        return Ok(());
    }
    let Some(owner) = owner_here(rt, folder)? else {
        return Ok(());
    };
    for dev in DEVS {
        belongs_to(found.of(dev), dev, owner)?;
    }
    Ok(())
}

// Makes the files that are missing and the folder's names stable. Where that fails nothing is there, and nothing is
// made.
fn make<R: Files + Clock + Eprint>(
    rt: &R,
    folder: &Folder,
    held: &R::File,
    found: Devices<R::File>,
    zeros: &[u8],
) -> Devices<R::File>
where
    R::File: LockFile,
{
    let missing = Which::missing(&found);
    let made = match draft_missing(rt, folder, found, zeros) {
        Ok(made) => made,
        Err(absence) => {
            remove_drafts(rt, folder);
            return Devices::closed(absence);
        }
    };
    match name_drafts(rt, folder, held, &missing) {
        Ok(()) => made,
        Err(absence) => {
            remove_made(rt, folder, &missing, &made);
            Devices::closed(absence)
        }
    }
}

/// The devices of a new database of these lengths. The files that are missing are made where all that are there have
/// their length, are blank and belong to who makes files here; else a missing file reads as a blank one, and nothing
/// is made. No device is there where a file can't be read, or another program makes files in the folder, or one of
/// them can't be made or has appeared meanwhile, or the folder's names can't be made stable. What takes long says on
/// standard error how far it has come.
pub fn fresh<R: Files + Clock + Eprint>(
    rt: &R,
    folder: &Folder,
    lengths: &Lengths,
    zeros: &[u8],
) -> Devices<R::File>
where
    R::File: FileExt + LockFile,
{
    let held = hold_folder(rt, folder);
    let found = look_for_all(rt, folder, lengths);
    match are_fit(&found, lengths) {
        Ok(true) => {}
        Ok(false) => return found,
        Err(absence) => return Devices::closed(absence),
    }
    let held = match held {
        Ok(held) => held,
        Err(absence) => return Devices::closed(absence),
    };
    match are_own(rt, folder, &found) {
        Ok(()) => make(rt, folder, &held, found, zeros),
        Err(absence) => Devices::closed(absence),
    }
}
