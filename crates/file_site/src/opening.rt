// Opening the files of a site: to work on them, or to look at them alone.

use crate::device::{Device, Devices};
use crate::folder::{FOLDER, Folder, file_name};
use crate::lock::{LockFile, hold, hold_to_look};
use crate::trouble::Absence;
use site::Dev;
use std::fs::{OpenFile, OpenOptions};
use std::io::{self, ErrorKind};
use std::rt::Files;

/// What files are opened for.
#[derive(Clone, Copy, Debug, PartialEq, Eq, Drop)]
pub enum Purpose {
    /// To be read and written, by one program at a time.
    Work,
    /// To be read, beside others that do the same.
    Look,
}

impl Purpose {
    // Locks the file, and answers whether no other program stands in the way.
    fn holds<F: LockFile>(self, file: &F) -> bool {
        match self {
            Purpose::Work => hold(file),
            Purpose::Look => hold_to_look(file),
        }
    }

    // Why what has the name of a device's file can't be opened so.
    fn unopened(self, dev: Dev, error: io::Error) -> Absence {
        match (error.kind(), self) {
            (ErrorKind::NotFound, _) => Absence::Missing,
            (_, Purpose::Work) => Absence::Unopened(file_name(dev), error),
            (_, Purpose::Look) => Absence::Unread(file_name(dev), error),
        }
    }

    // Whether a file may stay without a sync that fails in this way: where it is only looked at, and can't be written.
    fn spares(self, kind: ErrorKind) -> bool {
        self == Purpose::Look
            && matches!(
                kind,
                ErrorKind::ReadOnlyFilesystem
                    | ErrorKind::PermissionDenied
                    | ErrorKind::InvalidInput
                    | ErrorKind::Unsupported
            )
    }
}

// Whether the device's file is there. What is no file, such as a folder or a pipe, isn't opened: that might wait for
// ever.
fn find<R: Files>(rt: &R, folder: &Folder, dev: Dev, purpose: Purpose) -> Result<(), Absence> {
    match rt.metadata(folder.path(dev)) {
        Ok(found) => {
            if found.is_file() {
                Ok(())
            } else {
                Err(Absence::NoFile(file_name(dev)))
            }
        }
        Err(error) => Err(purpose.unopened(dev, error)),
    }
}

// The length of a file. What an earlier program wrote to it and didn't sync is synced.
fn settle<F: OpenFile>(file: &F, purpose: Purpose) -> io::Result<u64> {
    let len = file.metadata()?.len();
    match file.sync_data() {
        Ok(()) => Ok(len),
        Err(error) => {
            if purpose.spares(error.kind()) {
                return Ok(len);
            }
            Err(error)
        }
    }
}

/// The device's file with its length, for this purpose, locked before it is read. What an earlier program wrote and
/// didn't sync is synced first. An error is that of the first of these calls that fails.
pub fn open<R: Files>(
    rt: &R,
    folder: &Folder,
    dev: Dev,
    purpose: Purpose,
) -> Result<Device<R::File>, Absence>
where
    R::File: LockFile,
{
    find(rt, folder, dev, purpose)?;
    let opened = OpenOptions::new()
        .read(true)
        .write(purpose == Purpose::Work)
        .open(rt, folder.path(dev));
    let file = match opened {
        Ok(file) => file,
        Err(error) => return Err(purpose.unopened(dev, error)),
    };
    if !purpose.holds(&file) {
        return Err(Absence::Busy(file_name(dev)));
    }
    match settle(&file, purpose) {
        Ok(len) => Ok(Device::File(file, len)),
        Err(error) => Err(Absence::Unsynced(file_name(dev), error)),
    }
}

// The file of a device, if it can be opened.
fn open_or_closed<R: Files>(rt: &R, folder: &Folder, dev: Dev, purpose: Purpose) -> Device<R::File>
where
    R::File: LockFile,
{
    match open(rt, folder, dev, purpose) {
        Ok(device) => device,
        Err(absence) => Device::Closed(absence),
    }
}

// The files that are there. One that can't be opened is a device without octets.
fn open_all<R: Files>(rt: &R, folder: &Folder, purpose: Purpose) -> Devices<R::File>
where
    R::File: LockFile,
{
    Devices {
        log: open_or_closed(rt, folder, Dev::Log, purpose),
        flash: open_or_closed(rt, folder, Dev::Flash, purpose),
        disk: open_or_closed(rt, folder, Dev::Disk, purpose),
    }
}

/// The folder, to be locked or synced.
pub fn open_folder<R: Files>(rt: &R, folder: &Folder) -> Result<R::File, Absence> {
    match OpenOptions::new().read(true).open(rt, folder.itself()) {
        Ok(held) => Ok(held),
        Err(error) => Err(Absence::Unread(FOLDER, error)),
    }
}

/// Makes the folder's names stable, also those of an earlier program. A file system that has no sync of folders is
/// taken to keep them.
pub fn sync_folder<F: OpenFile>(held: &F) -> Result<(), Absence> {
    match held.sync_all() {
        Ok(()) => Ok(()),
        Err(error) => match error.kind() {
            ErrorKind::InvalidInput | ErrorKind::Unsupported => Ok(()),
            _ => Err(Absence::Unsynced(FOLDER, error)),
        },
    }
}

// Makes the names of the files stable: the program that gave them may have been killed before it did.
fn settle_names<R: Files>(rt: &R, folder: &Folder) -> Result<(), Absence> {
    let held = open_folder(rt, folder)?;
    sync_folder(&held)
}

/// The files that are there, to work on. One that can't be opened is a device without octets. None is there where the
/// names of all three can't be made stable.
pub fn existing<R: Files>(rt: &R, folder: &Folder) -> Devices<R::File>
where
    R::File: LockFile,
{
    let devices = open_all(rt, folder, Purpose::Work);
    if !devices.are_files() {
        return devices;
    }
    match settle_names(rt, folder) {
        Ok(()) => devices,
        Err(absence) => Devices::closed(absence),
    }
}

/// The files that are there, to look at: nothing is made stable that can't be. One that can't be opened is a device
/// without octets.
pub fn looked_at<R: Files>(rt: &R, folder: &Folder) -> Devices<R::File>
where
    R::File: LockFile,
{
    open_all(rt, folder, Purpose::Look)
}

// A descriptor that stands for nothing.
fn open_any<R: Files>(rt: &R) -> io::Result<R::File> {
    match OpenOptions::new().read(true).open(rt, "/dev/null") {
        Ok(file) => Ok(file),
        Err(_) => OpenOptions::new().read(true).open(rt, "."),
    }
}

/// Three descriptors, to be held while files are opened: where a standard stream is closed its number would else be
/// given to a file, and the next reply be written over it.
pub fn hold_streams<R: Files>(rt: &R) -> io::Result<(R::File, R::File, R::File)> {
    Ok((open_any(rt)?, open_any(rt)?, open_any(rt)?))
}
