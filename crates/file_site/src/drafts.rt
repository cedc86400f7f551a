// The drafts of files, which they are until they are whole and stable; and how they get their names.

use crate::device::{DEVS, Device, Devices, Which};
use crate::folder::{Folder, draft_name, file_name};
use crate::lock::{LockFile, hold};
use crate::opening::sync_folder;
use crate::progress::Progress;
use crate::trouble::Absence;
use site::Dev;
use std::fs::{OpenFile, OpenOptions, Permissions};
use std::io::{self, Eprint, ErrorKind, Write};
use std::os::unix::fs::{MetadataExt, OpenOptionsExt, PermissionsExt};
use std::rt::{Clock, Files};

// Who may do what with a file that is made: its owner alone, reading and writing.
const OWNER_ALONE: u32 = 0o600;

/// Whether nothing has this name, not even a link that leads nowhere.
pub fn is_free<R: Files>(rt: &R, path: &str) -> bool {
    match rt.symlink_metadata(path) {
        Ok(_) => false,
        Err(error) => error.kind() == ErrorKind::NotFound,
    }
}

// Removes what an earlier program left under the name of a draft.
fn clear<R: Files>(rt: &R, folder: &Folder, dev: Dev) -> Result<(), Absence> {
    let path = folder.draft_path(dev);
    match rt.remove_file(path) {
        Ok(()) => Ok(()),
        Err(error) => {
            if is_free(rt, path) {
                return Ok(());
            }
            Err(Absence::InTheWay(draft_name(dev), error))
        }
    }
}

// A new file of this name, for its owner alone, to be read and written, also where the umask takes that from the owner.
fn create<R: Files>(rt: &R, path: &str) -> io::Result<R::File> {
    let file = OpenOptions::new()
        .read(true)
        .write(true)
        .create_new(true)
        .mode(OWNER_ALONE)
        .open(rt, path)?;
    if file.metadata()?.mode() & OWNER_ALONE != OWNER_ALONE {
        file.set_permissions(Permissions::from_mode(OWNER_ALONE))?;
    }
    Ok(file)
}

// The owner of a new file of this name, which doesn't stay.
fn owner_of_new<R: Files>(rt: &R, path: &str) -> io::Result<u32> {
    let file = create(rt, path)?;
    let found = file.metadata();
    let _ = rt.remove_file(path);
    Ok(found?.uid())
}

/// Who owns the files that this program makes in the folder, where it may make some.
pub fn owner_here<R: Files>(rt: &R, folder: &Folder) -> Result<Option<u32>, Absence> {
    clear(rt, folder, Dev::Log)?;
    match owner_of_new(rt, folder.draft_path(Dev::Log)) {
        Ok(owner) => Ok(Some(owner)),
        Err(error) => match error.kind() {
            ErrorKind::PermissionDenied | ErrorKind::ReadOnlyFilesystem => Ok(None),
            _ => Err(Absence::Unmade(draft_name(Dev::Log), error)),
        },
    }
}

// Writes this many zeros, in pieces, and makes them and the length of the file stable.
fn fill<F: Write + OpenFile, R: Clock + Eprint>(
    file: &mut F,
    len: u64,
    zeros: &[u8],
    progress: &mut Progress<'_, R>,
) -> io::Result<()> {
    let mut left = len;
    for _piece in 0..len {
        if left == 0 {
            break;
        }
        let count = left.min(zeros.len() as u64);
        file.write_all(&zeros[..count as usize])?;
        progress.add(count);
        left -= count;
    }
    file.sync_all()
}

// A file of this many zeros, whole and stable, under the name of a draft, and locked. What an earlier program left
// under that name is replaced.
fn draft<R: Files + Clock + Eprint>(
    rt: &R,
    folder: &Folder,
    dev: Dev,
    len: u64,
    zeros: &[u8],
) -> Result<Device<R::File>, Absence>
where
    R::File: LockFile,
{
    clear(rt, folder, dev)?;
    let mut file = match create(rt, folder.draft_path(dev)) {
        Ok(file) => file,
        Err(error) => return Err(Absence::Unmade(draft_name(dev), error)),
    };
    if !hold(&file) {
        return Err(Absence::Busy(draft_name(dev)));
    }
    let mut progress = Progress::new(rt, draft_name(dev), len);
    match fill(&mut file, len, zeros, &mut progress) {
        Ok(()) => Ok(Device::File(file, len)),
        Err(error) => Err(Absence::Unmade(draft_name(dev), error)),
    }
}

// What was found for the device, or the draft of its file where it is missing.
fn found_or_draft<R: Files + Clock + Eprint>(
    rt: &R,
    folder: &Folder,
    dev: Dev,
    found: Device<R::File>,
    zeros: &[u8],
) -> Result<Device<R::File>, Absence>
where
    R::File: LockFile,
{
    match found {
        Device::Blank(len) => draft(rt, folder, dev, len, zeros),
        there => Ok(there),
    }
}

/// What was found, with a draft for each file that is missing.
pub fn draft_missing<R: Files + Clock + Eprint>(
    rt: &R,
    folder: &Folder,
    found: Devices<R::File>,
    zeros: &[u8],
) -> Result<Devices<R::File>, Absence>
where
    R::File: LockFile,
{
    Ok(Devices {
        log: found_or_draft(rt, folder, Dev::Log, found.log, zeros)?,
        flash: found_or_draft(rt, folder, Dev::Flash, found.flash, zeros)?,
        disk: found_or_draft(rt, folder, Dev::Disk, found.disk, zeros)?,
    })
}

// Whether a link that fails in this way is one on a file system that may have none.
fn may_lack_links(kind: ErrorKind) -> bool {
    matches!(
        kind,
        ErrorKind::PermissionDenied | ErrorKind::Unsupported | ErrorKind::TooManyLinks
    )
}

// Gives a file the second name in the place of the first, where nothing has it.
fn rename_to_free<R: Files>(rt: &R, from: &str, to: &str) -> io::Result<()> {
    if !is_free(rt, to) {
        return Err(io::Error::from(ErrorKind::AlreadyExists));
    }
    rt.rename(from, to)
}

// Gives the draft the device's name, and replaces nothing that has it. Only a file system without links could do so,
// where the name is taken between two calls.
fn give_name<R: Files>(rt: &R, folder: &Folder, dev: Dev) -> io::Result<()> {
    let draft = folder.draft_path(dev);
    let path = folder.path(dev);
    match rt.hard_link(draft, path) {
        Ok(()) => Ok(()),
        Err(error) => {
            if may_lack_links(error.kind()) {
                return rename_to_free(rt, draft, path);
            }
            Err(error)
        }
    }
}

/// Removes what stands under the names of drafts, if anything does.
pub fn remove_drafts<R: Files>(rt: &R, folder: &Folder) {
    for dev in DEVS {
        let _ = rt.remove_file(folder.draft_path(dev));
    }
}

/// Gives the drafts of these devices their names, and makes the folder's names stable.
pub fn name_drafts<R: Files>(
    rt: &R,
    folder: &Folder,
    held: &R::File,
    missing: &Which,
) -> Result<(), Absence> {
    for dev in DEVS {
        if missing.has(dev) {
            if let Err(error) = give_name(rt, folder, dev) {
                return Err(match error.kind() {
                    ErrorKind::AlreadyExists => Absence::Appeared(file_name(dev)),
                    _ => Absence::Unmade(file_name(dev), error),
                });
            }
        }
    }
    remove_drafts(rt, folder);
    sync_folder(held)
}

// Whether this is the file that has the name, and not another one that has taken it.
fn is_at<R: Files>(rt: &R, path: &str, file: &R::File) -> bool {
    match (rt.symlink_metadata(path), file.metadata()) {
        (Ok(found), Ok(own)) => found.dev() == own.dev() && found.ino() == own.ino(),
        _ => false,
    }
}

/// Removes what was made of these devices, under either of its names.
pub fn remove_made<R: Files>(rt: &R, folder: &Folder, missing: &Which, made: &Devices<R::File>) {
    for dev in DEVS {
        if let Device::File(file, _) = made.of(dev) {
            if missing.has(dev) && is_at(rt, folder.path(dev), file) {
                let _ = rt.remove_file(folder.path(dev));
            }
        }
    }
    remove_drafts(rt, folder);
}
