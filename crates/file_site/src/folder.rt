// The folder that a database lies in, and the paths of its files.
ghost use Rattle.std.specs.Prelude.{◌≡◌, ◌≤◌, ◌<◌, length, IfOk, IfErr};
ghost use Rattle.file_site.specs.declared.folder.NoFolder.{NoFolder};

use site::Dev;
use std::alloc::{AllocError, Global};
use std::path::PathBuf;
use thiserror::Error;

// How a folder is called in itself.
pub const FOLDER: &str = ".";

// The longest path in octets that the system takes.
const LONGEST_PATH: usize = 4_095;

// The longest of the names behind a folder's path, and the slash between them.
const LONGEST_NAME: usize = 15;

/// Why a text names no folder that a database may lie in.
#[derive(Clone, Copy, Debug, PartialEq, Eq, Drop, Error)]
pub enum NoFolder {
    /// An octet of the text is 0.
    #[error("a folder's path has no NUL")]
    HasNul,
    /// With the names of the files behind it the text is longer than the paths that the system takes.
    #[error("the path of a database's folder has at most 4080 octets")]
    TooLong,
    /// Memory lacked.
    #[error("out of memory")]
    Memory,
}

impl From<AllocError> for NoFolder {
    ghost use Rattle.std.specs.Prelude.{◌≡◌};
    ghost use Rattle.file_site.specs.declared.folder.NoFolder.TheVariants.{Memory};

    ghost from_gives = { λ _ why. why ≡ Memory };

    fn from(_refused: AllocError) -> NoFolder {
        NoFolder::Memory
    }
}

/// A folder that a database lies in, by the paths of its files and of the drafts that they are while they are made.
/// That it is there isn't said.
#[derive(Debug, Drop)]
pub struct Folder {
    itself: String,
    log: String,
    flash: String,
    disk: String,
    log_draft: String,
    flash_draft: String,
    disk_draft: String,
}

/// The name of a device's file in its folder.
pub fn file_name(dev: Dev) -> &'static str {
    match dev {
        Dev::Log => "face.log",
        Dev::Flash => "face.flash",
        Dev::Disk => "face.disk",
    }
}

/// The name of a device's file until it is whole and stable.
pub fn draft_name(dev: Dev) -> &'static str {
    match dev {
        Dev::Log => "face.log.new",
        Dev::Flash => "face.flash.new",
        Dev::Disk => "face.disk.new",
    }
}

// The path of this name in a folder.
fn join(alloc: Global, folder: &str, name: &str) -> Result<String, AllocError> {
    let mut path = PathBuf::from_str(alloc, folder)?;
    path.push(name)?;
    Ok(path.into_string())
}

// The paths in a folder, which is called so itself. Behind no path they are names.
fn paths(alloc: Global, folder: &str, itself: &str) -> Result<Folder, AllocError> {
    Ok(Folder {
        itself: String::from_str(alloc, itself)?,
        log: join(alloc, folder, file_name(Dev::Log))?,
        flash: join(alloc, folder, file_name(Dev::Flash))?,
        disk: join(alloc, folder, file_name(Dev::Disk))?,
        log_draft: join(alloc, folder, draft_name(Dev::Log))?,
        flash_draft: join(alloc, folder, draft_name(Dev::Flash))?,
        disk_draft: join(alloc, folder, draft_name(Dev::Disk))?,
    })
}

impl Folder {
    /// The folder that the program is called in. The one error is want of memory.
    pub fn current(alloc: Global) -> Result<Folder, AllocError> {
        paths(alloc, "", FOLDER)
    }

    /// The folder with this path, absolute or from the current folder on; an empty text and `.` name that one.
    pub fn new(alloc: Global, path: &str) -> Result<Folder, NoFolder>
        ensures short { IfOk result (λ _. length path.now ≤ 4080) }
        ensures long { IfErr result (λ why. why ≡ NoFolder.TooLong → 4080 < length path.now) }
    {
        if path.as_bytes().contains(&0) {
            return Err(NoFolder::HasNul);
        }
        if path.len() > LONGEST_PATH - LONGEST_NAME {
            return Err(NoFolder::TooLong);
        }
        if path.is_empty() {
            return Ok(Folder::current(alloc)?);
        }
        Ok(paths(alloc, path, path)?)
    }

    /// The path of the folder itself.
    pub fn itself(&self) -> &str {
        self.itself.as_str()
    }

    /// The path of a device's file.
    pub fn path(&self, dev: Dev) -> &str {
        match dev {
            Dev::Log => self.log.as_str(),
            Dev::Flash => self.flash.as_str(),
            Dev::Disk => self.disk.as_str(),
        }
    }

    /// The path of a device's file until it is whole and stable.
    pub fn draft_path(&self, dev: Dev) -> &str {
        match dev {
            Dev::Log => self.log_draft.as_str(),
            Dev::Flash => self.flash_draft.as_str(),
            Dev::Disk => self.disk_draft.as_str(),
        }
    }
}
