// The locks on files, by which two programs don't work on one database at once.
use std::fs::{File, TryLockError};

/// A file that can be locked, for code that is generic over the files.
pub trait LockFile {
    /// Locks the file, unless another open of it holds a lock. The lock ends when the file is closed, also by the end
    /// of a program that is killed.
    fn try_lock(&self) -> Result<(), TryLockError>;

    /// As `try_lock`, beside others that hold such a lock.
    fn try_lock_shared(&self) -> Result<(), TryLockError>;
}

impl LockFile for File {
    fn try_lock(&self) -> Result<(), TryLockError> {
        File::try_lock(self)
    }

    fn try_lock_shared(&self) -> Result<(), TryLockError> {
        File::try_lock_shared(self)
    }
}

// Whether no other program stands in the way of a lock. A file system without locks holds nothing.
fn is_free(locked: Result<(), TryLockError>) -> bool {
    match locked {
        Ok(()) => true,
        Err(TryLockError::WouldBlock) => false,
        Err(TryLockError::Error(_)) => true,
    }
}

/// Locks the file, and answers whether no other program holds it.
pub fn hold<F: LockFile>(file: &F) -> bool {
    is_free(file.try_lock())
}

/// Locks the file beside others that only look at it, and answers whether no other program works on it.
pub fn hold_to_look<F: LockFile>(file: &F) -> bool {
    is_free(file.try_lock_shared())
}
