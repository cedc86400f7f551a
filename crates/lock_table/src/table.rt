ghost use Rattle.std.specs.Prelude.{◌≡◌, ◌<◌, [], Some, None, false, IfOk, IfErr, OnOk, OnErr};
ghost use Rattle.lock_table.specs.Locks.{has_read, has_written, holds, is_other, busy_read, busy_write, AddsLock};
ghost use Rattle.lock_table.specs.Locks.{ReleasesAll};

use crate::lock::Lock;
use indexmap::IndexSet;
use site::Stop;
use std::alloc::Global;
use std::marker::Model;

/// How many sessions there are, numbered from 0.
const SESSIONS: u32 = 8;

/// For how many locks a new table has room.
const FIRST_LOCKS: usize = 16;

/// Another session holds the record.
#[derive(Clone, Copy, Debug, PartialEq, Eq)]
pub struct Busy {
    /// The least session that holds it.
    pub holder: u32,
}

/// The locks that the active sessions hold. A session holds each of its locks until all of them are released.
#[derive(Drop)]
pub struct LockTable {
    locks: IndexSet<Lock>,
}

impl Model for LockTable {
    ghost use Rattle.std.specs.Prelude.{List};
    ghost use Rattle.lock_table.specs.declared.lock.Lock.{Lock};

    ghost Value = { List Lock };

    ghost view = { λ t. t.locks.keys };
}

impl LockTable {
    /// A table without locks.
    pub fn new(alloc: Global) -> Result<LockTable, Stop>
        ensures empty { IfOk result (λ table. table ≡ []) }
        ensures memory { IfErr result (λ stop. stop ≡ Stop.Memory) }
    {
        Ok(LockTable {
            locks: IndexSet::with_capacity(alloc, FIRST_LOCKS)?,
        })
    }

    /// Whether the session has read the record.
    fn has_read(&self, session: u32, number: u32) -> bool
        ensures { result ≡ has_read self.now session number }
    {
        self.locks.contains(&Lock {
            session,
            number,
            writes: false,
        })
    }

    /// Whether the session has written the record.
    fn has_written(&self, session: u32, number: u32) -> bool
        ensures { result ≡ has_written self.now session number }
    {
        self.locks.contains(&Lock {
            session,
            number,
            writes: true,
        })
    }

    /// Whether a command may read the record: no other session may have written it. A command outside sessions has no
    /// session of its own.
    pub fn may_read(&self, session: Option<u32>, number: u32) -> Result<(), Busy>
        ensures ok { OnOk result (busy_read self.now session number ≡ None) }
        ensures busy { IfErr result (λ busy. busy_read self.now session number ≡ Some busy.holder) }
    {
        match (0..SESSIONS).find(|holder| {
            is_other(session, *holder) && self.has_written(*holder, number)
        }) {
            Some(holder) => Err(Busy { holder }),
            None => Ok(()),
        }
    }

    /// Whether a command may write the record: no other session may have written or read it. A command outside sessions
    /// has no session of its own.
    pub fn may_write(&self, session: Option<u32>, number: u32) -> Result<(), Busy>
        ensures ok { OnOk result (busy_write self.now session number ≡ None) }
        ensures busy { IfErr result (λ busy. busy_write self.now session number ≡ Some busy.holder) }
    {
        match (0..SESSIONS).find(|holder| {
            is_other(session, *holder)
                && (self.has_written(*holder, number) || self.has_read(*holder, number))
        }) {
            Some(holder) => Err(Busy { holder }),
            None => Ok(()),
        }
    }

    /// The session has now read the record, or written it. Ask first whether it may. Where memory is wanting no lock is
    /// added; a lock that is held already needs none.
    pub fn add(&mut self, session: u32, number: u32, writes: bool) -> Result<(), Stop>
        requires { session < 8 }
        ensures ok { OnOk result (AddsLock self.old self.new session number writes) }
        ensures memory { IfErr result (λ stop. stop ≡ Stop.Memory) }
        ensures err { OnErr result (self.new ≡ self.old) }
        ensures absent { OnErr result (holds self.old session number writes ≡ false) }
    {
        self.locks.insert(Lock {
            session,
            number,
            writes,
        })?;
        Ok(())
    }

    /// All locks of the session go, those of other sessions stay.
    pub fn release(&mut self, session: u32)
        ensures { ReleasesAll self.old self.new session }
    {
        self.locks.retain(|lock| lock.session != session);
    }
}

/// Whether a session is another one than the command's own.
fn is_other(own: Option<u32>, session: u32) -> bool
    ensures { result ≡ is_other own session }
{
    match own {
        Some(own) => own != session,
        None => true,
    }
}
