// What a site in memory was told.
ghost use Rattle.std.specs.Prelude.{◌≡◌, ◌≢◌, ◌≤◌, ◌++◌, length, OnOk, OnErr, true};
ghost use Rattle.mem_site.specs.Area.{FailsAt};
ghost use Rattle.mem_site.specs.Output.{Said};

use crate::area::keep;
use crate::change::Change;
use crate::limits::Gate;
use site::Failed;
use std::alloc::{AllocError, Global};

// Where memory lacks nothing changes.
fn say_front(
    alloc: Global,
    told: &mut Vec<u8>,
    history: &mut Vec<Change>,
    piece: &[u8],
    count: usize,
) -> Result<(), AllocError>
    requires { count ≤ length piece.now }
    ensures ok { OnOk result (Said count piece.now told.old.items told.new.items history.old.items history.new.items) }
    ensures told_err { OnErr result (told.new.items ≡ told.old.items) }
    ensures history_err { OnErr result (history.new.items ≡ history.old.items) }
{
    history.reserve(1)?;
    let rest = piece[count..].to_vec(alloc)?;
    told.extend_from_slice(&piece[..count])?;
    match keep(history, Change::Told(count, rest)) {
        Ok(()) => Ok(()),
        Err(_) => unreachable!(),
    }
}

/// Tells this much of the piece, as far as the gate and memory let it.
pub fn say(
    alloc: Global,
    told: &mut Vec<u8>,
    history: &mut Vec<Change>,
    lacked: &mut bool,
    gate: Gate,
    piece: &[u8],
    count: usize,
) -> Result<(), Failed>
    requires { count ≤ length piece.now }
    ensures ok { OnOk result (Said count piece.now told.old.items told.new.items history.old.items history.new.items) }
    ensures told_err { OnErr result (told.new.items ≡ told.old.items) }
    ensures history_err { OnErr result (history.new.items ≡ history.old.items) }
    ensures gate { FailsAt gate result lacked.old lacked.new }
    ensures closed { gate ≢ Gate.Open → lacked.new ≡ lacked.old }
{
    if gate != Gate::Open {
        return Err(Failed);
    }
    match say_front(alloc, told, history, piece, count) {
        Ok(()) => Ok(()),
        Err(_) => {
            *lacked = true;
            Err(Failed)
        }
    }
}
