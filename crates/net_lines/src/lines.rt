// The lines that write what a commit has written.
ghost use Rattle.std.specs.Prelude.{◌≡◌, ◌↔◌, ◌+◌, ◌<◌, ◌≤◌, ℕ, IsTrue, Some, None};
ghost use Rattle.std.specs.Prelude.{length, option_copied, slice_index_or};
ghost use Rattle.record_model.specs.State.{length_of};
ghost use Rattle.net_lines.specs.Nets.{AreWritable, HasLogRoom, line_writing, session_lines, tight};

use log_replay::Net;
use record_model::{Command, Octets};

/// Whether a log has room for a Begin, the writes of a net, and what may be owed for them, where so many blocks of it
/// may be used.
pub fn fits_log(cap: u64, net: &Net) -> bool
    requires { 2 ≤ cap }
    ensures { IsTrue result ↔ HasLogRoom cap net.now }
{
    net.len() as u64 <= (cap - 2) / 2
}

/// Whether it has none where so many of them are used, so that a checkpoint comes first.
pub fn is_tight(cap: u64, used: u64, net: &Net) -> bool
    requires { HasLogRoom cap net.now }
    ensures { result ≡ tight cap used net.now }
{
    used > cap - (2 * net.len() as u64 + 2)
}

// The line of session 0 that writes what a record is to have.
fn write_line(number: u32, value: Option<&[u8]>) -> Command
    requires { length_of (option_copied value) ≤ 200 }
    ensures { Some result ≡ line_writing number (option_copied value.entry) }
{
    match value {
        None => Command::Erase { session: 0, number },
        Some(octets) => match Octets::from_slice(octets) {
            Some(value) => Command::Write {
                session: 0,
                number,
                value,
            },
            None => unreachable!(),
        },
    }
}

/// The line at a place among those of session 0 that write a net: a begin, a write or an erase for each record, and a
/// commit.
pub fn session_line(net: &Net, place: usize) -> Command
    requires place { place < length net.now + 2 }
    requires writable { (records : ℕ) × AreWritable records net.now }
    ensures { Some result ≡ slice_index_or (session_lines net.now) place None }
{
    if place == 0 {
        return Command::Begin { session: 0 };
    }
    if place > net.len() {
        return Command::Commit { session: 0 };
    }
    write_line(net.number(place - 1), net.value(place - 1))
}
