// Standard output, and what is tried again on standard streams.
ghost use Rattle.std.specs.Prelude.{◌≤◌, length, IfOk};

use std::io::{self, ErrorKind, Print};
use std::rt::Clock;
use std::thread;
use std::time::Duration;

// So long a stream is left alone that isn't ready.
const PAUSE_MILLIS: u64 = 1;

/// Whether a call on a stream that failed in this way is to be tried again: at once where it was interrupted, after a
/// pause where the stream doesn't block and isn't ready.
pub fn may_try_again<C: Clock>(clock: &C, kind: ErrorKind) -> bool {
    match kind {
        ErrorKind::Interrupted => true,
        ErrorKind::WouldBlock => {
            thread::sleep(clock, Duration::from_millis(PAUSE_MILLIS));
            true
        }
        _ => false,
    }
}

/// Writes once to standard output, and answers how many octets it took; that none is taken is an error. An output that
/// isn't ready is tried again for as long as it takes, as one that blocks would wait.
pub fn tells<P: Print + Clock>(rt: &P, piece: &[u8]) -> io::Result<usize>
    ensures at_least { IfOk result (λ n. 1 ≤ n) }
    ensures at_most { IfOk result (λ n. n ≤ length piece.now) }
{
    for _try in 0..u64::MAX {
        match rt.write_some(piece) {
            Ok(count) => {
                if count == 0 {
                    return Err(io::Error::from(ErrorKind::WriteZero));
                }
                return Ok(count);
            }
            Err(error) => {
                if !may_try_again(rt, error.kind()) {
                    return Err(error);
                }
            }
        }
    }
    Err(io::Error::from(ErrorKind::TimedOut))
}

/// Writes a line to standard output, where there is no site for want of memory, and answers whether all of it was
/// taken.
pub fn tell_line<P: Print + Clock>(rt: &P, line: &[u8]) -> bool {
    let mut rest = line;
    for _piece in 0..line.len() {
        if rest.is_empty() {
            break;
        }
        match tells(rt, rest) {
            Ok(count) => rest = &rest[count..],
            Err(_) => return false,
        }
    }
    rest.is_empty()
}
