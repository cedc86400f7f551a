// A line is gathered from pieces of an input.
ghost use Rattle.line_intake.specs.Gathering.{Gathers};

use arrayvec::ArrayVec;
use memchr::memchr;

/// Moves the octets in front of the first newline of a piece behind those that were gathered of a line before, as far
/// as there is room, and answers where that newline stands. Where there is none the whole piece is of the line. With
/// room for one octet more than a line may have, a line that is too long is known by a line that is full.
pub fn gather<const ROOM: usize>(piece: &[u8], line: &mut ArrayVec<u8, ROOM>) -> Option<usize>
    ensures { Gathers ROOM piece.now result line.old.items line.new.items }
{
    let newline = memchr(b'\n', piece);
    let octets = &piece[..newline.unwrap_or(piece.len())];
    let count = octets.len().min(line.remaining_capacity());
    let Ok(()) = line.try_extend_from_slice(&octets[..count]) else {
        unreachable!()
    };
    newline
}
