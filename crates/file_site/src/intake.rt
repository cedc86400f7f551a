// Standard input, taken in large pieces.
ghost use Rattle.std.specs.Prelude.{◌≡◌, ◌≤◌, ◌<◌, ◌+◌, length, IfOk, OnOk};

use crate::outlet::may_try_again;
use std::io::{self, ErrorKind, Read};
use std::rt::Clock;

/// A reader and the octets that were read and not yet taken.
#[derive(Drop)]
pub struct Intake<I> {
    reader: I,
    buffer: Vec<u8>,
    start: usize,
    end: usize,
    ghost ordered: { start ≤ end },
    ghost inside: { end ≤ length buffer.items },
}

// Reads once. A read that is interrupted or finds an input that isn't ready is tried again, for as long as it takes.
fn read_some<I: Read, C: Clock>(reader: &mut I, clock: &C, into: &mut [u8]) -> io::Result<usize>
    ensures { IfOk result (λ n. n ≤ length into.old) }
{
    for _try in 0..u64::MAX {
        match reader.read(into) {
            Ok(count) => return Ok(count),
            Err(error) => {
                if !may_try_again(clock, error.kind()) {
                    return Err(error);
                }
            }
        }
    }
    Err(io::Error::from(ErrorKind::TimedOut))
}

impl<I: Read + Drop> Intake<I> {
    /// A reader of which nothing was read. The buffer's length is the largest piece that is read at once.
    pub fn new(reader: I, buffer: Vec<u8>) -> Intake<I> {
        Intake {
            reader,
            buffer,
            start: 0,
            end: 0,
        }
    }

    /// Moves the next octets into the front of `into`, and answers how many. 0 means the end of input where `into` and
    /// the buffer have room for an octet. After an error nothing was moved.
    pub fn take<C: Clock>(&mut self, clock: &C, into: &mut [u8]) -> io::Result<usize>
        ensures at_most { IfOk result (λ n. n ≤ length into.old) }
    {
        if self.start == self.end {
            let count = read_some(&mut self.reader, clock, &mut self.buffer)?;
            self.start = 0;
            self.end = count;
        }
        let count = into.len().min(self.end - self.start);
        let piece = &self.buffer[self.start..self.start + count];
        into[..count].copy_from_slice(piece);
        self.start += count;
        Ok(count)
    }
}
