// The lines of the input.
ghost use Rattle.std.specs.Prelude.{◌≡◌, ◌<◌, true, false, IsTrue, IfOk, OnOk, IfSome, IfNone};
ghost use Rattle.trace_report.specs.Hearing.{IsUsable, HasEnded, Takes, to_hear, HearsOctet, Hears};
ghost use Rattle.trace_report.specs.Hearing.{IsSaid};

use crate::touch_line::read_touch;
use arrayvec::ArrayVec;
use site::{Failed, Site};

// Octets are taken in pieces of this many.
const PIECE: usize = 4096;

// No touch has a line of so many octets.
const LONG: usize = 8;

/// What was heard: a line, which is a touch of a page, with a change of it or without, or no touch; or the end of the
/// input.
#[derive(Clone, Copy, Debug, PartialEq, Eq, Drop)]
pub enum Heard {
    Touch(u32, bool),
    Wrong,
    End,
}

/// Octets of the input that were taken and not yet cut into lines. Once a take has answered that the input ended, none
/// is made any more.
#[derive(Drop)]
pub struct Trace {
    pub buffer: [u8; PIECE],
    pub from: usize,
    pub to: usize,
    pub ended: bool,
}

impl Trace {
    /// A trace of which nothing was taken.
    pub fn new() -> Trace
        ensures usable { IsUsable result }
        ensures empty { result.from ≡ result.to }
        ensures going { result.ended ≡ false }
    {
        Trace {
            buffer: [0; PIECE],
            from: 0,
            to: 0,
            ended: false,
        }
    }

    // Takes octets where there are none, and answers whether there is one now.
    fn fill<S: Site>(&mut self, site: &mut S) -> Result<bool, Failed>
        requires { IsUsable self.old }
        ensures some { IfOk result (λ some. some ≡ true → self.new.from < self.new.to) }
        ensures none { IfOk result (λ some. some ≡ false → (self.new.from ≡ self.new.to) × (self.new.ended ≡ true)) }
        ensures all { IsTrue (S.state site.old).honest
            → OnOk result (to_hear self.new (S.state site.new) ≡ to_hear self.old (S.state site.old)) }
        ensures takes { Takes result self.old self.new (S.state site.old) (S.state site.new) }
    {
        if self.from < self.to {
            return Ok(true);
        }
        if self.ended {
            return Ok(false);
        }
        let count = match site.take(&mut self.buffer) {
            Ok(count) => count,
            Err(failed) => return Err(failed),
        };
        self.from = 0;
        self.to = count;
        self.ended = count == 0;
        Ok(count > 0)
    }

    // The next octet, None at the end of the input.
    fn next_octet<S: Site>(&mut self, site: &mut S) -> Result<Option<u8>, Failed>
        requires { IsUsable self.old }
        ensures octet { IsTrue (S.state site.old).honest → HasEnded self.old (S.state site.old)
            → IfOk result (λ octet. HearsOctet octet (to_hear self.old (S.state site.old))
            (to_hear self.new (S.state site.new))) }
        ensures takes { Takes result self.old self.new (S.state site.old) (S.state site.new) }
    {
        match self.fill(site) {
            Err(failed) => Err(failed),
            Ok(false) => Ok(None),
            Ok(true) => {
                let octet = self.buffer[self.from];
                self.from += 1;
                Ok(Some(octet))
            }
        }
    }

    /// The next line. Nothing changes but the input. Of a line that is too long to be a touch only the first octets are
    /// heard.
    pub fn next<S: Site>(&mut self, site: &mut S) -> Result<Heard, Failed>
        requires { IsUsable self.old }
        ensures heard { IsTrue (S.state site.old).honest → HasEnded self.old (S.state site.old)
            → IfOk result (λ heard. Hears heard (to_hear self.old (S.state site.old))
            (to_hear self.new (S.state site.new))) }
        ensures takes { Takes result self.old self.new (S.state site.old) (S.state site.new) }
    {
        let mut line = ArrayVec::<u8, LONG>::new();
        for _octet in 0..LONG {
            let octet = match self.next_octet(site) {
                Ok(octet) => octet,
                Err(failed) => return Err(failed),
            };
            match octet {
                None => {
                    if line.is_empty() {
                        return Ok(Heard::End);
                    }
                    return Ok(said_by(line.as_slice()));
                }
                Some(octet) => {
                    if octet == b'\n' {
                        return Ok(said_by(line.as_slice()));
                    }
                    line.push(octet);
                }
            }
        }
        Ok(Heard::Wrong)
    }
}

// What a whole line says.
fn said_by(line: &[u8]) -> Heard
    ensures { IsSaid result line.now }
{
    match read_touch(line) {
        Some((page, change)) => Heard::Touch(page, change),
        None => Heard::Wrong,
    }
}
