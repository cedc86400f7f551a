// The lines of the input.
ghost use Rattle.std.specs.Prelude.{◌≡◌, ◌⊎◌, ◌+◌, ◌^◌, ◌≤◌, ◌<◌, IsTrue, IfOk, IfErr, OnOk, OnErr, Err};
ghost use Rattle.std.specs.Prelude.{false, true, []};
ghost use Rattle.front_end.specs.Faults.{RunFaults};
ghost use Rattle.site.specs.Calls.{Preserves, Rose};
ghost use Rattle.front_end.specs.Lines.{pending, to_hear, total, IsSource, HasEnded, HearsOnly, HearsPart};
ghost use Rattle.front_end.specs.Lines.{Hears, CutsOff, IsCutOff};
ghost use Rattle.front_end.specs.Lines.{TakesWithin};
ghost use Rattle.shell_text.specs.Reading.{line_of};

use crate::halt::Halt;
use arrayvec::ArrayVec;
use line_intake::gather;
use record_model::Command;
use shell_text::read_line;
use site::Site;

// At most so many octets of the input are cut into lines.
const LIMIT: u64 = 1 << 40;

// Octets are taken in pieces of this many.
const PIECE: usize = 4096;

/// What was heard: a line, which is a command or none, or the end of the input.
#[derive(Drop)]
pub enum Heard {
    Line(Option<Command>),
    End,
}

/// Octets that were taken and not yet cut into lines. Once a take has answered that the input ended, none is made any
/// more.
#[derive(Drop)]
pub struct Source {
    pub buffer: [u8; PIECE],
    pub from: usize,
    pub to: usize,
    pub taken: u64,
    pub ended: bool,
}

impl Source {
    /// A source of which nothing was taken.
    pub fn new() -> Source
        ensures source { IsSource result }
        ensures empty { result.from ≡ result.to }
        ensures taken { result.taken ≡ 0 }
        ensures going { result.ended ≡ false }
    {
        Source {
            buffer: [0; PIECE],
            from: 0,
            to: 0,
            taken: 0,
            ended: false,
        }
    }

    // Takes one octet more than a run may take, if there is one.
    fn take_past_limit<S: Site>(&mut self, site: &mut S) -> Result<bool, Halt>
        requires source { IsSource self.old }
        requires empty { self.old.from ≡ self.old.to }
        requires full { 2 ^ 40 ≤ self.old.taken }
        requires going { self.old.ended ≡ false }
        ensures source { IsSource self.new }
        ensures none { IfOk result (λ some. (some ≡ false) × (self.new.ended ≡ true)) }
        ensures end { IsTrue (S.state site.old).honest → OnOk result (((S.state site.old).input.left ≡ [])
            × ((S.state site.new).input.left ≡ [])) }
        ensures empty { self.new.from ≡ self.new.to }
        ensures taken { self.new.taken ≡ self.old.taken }
        ensures same { IsTrue (S.state site.old).honest → HearsOnly (S.state site.old) (S.state site.new) }
        ensures takes { IsTrue (S.state site.old).honest → TakesWithin self.old (S.state site.old) (S.state site.new) }
        ensures cut_off { IsTrue (S.state site.old).honest
            → IfErr result (λ halt. CutsOff halt (total self.old (S.state site.old)) (S.state site.old).input.left
            (S.state site.new).input.left) }
        ensures halts { IfErr result (λ halt. (halt ≡ Halt.Input) ⊎ (halt ≡ Halt.Limit)) }
        ensures preserves { Preserves (S.state site.old) (S.state site.new) }
        ensures input { result ≡ Err Halt.Input → Rose (S.state site.old).input_faults (S.state site.new).input_faults }
        ensures faults { RunFaults result (S.state site.old) (S.state site.new) }
    {
        match site.take(&mut self.buffer[..1]) {
            Ok(0) => {
                self.ended = true;
                Ok(false)
            }
            Ok(_) => Err(Halt::Limit),
            Err(_) => Err(Halt::Input),
        }
    }

    // Takes octets where there are none, and answers whether there is one now.
    fn fill<S: Site>(&mut self, site: &mut S) -> Result<bool, Halt>
        requires { IsSource self.old }
        ensures source { IsSource self.new }
        ensures some { IfOk result (λ some. some ≡ true → (self.new.from < self.new.to) × (self.old.ended ≡ false)
            × (self.new.ended ≡ false)) }
        ensures none { IfOk result (λ some. some ≡ false → (self.new.from ≡ self.new.to) × (self.new.ended ≡ true)) }
        ensures all { IsTrue (S.state site.old).honest
            → OnOk result (to_hear self.new (S.state site.new) ≡ to_hear self.old (S.state site.old)) }
        ensures end { IsTrue (S.state site.old).honest → HasEnded self.old (S.state site.old)
            → IfOk result (λ some. some ≡ false → (S.state site.new).input.left ≡ []) }
        ensures count { IsTrue (S.state site.old).honest
            → OnOk result (total self.new (S.state site.new) ≡ total self.old (S.state site.old)) }
        ensures cut_off { IsTrue (S.state site.old).honest
            → IfErr result (λ halt. CutsOff halt (total self.old (S.state site.old))
            (to_hear self.old (S.state site.old)) (S.state site.new).input.left) }
        ensures going { OnErr result (self.old.ended ≡ false) }
        ensures same { IsTrue (S.state site.old).honest → HearsOnly (S.state site.old) (S.state site.new) }
        ensures takes { IsTrue (S.state site.old).honest → TakesWithin self.old (S.state site.old) (S.state site.new) }
        ensures halts { IfErr result (λ halt. (halt ≡ Halt.Input) ⊎ (halt ≡ Halt.Limit)) }
        ensures preserves { Preserves (S.state site.old) (S.state site.new) }
        ensures input { result ≡ Err Halt.Input → Rose (S.state site.old).input_faults (S.state site.new).input_faults }
        ensures faults { RunFaults result (S.state site.old) (S.state site.new) }
    {
        if self.from < self.to {
            return Ok(true);
        }
        if self.ended {
            return Ok(false);
        }
        if self.taken >= LIMIT {
            return self.take_past_limit(site);
        }
        let room = (LIMIT - self.taken).min(PIECE as u64) as usize;
        let Ok(count) = site.take(&mut self.buffer[..room]) else {
            return Err(Halt::Input);
        };
        self.from = 0;
        self.to = count;
        self.taken += count as u64;
        self.ended = count == 0;
        Ok(count > 0)
    }

    // Gathers what was taken of a line, and answers whether its newline was there.
    fn gather(&mut self, line: &mut ArrayVec<u8, 501>) -> bool
        requires source { IsSource self.old }
        requires some { self.old.from < self.old.to }
        ensures source { IsSource self.new }
        ensures part { HearsPart result (pending self.old) (pending self.new) line.old.items line.new.items }
        ensures ended { self.new.ended ≡ self.old.ended }
        ensures taken { self.new.taken ≡ self.old.taken }
    {
        match gather(&self.buffer[self.from..self.to], line) {
            None => {
                self.from = self.to;
                false
            }
            Some(newline) => {
                self.from += newline + 1;
                true
            }
        }
    }

    /// The next line. Nothing changes but the input. Where taking fails, or goes past the limit, the octets of an
    /// unfinished line are lost.
    pub fn next<S: Site>(&mut self, site: &mut S) -> Result<Heard, Halt>
        requires { IsSource self.old }
        ensures source { IsSource self.new }
        ensures heard { IsTrue (S.state site.old).honest → HasEnded self.old (S.state site.old)
            → IfOk result (λ heard. Hears heard self.old.ended self.new.ended (to_hear self.old (S.state site.old))
            (to_hear self.new (S.state site.new))) }
        ensures ended { IsTrue (S.state site.old).honest → HasEnded self.old (S.state site.old)
            → OnOk result (HasEnded self.new (S.state site.new)) }
        ensures count { IsTrue (S.state site.old).honest
            → OnOk result (total self.new (S.state site.new) ≡ total self.old (S.state site.old)) }
        ensures cut_off { IsTrue (S.state site.old).honest → HasEnded self.old (S.state site.old)
            → IfErr result (λ halt. IsCutOff halt self.old.ended (total self.old (S.state site.old))
            (to_hear self.old (S.state site.old)) (S.state site.new).input.left) }
        ensures same { IsTrue (S.state site.old).honest → HearsOnly (S.state site.old) (S.state site.new) }
        ensures takes { IsTrue (S.state site.old).honest → HasEnded self.old (S.state site.old)
            → TakesWithin self.old (S.state site.old) (S.state site.new) }
        ensures halts { IfErr result (λ halt. (halt ≡ Halt.Input) ⊎ (halt ≡ Halt.Limit)) }
        ensures preserves { Preserves (S.state site.old) (S.state site.new) }
        ensures input { result ≡ Err Halt.Input → Rose (S.state site.old).input_faults (S.state site.new).input_faults }
        ensures faults { RunFaults result (S.state site.old) (S.state site.new) }
    {
        let mut line = ArrayVec::<u8, 501>::new();
        for _piece in 0..LIMIT + 1 {
            match self.fill(site) {
                Err(halt) => return Err(halt),
                Ok(false) => {
                    if line.is_empty() {
                        return Ok(Heard::End);
                    }
                    return Ok(Heard::Line(command_in(line.as_slice())));
                }
                Ok(true) => {
                    if self.gather(&mut line) {
                        return Ok(Heard::Line(command_in(line.as_slice())));
                    }
                }
            }
        }
        Err(Halt::Limit)
    }
}

// What a line says, of which the octets past the 501st may be lost: one of more than 500 says nothing.
fn command_in(line: &[u8]) -> Option<Command>
    ensures { result ≡ line_of line.now }
{
    read_line(line).ok()
}
