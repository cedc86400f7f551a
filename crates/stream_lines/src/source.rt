// The lines of the input.
ghost use Rattle.std.specs.Prelude.{◌≡◌, ◌⊎◌, ◌+◌, ◌^◌, ◌≤◌, ◌<◌, IsTrue, IfOk, IfErr, OnOk, OnErr, Err};
ghost use Rattle.std.specs.Prelude.{false, true, []};
ghost use Rattle.site.specs.Calls.{Preserves, Rose};
ghost use Rattle.stream_lines.specs.Faults.{HearFaults};
ghost use Rattle.stream_lines.specs.Lines.{pending, to_hear, total, IsSource, HasEnded, HearsOnly, HearsPart};
ghost use Rattle.stream_lines.specs.Lines.{Hears, CutsOff, IsCutOff, TakesWithin, long};

use arrayvec::ArrayVec;
use line_intake::gather;
use site::Site;

// At most so many octets of the input are cut into lines.
const LIMIT: u64 = 1 << 40;

// Octets are taken in pieces of this many.
const PIECE: usize = 4096;

// No line of an archive has so many octets.
const LONG: usize = 1027;

/// What was heard: a line, the front of a line that is too long for an archive, or the end of the input.
#[derive(Clone, Copy, Debug, PartialEq, Eq, Drop)]
pub enum Heard {
    Line,
    Long,
    End,
}

/// Why no line was heard: taking failed, or the input is longer than 2^40 octets.
#[derive(Clone, Copy, Debug, PartialEq, Eq, Drop)]
pub enum Fault {
    Input,
    Limit,
}

/// Octets that were taken and not yet cut into lines. Once a take has answered that the input ended, none is made any
/// more.
#[derive(Drop)]
pub struct Source {
    pub buffer: [u8; PIECE],
    pub from: usize,
    pub to: usize,
    pub taken: u64,
    pub ended: bool,
}

impl Source {
    /// A source of which nothing was taken.
    pub fn new() -> Source
        ensures source { IsSource result }
        ensures empty { result.from ≡ result.to }
        ensures taken { result.taken ≡ 0 }
        ensures going { result.ended ≡ false }
    {
        Source {
            buffer: [0; PIECE],
            from: 0,
            to: 0,
            taken: 0,
            ended: false,
        }
    }

    // Takes one octet more than may be taken, if there is one.
    fn take_past_limit<S: Site>(&mut self, site: &mut S) -> Result<bool, Fault>
        requires source { IsSource self.old }
        requires empty { self.old.from ≡ self.old.to }
        requires full { 2 ^ 40 ≤ self.old.taken }
        requires going { self.old.ended ≡ false }
        ensures source { IsSource self.new }
        ensures none { IfOk result (λ some. (some ≡ false) × (self.new.ended ≡ true)) }
        ensures end { IsTrue (S.state site.old).honest → OnOk result (((S.state site.old).input.left ≡ [])
            × ((S.state site.new).input.left ≡ [])) }
        ensures empty { self.new.from ≡ self.new.to }
        ensures taken { self.new.taken ≡ self.old.taken }
        ensures same { IsTrue (S.state site.old).honest → HearsOnly (S.state site.old) (S.state site.new) }
        ensures takes { IsTrue (S.state site.old).honest
            → TakesWithin 1 self.old (S.state site.old) (S.state site.new) }
        ensures cut_off { IsTrue (S.state site.old).honest
            → IfErr result (λ fault. CutsOff fault (total self.old (S.state site.old)) (S.state site.old).input.left
            (S.state site.new).input.left) }
        ensures preserves { Preserves (S.state site.old) (S.state site.new) }
        ensures input { result ≡ Err Fault.Input
            → Rose (S.state site.old).input_faults (S.state site.new).input_faults }
        ensures faults { HearFaults result (S.state site.old) (S.state site.new) }
    {
        match site.take(&mut self.buffer[..1]) {
            Ok(0) => {
                self.ended = true;
                Ok(false)
            }
            Ok(_) => Err(Fault::Limit),
            Err(_) => Err(Fault::Input),
        }
    }

    // Takes octets where there are none, and answers whether there is one now.
    fn fill<S: Site>(&mut self, site: &mut S) -> Result<bool, Fault>
        requires { IsSource self.old }
        ensures source { IsSource self.new }
        ensures some { IfOk result (λ some. some ≡ true → (self.new.from < self.new.to) × (self.old.ended ≡ false)
            × (self.new.ended ≡ false)) }
        ensures none { IfOk result (λ some. some ≡ false → (self.new.from ≡ self.new.to) × (self.new.ended ≡ true)) }
        ensures all { IsTrue (S.state site.old).honest
            → OnOk result (to_hear self.new (S.state site.new) ≡ to_hear self.old (S.state site.old)) }
        ensures end { IsTrue (S.state site.old).honest → HasEnded self.old (S.state site.old)
            → IfOk result (λ some. some ≡ false → (S.state site.new).input.left ≡ []) }
        ensures count { IsTrue (S.state site.old).honest
            → OnOk result (total self.new (S.state site.new) ≡ total self.old (S.state site.old)) }
        ensures cut_off { IsTrue (S.state site.old).honest
            → IfErr result (λ fault. CutsOff fault (total self.old (S.state site.old))
            (to_hear self.old (S.state site.old)) (S.state site.new).input.left) }
        ensures going { OnErr result (self.old.ended ≡ false) }
        ensures same { IsTrue (S.state site.old).honest → HearsOnly (S.state site.old) (S.state site.new) }
        ensures takes { IsTrue (S.state site.old).honest
            → TakesWithin 1 self.old (S.state site.old) (S.state site.new) }
        ensures preserves { Preserves (S.state site.old) (S.state site.new) }
        ensures input { result ≡ Err Fault.Input
            → Rose (S.state site.old).input_faults (S.state site.new).input_faults }
        ensures faults { HearFaults result (S.state site.old) (S.state site.new) }
    {
        if self.from < self.to {
            return Ok(true);
        }
        if self.ended {
            return Ok(false);
        }
        if self.taken >= LIMIT {
            return self.take_past_limit(site);
        }
        let room = (LIMIT - self.taken).min(PIECE as u64) as usize;
        let Ok(count) = site.take(&mut self.buffer[..room]) else {
            return Err(Fault::Input);
        };
        self.from = 0;
        self.to = count;
        self.taken += count as u64;
        self.ended = count == 0;
        Ok(count > 0)
    }

    // Gathers what was taken of a line, and answers whether its newline was there.
    fn gather(&mut self, line: &mut ArrayVec<u8, LONG>) -> bool
        requires source { IsSource self.old }
        requires some { self.old.from < self.old.to }
        ensures source { IsSource self.new }
        ensures part { HearsPart result (pending self.old) (pending self.new) line.old.items line.new.items }
        ensures ended { self.new.ended ≡ self.old.ended }
        ensures taken { self.new.taken ≡ self.old.taken }
    {
        match gather(&self.buffer[self.from..self.to], line) {
            None => {
                self.from = self.to;
                false
            }
            Some(newline) => {
                self.from += newline + 1;
                true
            }
        }
    }

    /// The next line, without its newline, in place of what stands in the line that is handed in. Nothing changes but
    /// the input. A line of more than 1,026 octets is Long; no more of it is taken once 1,027 were heard. Where taking
    /// fails, or goes past the limit, the octets of an unfinished line are lost.
    pub fn next<S: Site>(
        &mut self,
        site: &mut S,
        line: &mut ArrayVec<u8, LONG>,
    ) -> Result<Heard, Fault>
        requires { IsSource self.old }
        ensures source { IsSource self.new }
        ensures heard { IsTrue (S.state site.old).honest → HasEnded self.old (S.state site.old)
            → IfOk result (λ heard. Hears heard line.new.items self.old.ended self.new.ended
            (to_hear self.old (S.state site.old)) (to_hear self.new (S.state site.new))) }
        ensures ended { IsTrue (S.state site.old).honest → HasEnded self.old (S.state site.old)
            → OnOk result (HasEnded self.new (S.state site.new)) }
        ensures count { IsTrue (S.state site.old).honest
            → OnOk result (total self.new (S.state site.new) ≡ total self.old (S.state site.old)) }
        ensures cut_off { IsTrue (S.state site.old).honest → HasEnded self.old (S.state site.old)
            → IfErr result (λ fault. IsCutOff fault self.old.ended (total self.old (S.state site.old))
            (to_hear self.old (S.state site.old)) (S.state site.new).input.left) }
        ensures same { IsTrue (S.state site.old).honest → HearsOnly (S.state site.old) (S.state site.new) }
        ensures takes { IsTrue (S.state site.old).honest → HasEnded self.old (S.state site.old)
            → TakesWithin long self.old (S.state site.old) (S.state site.new) }
        ensures preserves { Preserves (S.state site.old) (S.state site.new) }
        ensures input { result ≡ Err Fault.Input
            → Rose (S.state site.old).input_faults (S.state site.new).input_faults }
        ensures faults { HearFaults result (S.state site.old) (S.state site.new) }
    {
        line.clear();
        for _piece in 0..LIMIT + 1 {
            match self.fill(site) {
                Err(fault) => return Err(fault),
                Ok(false) => {
                    if line.is_empty() {
                        return Ok(Heard::End);
                    }
                    return Ok(Heard::Line);
                }
                Ok(true) => {
                    let whole = self.gather(line);
                    if line.is_full() {
                        return Ok(Heard::Long);
                    }
                    if whole {
                        return Ok(Heard::Line);
                    }
                }
            }
        }
        Err(Fault::Limit)
    }
}
