// What a site in memory has to hear, and when it was asked for.
ghost use Rattle.std.specs.Prelude.{◌≡◌, ◌≤◌, ◌<◌, ◌+◌, ◌^◌, ◌↔◌, ◌++◌, ◌∷◌, [], length, take, drop, false, OnOk};
ghost use Rattle.std.specs.Prelude.{OnErr, IsOk, IfOk, vec_len, vec_capacity};

use site::Take;
use std::alloc::{AllocError, Global};

/// Moves the next octets into the front of `into`.
fn hear(input: &[u8], heard: usize, into: &mut [u8]) -> usize
    requires inside { heard ≤ length input.now }
    requires some { 0 < length into.old }
    ensures moved { drop heard input.now ≡ take result into.new ++ drop (heard + result) input.now }
    ensures end { (result ≡ 0) ↔ (drop heard input.now ≡ []) }
    ensures at_most { result ≤ length into.old }
    ensures fits { heard + result ≤ length input.now }
{
    let count = into.len().min(input.len() - heard);
    into[..count].copy_from_slice(&input[heard..heard + count]);
    count
}

fn note(takes: &mut Vec<Take>, take: Take)
    requires { vec_len takes.old < vec_capacity takes.old }
    ensures noted { takes.new.items ≡ takes.old.items ++ take ∷ [] }
    ensures capacity { vec_capacity takes.old ≤ vec_capacity takes.new }
{
    let _noted = takes.push(take);
}

/// The octets to hear, how many of them were heard, and where they were asked for, with room for a take at each place.
#[derive(Drop)]
pub struct Hearing {
    octets: Vec<u8>,
    heard: usize,
    asked: bool,
    takes: Vec<Take>,
    ghost inside: { heard ≤ length octets.items },
    ghost counted: { length takes.items ≤ heard + 1 },
    ghost fresh: { asked ≡ false → length takes.items ≤ heard },
    ghost room: { length octets.items + 1 ≤ vec_capacity takes },
}

impl Hearing {
    ghost use Rattle.site.specs.State.{no_input};
    ghost use Rattle.site.specs.Calls.{Notes};
    ghost use Rattle.mem_site.specs.MemState.{input_of, fed};

    /// Nothing to hear. The one error is want of memory.
    pub fn new(alloc: Global) -> Result<Hearing, AllocError>
        ensures { IfOk result (λ hearing. input_of hearing ≡ no_input) }
    {
        Ok(Hearing {
            octets: Vec::new(alloc),
            heard: 0,
            asked: false,
            takes: Vec::with_capacity(alloc, 1)?,
        })
    }

    /// Nothing to hear, in the memory of this.
    pub fn renewed(self) -> Hearing
        ensures { input_of result ≡ no_input }
    {
        let mut octets = self.octets;
        let mut takes = self.takes;
        octets.clear();
        takes.clear();
        Hearing {
            octets,
            heard: 0,
            asked: false,
            takes,
        }
    }

    /// Octets more to hear.
    pub fn feed(&mut self, octets: &[u8]) -> Result<(), AllocError>
        ensures ok { OnOk result (input_of self.new ≡ fed octets.now (input_of self.old)) }
        ensures err { OnErr result (input_of self.new ≡ input_of self.old) }
    {
        let Some(places) = self.octets.len().checked_add(octets.len()) else {
            return Err(AllocError);
        };
        let Some(room) = places.checked_add(1) else {
            return Err(AllocError);
        };
        self.takes.reserve(room)?;
        self.octets.extend_from_slice(octets)?;
        Ok(())
    }

    /// The first take at each place, oldest first.
    pub fn takes(&self) -> &[Take]
        ensures { result.now ≡ (input_of self.now).takes }
    {
        &self.takes
    }

    /// Moves the next octets into the front of `into`, so many octets being told, and answers how many.
    pub fn take(&mut self, told: usize, into: &mut [u8]) -> usize
        requires { 0 < length into.old }
        ensures moved { (input_of self.old).left ≡ take result into.new ++ (input_of self.new).left }
        ensures end { (result ≡ 0) ↔ ((input_of self.old).left ≡ []) }
        ensures at_most { result ≤ length into.old }
        ensures notes { Notes result told (input_of self.old) (input_of self.new) }
    {
        if !self.asked {
            note(
                &mut self.takes,
                Take {
                    heard: self.heard,
                    told,
                },
            );
        }
        let count = hear(&self.octets, self.heard, into);
        self.heard += count;
        self.asked = count == 0;
        count
    }
}
