ghost use Rattle.std.specs.Prelude.{◌≡◌, ◌↔◌, ◌<◌, ◌==◌, ℕ, nat_eq, max, [], ◌∷◌, ◌++◌, length};
ghost use Rattle.std.specs.Prelude.{IsTrue, IsSome, IfSome, None};
ghost use Rattle.std.specs.Prelude.{OnOk, OnErr, slice_set, replicate, if◌then◌else◌};
ghost use Rattle.indexmap.specs.IndexMap.{get};
ghost use Rattle.footprints.specs.Longest.{of_session, longest, lengths, footprint, need, IsGreatest, IsOnlyOf, Drops};

use crate::footprint::Footprint;
use crate::stack::Stack;
use indexmap::IndexMap;
use std::alloc::{AllocError, Global};
use std::marker::Model;

/// How many sessions there are, numbered from 0.
const SESSIONS: usize = 8;

/// How many records a page has.
const RECORDS: u32 = 32;

/// The footprints of the active sessions, those of each session in the order in which it wrote.
#[derive(Drop)]
pub struct Footprints {
    // How long the longest value of each record is that has a footprint.
    longest: IndexMap<u32, u8>,
    stacks: [Stack; SESSIONS],
}

impl Model for Footprints {
    ghost use Rattle.std.specs.Prelude.{List};
    ghost use Rattle.footprints.specs.declared.footprint.Footprint.{Footprint};
    ghost use Rattle.footprints.specs.Stacks.{AreStacks};

    ghost Value = { List (List Footprint) };

    ghost view = { λ f. f.stacks };

    ghost invariant = { λ f. AreStacks f.longest f.stacks };
}

impl Footprints {
    /// No session has a footprint.
    pub fn new(alloc: Global) -> Footprints
        ensures { result ≡ replicate 8 [] }
    {
        Footprints {
            longest: IndexMap::new(alloc),
            stacks: [
                Stack::new(alloc),
                Stack::new(alloc),
                Stack::new(alloc),
                Stack::new(alloc),
                Stack::new(alloc),
                Stack::new(alloc),
                Stack::new(alloc),
                Stack::new(alloc),
            ],
        }
    }

    /// The length of the longest value that footprints on the record tell of, and none where it has no footprint.
    pub fn longest(&self, number: u32) -> Option<usize>
        ensures longest { result ≡ longest self.now number }
        ensures greatest { IsGreatest (lengths self.now number) result }
        ensures small { IfSome result (λ length. length < 256) }
    {
        let length = self.longest.get(&number)?;
        Some(usize::from(*length))
    }

    /// A session has written a record. Where memory is wanting nothing is changed.
    pub fn write(&mut self, session: u32, footprint: Footprint) -> Result<(), AllocError>
        requires session { session < 8 }
        requires alone { IsOnlyOf self.old session footprint.number }
        ensures ok { OnOk result (self.new
            ≡ slice_set self.old session (of_session self.old session ++ footprint ∷ [])) }
        ensures err { OnErr result (self.new ≡ self.old) }
    {
        // What wants memory comes first.
        self.longest.reserve(1)?;
        let before = self.longest.get(&footprint.number).copied();
        self.stacks[session as usize].push(footprint, before)?;
        let length = footprint
            .stood
            .max(footprint.written)
            .max(before.unwrap_or(0));
        let Ok(_) = self.longest.insert(footprint.number, length) else {
            unreachable!();
        };
        Ok(())
    }

    /// Whether no session has a footprint.
    pub fn is_empty(&self) -> bool
        ensures { IsTrue result ↔ ((number : ℕ) → longest self.now number ≡ None) }
    {
        self.longest.is_empty()
    }

    /// The session's last footprint goes, where it has one.
    pub fn take_back(&mut self, session: u32)
        requires { session < 8 }
        ensures { Drops self.old self.new session }
    {
        let Some(last) = self.stacks[session as usize].pop() else {
            return;
        };
        put(&mut self.longest, last.footprint.number, last.before);
    }

    /// Whether the session has no footprint.
    fn has_none(&self, session: u32) -> bool
        requires { session < 8 }
        ensures none { IsTrue result ↔ (of_session self.now session ≡ []) }
        ensures eight { length self.now ≡ 8 }
        ensures owned { (number : ℕ) → (owner : ℕ) × IsOnlyOf self.now owner number }
    {
        self.stacks[session as usize].is_empty()
    }

    /// The session has ended: its footprints go. Each record had footprints of one session at most.
    pub fn end(&mut self, session: u32)
        requires { session < 8 }
        ensures gone { self.new ≡ slice_set self.old session [] }
        ensures owned { (number : ℕ) → (owner : ℕ) × IsOnlyOf self.old owner number }
    {
        let _owned = self.has_none(session);
        while !self.has_none(session) {
            self.take_back(session);
        }
    }

    /// How many octets a record's value has at most, whichever sessions are undone, where it has so many now.
    fn footprint(&self, number: u32, now: u8) -> u32
        ensures octets { result ≡ footprint self.now number now }
        ensures small { result < 256 }
    {
        match self.longest.get(&number) {
            Some(length) => u32::from(*length),
            None => u32::from(now),
        }
    }

    /// How many octets the values of a page's 32 records need at most, whichever sessions are undone, where they have
    /// these lengths now and the one in a slot is to have a value of this length.
    pub fn need(&self, page: u32, now: &[u8; 32], slot: u32, length: u8) -> u32
        requires page { page < 65536 }
        requires slot { slot < 32 }
        ensures { result ≡ need self.now page now.now slot length }
    {
        let mut need = 0;
        for place in 0..RECORDS {
            let octets = self.footprint(RECORDS * page + place, now[place as usize]);
            need += if_written(octets, place == slot, length);
        }
        need
    }
}

/// What a record needs, by what it needs without the new value and whether that is to be written there.
fn if_written(octets: u32, written: bool, length: u8) -> u32
    requires { octets < 256 }
    ensures octets { result ≡ (if written then max octets length else octets) }
    ensures small { result < 256 }
{
    if written {
        octets.max(u32::from(length))
    } else {
        octets
    }
}

/// A record that has a length gets this one, or none.
fn put(lengths: &mut IndexMap<u32, u8>, number: u32, length: Option<u8>)
    requires { IsSome (get nat_eq lengths.old number) }
    ensures { (n : ℕ) → get nat_eq lengths.new n ≡ (if number == n then length else get nat_eq lengths.old n) }
{
    match length {
        Some(length) => {
            let Ok(_) = lengths.insert(number, length) else {
                unreachable!();
            };
        }
        None => {
            lengths.swap_remove(&number);
        }
    }
}
