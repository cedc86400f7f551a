// The room in pages.
ghost use Rattle.std.specs.Prelude.{◌≡◌, ◌↔◌, ◌+◌, ◌*◌, ◌/◌, ◌<◌, ◌≤◌, ◌==◌, ℕ, List, length};
ghost use Rattle.std.specs.Prelude.{IsTrue, IfOk, [], ◌∷◌, ◌++◌};
ghost use Rattle.std.specs.Prelude.{option_copied, max, replicate, slice_index_or, slice_set, sum_by, if◌then◌else◌};
ghost use Rattle.std.specs.List.{range_with_len};
ghost use Rattle.record_model.specs.State.{Content, Write, length_of, table_with};
ghost use Rattle.net_lines.specs.Nets.{AreWritable, AreLengths, IsWritable, HasPageRoom, HasRoomFor};
ghost use Rattle.net_lines.specs.Nets.{needed_in, while_writing};

use log_replay::Net;
use std::alloc::{AllocError, Global};
use std::marker::Model;

/// How many records a page has.
const RECORDS: u32 = 32;

/// How many octets the values of a page have room for.
const PAGE_ROOM: u32 = 3_952;

/// How many octets each record of a table may come to have while a session writes: those of its value, or of a longer
/// one that the session has written.
#[derive(Drop)]
pub struct Room {
    pages: u32,
    lengths: Vec<u8>,
}

impl Model for Room {
    ghost use Rattle.std.specs.Prelude.{◌≡◌, ◌*◌, ◌≤◌, List, ℕ, length};

    ghost Value = { List ℕ };

    ghost view = { λ r. r.lengths.items };

    ghost invariant = { λ r. (length r.lengths.items ≡ 32 * r.pages) × (r.pages ≤ 65536) };
}

// How many octets a value has, none where there is none.
fn octets_of(value: Option<&[u8]>) -> u8
    requires { length_of (option_copied value) ≤ 200 }
    ensures { result ≡ length_of (option_copied value.entry) }
{
    match value {
        Some(octets) => octets.len() as u8,
        None => 0,
    }
}

// What a record may come to have, where so many octets may be written there.
fn with_written(there: u8, written: bool, octets: u8) -> u8
    ensures { result ≡ (if written then max there octets else there) }
{
    if written { there.max(octets) } else { there }
}

impl Room {
    /// Of a database of so many pages that was never written.
    pub fn blank(alloc: Global, pages: u32) -> Result<Room, AllocError>
        requires { pages ≤ 65536 }
        ensures { IfOk result (λ room. room ≡ replicate (32 * pages) 0) }
    {
        let records = (RECORDS * pages) as usize;
        let mut lengths: Vec<u8> = Vec::with_capacity(alloc, records)?;
        for _count in 0..records {
            lengths.push(0)?;
        }
        Ok(Room { pages, lengths })
    }

    // How many octets the records of a record's page need where it gets a value of this length.
    fn need(&self, number: u32, octets: u8) -> u32
        requires { number < length self.now }
        ensures whole { (pages : ℕ) × (length self.now ≡ 32 * pages) }
        ensures need { result ≡ sum_by (needed_in self.now number octets) (range_with_len (32 * (number / 32)) 32) }
    {
        let first = RECORDS * (number / RECORDS);
        let mut need: u32 = 0;
        for slot in 0..RECORDS {
            let place = first + slot;
            need += u32::from(with_written(self.lengths[place as usize], number == place, octets));
        }
        need
    }

    // Whether the record's page has room for what the record is to have.
    fn has_room(&self, number: u32, value: Option<&[u8]>) -> bool
        requires { IsWritable (length self.now) (number, option_copied value) }
        ensures { (table : List Content) (before : List Write) → AreLengths (while_writing table before) self.now
            → (IsTrue result ↔ HasRoomFor table before number (option_copied value.entry)) }
    {
        match value {
            None => true,
            Some(octets) => self.need(number, octets.len() as u8) <= PAGE_ROOM,
        }
    }

    // The session has written a record.
    fn grow(&mut self, number: u32, octets: u8)
        requires { number < length self.old }
        ensures { self.new ≡ slice_set self.old number (max (slice_index_or self.old number 0) octets) }
    {
        let place = number as usize;
        self.lengths[place] = self.lengths[place].max(octets);
    }

    /// Whether the pages have room for each write of a net, one after the other. Where they have they are as while the
    /// session stands that makes them.
    pub fn judge(&mut self, net: &Net) -> bool
        requires { AreWritable (length self.old) net.now }
        ensures size { length self.new ≡ length self.old }
        ensures room { (table : List Content) → AreLengths (while_writing table []) self.old
            → (IsTrue result ↔ HasPageRoom table net.now) }
        ensures lengths { (table : List Content) → AreLengths (while_writing table []) self.old
            → IsTrue result → AreLengths (while_writing table net.now) self.new }
    {
        for place in 0..net.len() {
            let number = net.number(place);
            let value = net.value(place);
            if !self.has_room(number, value) {
                return false;
            }
            self.grow(number, octets_of(value));
        }
        true
    }

    // The record has a value of this length, or none.
    fn set(&mut self, number: u32, octets: u8)
        requires { number < length self.old }
        ensures { self.new ≡ slice_set self.old number octets }
    {
        self.lengths[number as usize] = octets;
    }

    /// The session has committed the net.
    pub fn close(&mut self, net: &Net)
        requires { AreWritable (length self.old) net.now }
        ensures size { length self.new ≡ length self.old }
        ensures lengths { (table : List Content) → AreLengths (while_writing table net.now) self.old
            → AreLengths (while_writing (table_with table net.now) []) self.new }
    {
        for place in 0..net.len() {
            self.set(net.number(place), octets_of(net.value(place)));
        }
    }
}
