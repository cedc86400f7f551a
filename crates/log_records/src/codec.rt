ghost use Rattle.std.specs.Prelude.{◌≡◌, ◌+◌, ◌≤◌, [], ◌∷◌, ◌++◌, length};
ghost use Rattle.std.specs.Int.{w32, w64, to_be_bytes};
ghost use Rattle.log_records.specs.Spelling.{spelling, content_spelling, IsShort, HasForm};
ghost use Rattle.log_records.specs.Writes.{Writes};

use crate::log_record::LogRecord;
use byte_fields::{VALUE_MAX, put_u32, put_u64};
use record_model::Octets;
use thiserror::Error;

/// The octets aren't those of a record, or of a block.
#[derive(Clone, Copy, Debug, PartialEq, Eq, Error)]
#[error("not a log record")]
pub struct BadRecord;

fn content_length(content: &Option<Octets>) -> usize
    requires { IsShort content.now }
    ensures exact { result ≡ length (content_spelling content.now) }
    ensures small { result ≤ VALUE_MAX + 1 }
{
    match content {
        None => 1,
        Some(value) => value.as_slice().len() + 1,
    }
}

/// How many octets the spelling of a record has.
#[tactic(auto, unfolding(crate::specs::Spelling::spelling))]
pub fn length(rec: &LogRecord) -> usize
    requires { HasForm rec.now }
    ensures { result ≡ length (spelling rec.now) }
{
    match rec {
        LogRecord::Begin => 1,
        LogRecord::Update { before, after, .. } => {
            22 + content_length(before) + content_length(after)
        }
        LogRecord::Clr { after, .. } => 30 + content_length(after),
        LogRecord::Commit { .. } => 17,
        LogRecord::End { .. } => 9,
    }
}

fn write_octets(octets: &[u8], into: &mut [u8], at: usize) -> usize
    requires { at + length octets.now ≤ length into.old }
    ensures { Writes into.old into.new at octets.now result }
{
    let end = at + octets.len();
    into[at..end].copy_from_slice(octets);
    end
}

fn write_u64(value: u64, into: &mut [u8], at: usize) -> usize
    requires { at + 8 ≤ length into.old }
    ensures { Writes into.old into.new at (to_be_bytes w64 value) result }
{
    put_u64(into, at, value);
    at + 8
}

fn write_u32(value: u32, into: &mut [u8], at: usize) -> usize
    requires { at + 4 ≤ length into.old }
    ensures { Writes into.old into.new at (to_be_bytes w32 value) result }
{
    put_u32(into, at, value);
    at + 4
}

// What the spelling of a record with a transaction begins with: its kind, and the transaction.
fn write_head(kind: u8, txn: u64, into: &mut [u8], at: usize) -> usize
    requires { at + 9 ≤ length into.old }
    ensures { Writes into.old into.new at (kind ∷ to_be_bytes w64 txn) result }
{
    let next = write_octets(&[kind], into, at);
    write_u64(txn, into, next)
}

// Where a record of the table stands.
fn write_place(page: u32, slot: u8, into: &mut [u8], at: usize) -> usize
    requires { at + 5 ≤ length into.old }
    ensures { Writes into.old into.new at (to_be_bytes w32 page ++ slot ∷ []) result }
{
    let next = write_u32(page, into, at);
    write_octets(&[slot], into, next)
}

#[tactic(auto, using(crate::proofs::WritesLemmas::writes_then))]
fn write_content(content: &Option<Octets>, into: &mut [u8], at: usize) -> usize
    requires fit { IsShort content.now }
    requires room { at + length (content_spelling content.now) ≤ length into.old }
    ensures { Writes into.old into.new at (content_spelling content.now) result }
{
    match content {
        None => write_octets(&[0], into, at),
        Some(value) => {
            let octets = value.as_slice();
            let next = write_octets(&[octets.len() as u8 + 1], into, at);
            write_octets(octets, into, next)
        }
    }
}

/// Writes the spelling of a record from a place on, and answers where it ends. All other octets
/// stay.
#[tactic(auto, using(crate::proofs::WritesLemmas::writes_then), unfolding(crate::specs::Spelling::spelling))]
pub fn write_record(rec: &LogRecord, into: &mut [u8], at: usize) -> usize
    requires fit { HasForm rec.now }
    requires room { at + length (spelling rec.now) ≤ length into.old }
    ensures { Writes into.old into.new at (spelling rec.now) result }
{
    match rec {
        LogRecord::Begin => write_octets(&[1], into, at),
        LogRecord::Update {
            txn,
            prev,
            page,
            slot,
            before,
            after,
        } => {
            let next = write_head(2, *txn, into, at);
            let next = write_u64(*prev, into, next);
            let next = write_place(*page, *slot, into, next);
            let next = write_content(before, into, next);
            write_content(after, into, next)
        }
        LogRecord::Clr {
            txn,
            prev,
            undo_next,
            page,
            slot,
            after,
        } => {
            let next = write_head(3, *txn, into, at);
            let next = write_u64(*prev, into, next);
            let next = write_u64(*undo_next, into, next);
            let next = write_place(*page, *slot, into, next);
            write_content(after, into, next)
        }
        LogRecord::Commit { txn, number } => {
            let next = write_head(4, *txn, into, at);
            write_u64(*number, into, next)
        }
        LogRecord::End { txn } => write_head(5, *txn, into, at),
    }
}
