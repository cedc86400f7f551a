ghost use Rattle.std.specs.Prelude.{◌≡◌, ◌≤◌, length, IfOk, IfErr, ℕ, List, ◌↔◌, IsTrue, replicate};
ghost use Rattle.std.specs.Int.{w32, w64};
ghost use Rattle.log_records.specs.Spelling.{used_by, IsBlock, IsSpelledAt};
ghost use Rattle.log_records.specs.declared.log_record.LogRecord.{LogRecord};
ghost use Rattle.log_records.specs.Reading.{Gives, number_at, slot_at, value_at, update_at, clr_at, commit_at, end_at};
ghost use Rattle.log_records.specs.Reading.{record_at};

use crate::BLOCK_LEN;
use crate::codec::BadRecord;
use crate::log_record::LogRecord;
use byte_fields::{VALUE_MAX, get_u16, get_u32, get_u64};
use record_model::Octets;

// Each of these reads what stands at the front of octets, and hands back the octets behind it.

fn u32_of(bytes: &[u8]) -> Result<(u32, &[u8]), BadRecord>
    ensures { Gives (λ x. (x.0, x.1.now)) result (number_at w32 bytes.now) }
{
    if bytes.len() < 4 {
        return Err(BadRecord);
    }
    Ok((get_u32(bytes, 0), &bytes[4..]))
}

fn u64_of(bytes: &[u8]) -> Result<(u64, &[u8]), BadRecord>
    ensures { Gives (λ x. (x.0, x.1.now)) result (number_at w64 bytes.now) }
{
    if bytes.len() < 8 {
        return Err(BadRecord);
    }
    Ok((get_u64(bytes, 0), &bytes[8..]))
}

#[tactic(auto, unfolding(crate::specs::Reading::slot_at))]
fn slot_of(bytes: &[u8]) -> Result<(u8, &[u8]), BadRecord>
    ensures { Gives (λ x. (x.0, x.1.now)) result (slot_at bytes.now) }
{
    match bytes {
        [] => Err(BadRecord),
        [slot, rest @ ..] => {
            if *slot < 32 {
                Ok((*slot, rest))
            } else {
                Err(BadRecord)
            }
        }
    }
}

#[tactic(auto, unfolding(crate::specs::Reading::value_at))]
fn value_of(bytes: &[u8]) -> Result<(Option<Octets>, &[u8]), BadRecord>
    ensures { Gives (λ x. (x.0, x.1.now)) result (value_at bytes.now) }
{
    match bytes {
        [] => Err(BadRecord),
        [0, rest @ ..] => Ok((None, rest)),
        [next, rest @ ..] => {
            let len = (*next - 1) as usize;
            if len > VALUE_MAX || rest.len() < len {
                return Err(BadRecord);
            }
            let (value, rest) = rest.split_at(len);
            let octets = Octets::from_slice(value).unwrap();
            Ok((Some(octets), rest))
        }
    }
}

#[tactic(auto, unfolding(crate::specs::Reading::update_at))]
fn update_of(bytes: &[u8]) -> Result<(LogRecord, &[u8]), BadRecord>
    ensures { Gives (λ x. (x.0, x.1.now)) result (update_at bytes.now) }
{
    let (txn, rest) = u64_of(bytes)?;
    let (prev, rest) = u64_of(rest)?;
    let (page, rest) = u32_of(rest)?;
    let (slot, rest) = slot_of(rest)?;
    let (before, rest) = value_of(rest)?;
    let (after, rest) = value_of(rest)?;
    Ok((
        LogRecord::Update {
            txn,
            prev,
            page,
            slot,
            before,
            after,
        },
        rest,
    ))
}

#[tactic(auto, unfolding(crate::specs::Reading::clr_at))]
fn clr_of(bytes: &[u8]) -> Result<(LogRecord, &[u8]), BadRecord>
    ensures { Gives (λ x. (x.0, x.1.now)) result (clr_at bytes.now) }
{
    let (txn, rest) = u64_of(bytes)?;
    let (prev, rest) = u64_of(rest)?;
    let (undo_next, rest) = u64_of(rest)?;
    let (page, rest) = u32_of(rest)?;
    let (slot, rest) = slot_of(rest)?;
    let (after, rest) = value_of(rest)?;
    Ok((
        LogRecord::Clr {
            txn,
            prev,
            undo_next,
            page,
            slot,
            after,
        },
        rest,
    ))
}

#[tactic(auto, unfolding(crate::specs::Reading::commit_at))]
fn commit_of(bytes: &[u8]) -> Result<(LogRecord, &[u8]), BadRecord>
    ensures { Gives (λ x. (x.0, x.1.now)) result (commit_at bytes.now) }
{
    let (txn, rest) = u64_of(bytes)?;
    let (number, rest) = u64_of(rest)?;
    Ok((LogRecord::Commit { txn, number }, rest))
}

#[tactic(auto, unfolding(crate::specs::Reading::end_at))]
fn end_of(bytes: &[u8]) -> Result<(LogRecord, &[u8]), BadRecord>
    ensures { Gives (λ x. (x.0, x.1.now)) result (end_at bytes.now) }
{
    let (txn, rest) = u64_of(bytes)?;
    Ok((LogRecord::End { txn }, rest))
}

#[tactic(auto, unfolding(crate::specs::Reading::record_at))]
fn record_of(bytes: &[u8]) -> Result<(LogRecord, &[u8]), BadRecord>
    ensures { Gives (λ x. (x.0, x.1.now)) result (record_at bytes.now) }
{
    match bytes {
        [] => Err(BadRecord),
        [kind, rest @ ..] => match *kind {
            1 => Ok((LogRecord::Begin, rest)),
            2 => update_of(rest),
            3 => clr_of(rest),
            4 => commit_of(rest),
            5 => end_of(rest),
            _ => Err(BadRecord),
        },
    }
}

/// The record whose spelling begins at a place and ends by a limit, and where it ends.
pub fn read_record(bytes: &[u8], at: usize, end: usize) -> Result<(LogRecord, usize), BadRecord>
    requires order { at ≤ end }
    requires inside { end ≤ length bytes.now }
    ensures found { IfOk result (λ found. IsSpelledAt bytes.now at end found.0 found.1) }
    ensures bad { IfErr result (λ e. (rec : LogRecord) (stop : ℕ) → IsSpelledAt bytes.now at end rec stop → ⊥) }
{
    let (rec, rest) = record_of(&bytes[at..end])?;
    Ok((rec, end - rest.len()))
}

fn all_zero(octets: &[u8]) -> bool
    ensures { IsTrue result ↔ (octets.now ≡ replicate (length octets.now) 0) }
{
    for octet in octets {
        if *octet != 0 {
            return false;
        }
    }
    true
}

/// The offset just past the last record of a block's content, where the content is of the form: that
/// offset, one or more records up to it, and zeros behind.
pub fn check_block(content: &[u8]) -> Result<usize, BadRecord>
    requires { length content.now ≡ BLOCK_LEN }
    ensures found { IfOk result (λ used. (records : List LogRecord) × IsBlock content.now records
        × (used ≡ used_by records)) }
    ensures bad { IfErr result (λ e. (records : List LogRecord) → IsBlock content.now records → ⊥) }
{
    let used = get_u16(content, 0) as usize;
    if used < 3 || used > BLOCK_LEN {
        return Err(BadRecord);
    }
    let mut at = 2;
    while at < used {
        let (_rec, end) = read_record(content, at, used)?;
        at = end;
    }
    if all_zero(&content[used..]) {
        Ok(used)
    } else {
        Err(BadRecord)
    }
}
