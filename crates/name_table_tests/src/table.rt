use name_table::{Ask, NameAnswer, Probe, TidyAsk, Tidying};
use record_model::Octets;
use std::alloc::{AllocError, Global};

// A table of so many records without values.
pub fn blank(records: u32, alloc: Global) -> Result<Vec<Option<Octets>>, AllocError> {
    let mut table = Vec::new(alloc);
    for _ in 0..records {
        table.push(None)?;
    }
    Ok(table)
}

pub fn value_of(table: &[Option<Octets>], number: u32) -> Option<Octets> {
    match table.get(number as usize) {
        Some(Some(octets)) => Octets::from_slice(octets.as_slice()),
        _ => None,
    }
}

pub fn set_value(table: &mut [Option<Octets>], number: u32, value: Option<Octets>) {
    if let Some(slot) = table.get_mut(number as usize) {
        *slot = value;
    }
}

// The answer of a probe over the table, with the write made, and how often it asked for something before it.
pub fn carry_out(mut probe: Probe, table: &mut [Option<Octets>]) -> Option<(NameAnswer, u32)> {
    for asked in 0..2000 {
        match probe.ask() {
            Ask::Read(number) => probe.told(value_of(table, number)),
            Ask::Write(number, value) => {
                set_value(table, number, Some(value));
                probe.written();
            }
            Ask::End(reached) => return Some((reached, asked)),
        }
    }
    None
}

// What a tidy that looks from there has changed, the tombstone last, and where the next one looks from.
#[derive(Drop)]
pub struct Tidied {
    pub moved: Option<u32>,
    pub freed: Option<u32>,
    pub from: u32,
}

pub fn tidy(from: u32, buckets: u32, table: &mut [Option<Octets>]) -> Option<Tidied> {
    if buckets == 0 || buckets > 1024 {
        return None;
    }
    let mut tidying = Tidying::begin(from, buckets);
    let mut moved = None;
    let mut freed = None;
    for _ in 0..2000 {
        match tidying.ask() {
            TidyAsk::Read(number) => tidying.told(value_of(table, number)),
            TidyAsk::Move {
                entry,
                tombstone,
                octets,
            } => {
                set_value(table, tombstone, Some(octets));
                set_value(table, entry, Octets::from_slice(&[]));
                moved = Some(entry);
                tidying.changed();
            }
            TidyAsk::Free(number) => {
                set_value(table, number, None);
                freed = Some(number);
                tidying.changed();
            }
            TidyAsk::End { from, .. } => return Some(Tidied { moved, freed, from }),
        }
    }
    None
}
