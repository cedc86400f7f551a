use crate::table::{blank, carry_out, set_value, tidy};
use name_table::{NameAnswer, Probe};
use record_model::{Octets, next};
use std::alloc::AllocError;

// What a tidy changes: the record of the entry that moves, and that of the tombstone that is freed.
const MOVES: [(Option<u32>, Option<u32>); 4] = [
    (Some(16), None),
    (Some(17), None),
    (None, Some(17)),
    (None, None),
];

// Three names have their home in the last of 16 buckets. When the first is taken out, the others move back in turn.
#[test]
fn moves_back_around_the_end(rt: HostRuntime) -> Result<(), AllocError> {
    let mut table = blank(32, rt.alloc())?;
    for octet in [0, 12, 24] {
        assert!(rt; carry_out(Probe::put(&[octet], &[1], 16), &mut table).is_some());
    }
    assert!(rt; carry_out(Probe::remove(&[0], 16), &mut table).is_some());
    let mut from = 14;
    for (moved, freed) in &MOVES {
        if let Some(tidied) = tidy(from, 16, &mut table) {
            assert!(rt; tidied.moved == *moved && tidied.freed == *freed);
            from = tidied.from;
        }
    }
    assert!(rt; from == 2);
    Ok(())
}

// Behind the tombstone there is an octet that is no bucket's form.
#[test]
fn nothing_before_a_strange_bucket(rt: HostRuntime) -> Result<(), AllocError> {
    let mut table = blank(32, rt.alloc())?;
    set_value(&mut table, 20, Octets::from_slice(&[]));
    set_value(&mut table, 21, Octets::from_slice(&[5]));
    match tidy(0, 16, &mut table) {
        Some(tidied) => assert!(rt;
            tidied.moved.is_none() && tidied.freed.is_none() && tidied.from == 5
        ),
        None => assert!(rt; false),
    }
    Ok(())
}

const BUCKETS: u32 = 1024;

const NAMES: usize = 512;

const REPLACED: u32 = 20_000;

// The name of this number, whose value is the same octets.
fn name_of(number: u32) -> [u8; 4] {
    number.to_be_bytes()
}

fn put(number: u32, table: &mut [Option<Octets>]) -> bool {
    let name = name_of(number);
    matches!(
        carry_out(Probe::put(&name, &name, BUCKETS), table),
        Some((NameAnswer::Done, _))
    )
}

fn remove(number: u32, table: &mut [Option<Octets>]) -> bool {
    let name = name_of(number);
    matches!(
        carry_out(Probe::remove(&name, BUCKETS), table),
        Some((NameAnswer::Done, _))
    )
}

// Whether the name is found with its value.
fn is_there(number: u32, table: &mut [Option<Octets>]) -> bool {
    let name = name_of(number);
    match carry_out(Probe::find(&name, BUCKETS), table) {
        Some((NameAnswer::Found(value), _)) => value.as_slice() == name.as_slice(),
        _ => false,
    }
}

// How many values are read until the name isn't found.
fn reads_of_a_miss(number: u32, table: &mut [Option<Octets>]) -> u32 {
    match carry_out(Probe::find(&name_of(number), BUCKETS), table) {
        Some((NameAnswer::Nothing, reads)) => reads.min(BUCKETS),
        _ => BUCKETS,
    }
}

// How many records have an entry.
fn entries(table: &[Option<Octets>]) -> u32 {
    let mut count = 0u32;
    for value in table {
        if let Some(octets) = value
            && !octets.as_slice().is_empty()
        {
            count = count.saturating_add(1);
        }
    }
    count
}

// Of 1,024 buckets half have a name. When 20,000 names were replaced by others, with one tidy each, the names are those
// of the model, and a miss reads fewer than eight values in the mean.
#[test]
fn names_come_and_go(rt: HostRuntime) -> Result<(), AllocError> {
    let mut table = blank(2 * BUCKETS, rt.alloc())?;
    let mut there = [0u32; NAMES];
    for place in 0..NAMES {
        there[place] = place as u32;
        assert!(rt; put(place as u32, &mut table));
    }
    let (mut x, mut from) = (1, 0);
    for number in 512..512 + REPLACED {
        x = next(x);
        let place = (x >> 33) as usize % NAMES;
        assert!(rt; remove(there[place], &mut table));
        assert!(rt; put(number, &mut table));
        there[place] = number;
        if let Some(tidied) = tidy(from, BUCKETS, &mut table) {
            from = tidied.from;
        }
    }
    for number in there {
        assert!(rt; is_there(number, &mut table));
    }
    assert!(rt; entries(&table) == 512);
    let mut reads = 0u32;
    for number in 30_000..31_000 {
        reads = reads.saturating_add(reads_of_a_miss(number, &mut table));
    }
    assert!(rt; reads < 8_000);
    Ok(())
}
