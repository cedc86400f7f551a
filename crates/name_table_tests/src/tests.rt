use crate::table::{blank, carry_out, set_value};
use name_table::{NAME_MAX, NameAnswer, Probe, VALUE_MAX};
use record_model::Octets;
use std::alloc::AllocError;

// A line about a name.
enum Line {
    Find(&'static [u8]),
    Put(&'static [u8], &'static [u8]),
    Remove(&'static [u8]),
}

// What it is to be answered.
enum Wanted {
    Found(&'static [u8]),
    Nothing,
    Done,
    Strange(u32),
    NamesFull(u32),
}

// The tables have 32 records, so 16 buckets.
const BUCKETS: u32 = 16;

fn begin(line: &Line) -> Option<Probe> {
    let name = match line {
        Line::Find(name) => *name,
        Line::Put(name, _) => *name,
        Line::Remove(name) => *name,
    };
    if name.is_empty() || name.len() > NAME_MAX {
        return None;
    }
    match line {
        Line::Find(_) => Some(Probe::find(name, BUCKETS)),
        Line::Put(_, value) if value.len() <= VALUE_MAX => Some(Probe::put(name, value, BUCKETS)),
        Line::Put(..) => None,
        Line::Remove(_) => Some(Probe::remove(name, BUCKETS)),
    }
}

fn is_wanted(reached: &NameAnswer, wanted: &Wanted) -> bool {
    match (reached, wanted) {
        (NameAnswer::Found(value), Wanted::Found(octets)) => value.as_slice() == *octets,
        (NameAnswer::Nothing, Wanted::Nothing) => true,
        (NameAnswer::Done, Wanted::Done) => true,
        (NameAnswer::Strange(number), Wanted::Strange(record)) => *number == *record,
        (NameAnswer::NamesFull(buckets), Wanted::NamesFull(many)) => *buckets == *many,
        _ => false,
    }
}

// Whether the line is answered so, when the probe has asked so often.
fn plays(line: &Line, table: &mut [Option<Octets>], wanted: &Wanted, asks: u32) -> bool {
    let Some(probe) = begin(line) else {
        return false;
    };
    match carry_out(probe, table) {
        Some((reached, asked)) => asked == asks && is_wanted(&reached, wanted),
        None => false,
    }
}

const AB: &[u8] = b"ab";

const ONE: &[u8] = &[1];

const TWO: &[u8] = &[2];

// A name is put, found, put again, taken out, and then not found.
const ONE_NAME: [(Line, Wanted, u32); 8] = [
    (Line::Put(AB, ONE), Wanted::Done, 2),
    (Line::Find(AB), Wanted::Found(ONE), 1),
    (Line::Find(b"ac"), Wanted::Nothing, 1),
    (Line::Put(AB, TWO), Wanted::Done, 2),
    (Line::Find(AB), Wanted::Found(TWO), 1),
    (Line::Remove(AB), Wanted::Done, 2),
    (Line::Find(AB), Wanted::Nothing, 2),
    (Line::Remove(AB), Wanted::Nothing, 2),
];

#[test]
fn one_name(rt: HostRuntime) -> Result<(), AllocError> {
    let mut table = blank(2 * BUCKETS, rt.alloc())?;
    for (line, wanted, asks) in &ONE_NAME {
        assert!(rt; plays(line, &mut table, wanted, *asks));
    }
    Ok(())
}

// Sixteen names fill the buckets, and a seventeenth has no room until one is taken out.
const SEVENTEEN_NAMES: [(Line, Wanted, u32); 20] = [
    (Line::Put(&[0], ONE), Wanted::Done, 2),
    (Line::Put(&[1], ONE), Wanted::Done, 2),
    (Line::Put(&[2], ONE), Wanted::Done, 2),
    (Line::Put(&[3], ONE), Wanted::Done, 2),
    (Line::Put(&[4], ONE), Wanted::Done, 2),
    (Line::Put(&[5], ONE), Wanted::Done, 2),
    (Line::Put(&[6], ONE), Wanted::Done, 2),
    (Line::Put(&[7], ONE), Wanted::Done, 2),
    (Line::Put(&[8], ONE), Wanted::Done, 2),
    (Line::Put(&[9], ONE), Wanted::Done, 2),
    (Line::Put(&[10], ONE), Wanted::Done, 2),
    (Line::Put(&[11], ONE), Wanted::Done, 2),
    (Line::Put(&[12], ONE), Wanted::Done, 5),
    (Line::Put(&[13], ONE), Wanted::Done, 2),
    (Line::Put(&[14], ONE), Wanted::Done, 3),
    (Line::Put(&[15], ONE), Wanted::Done, 8),
    (Line::Put(&[16], ONE), Wanted::NamesFull(16), 16),
    (Line::Remove(&[0]), Wanted::Done, 2),
    (Line::Put(&[16], TWO), Wanted::Done, 17),
    (Line::Find(&[16]), Wanted::Found(TWO), 7),
];

#[test]
fn seventeen_names(rt: HostRuntime) -> Result<(), AllocError> {
    let mut table = blank(2 * BUCKETS, rt.alloc())?;
    for (line, wanted, asks) in &SEVENTEEN_NAMES {
        assert!(rt; plays(line, &mut table, wanted, *asks));
    }
    Ok(())
}

// The name's home, in the last record, has an octet that is no bucket's form.
#[test]
fn strange_home(rt: HostRuntime) -> Result<(), AllocError> {
    let mut table = blank(2 * BUCKETS, rt.alloc())?;
    if let Some(octets) = Octets::from_slice(&[5]) {
        set_value(&mut table, 31, Some(octets));
    }
    assert!(rt; plays(&Line::Find(&[0]), &mut table, &Wanted::Strange(31), 1));
    assert!(rt; plays(&Line::Put(&[0], ONE), &mut table, &Wanted::Strange(31), 1));
    assert!(rt; plays(&Line::Remove(&[0]), &mut table, &Wanted::Strange(31), 1));
    Ok(())
}
