// Steps over a site in memory: a test is a table of them, which one function plays.
use face::serve;
use mem_site::{Call, MemSite};
use site::{Dev, Geometry, Site};
use std::alloc::{AllocError, Global};
use std::test::Fail;
use top_call::face;

pub const STANDARD: Geometry = Geometry {
    pages: 16,
    groups: 8,
    blocks: 64,
};

pub const SMALL: Geometry = Geometry {
    pages: 16,
    groups: 8,
    blocks: 16,
};

// A step of a test.
#[derive(Clone, Copy)]
pub enum Step<'a> {
    // The site is a new one from now on, with blank devices of these sizes.
    New(Geometry),
    // A power cut with this seed: what was told is forgotten, and input that wasn't heard.
    Crash(u64),
    // The input goes on with this, once or so many times.
    Feed(&'a str),
    FeedMany(usize, &'a str),
    // The input goes on with so many lines that set record 3, to 197, 198, .. up to 247 octets 0x5A, again and again.
    FeedSets(usize),
    // The call of this kind that comes as the nth fails.
    Fail(Call, u64),
    // The nth tell takes so many octets at most.
    ShortTell(u64, usize),
    // An octet of a device is set, or some are written from a place on.
    Put(Dev, u64, u8),
    Write(Dev, u64, &'a [u8]),
    // The program is called with these words, a space between each two, and answers this status.
    Call(&'a str, u8),
    // It is called with `run 1` over this input, answers 0, and all that was told is this.
    Run(&'a str, &'a str),
    // The lines of this input are served, without any words, with the status 0, and all that was told is this.
    Serve(&'a str, &'a str),
    // All that was told is this, begins so, ends so, or has this length.
    Told(&'a str),
    Begins(&'a str),
    Ends(&'a str),
    Length(usize),
    // What was told has this from a place on, to its end, or so many times.
    Behind(usize, &'a str),
    Repeats(usize, usize, &'a str),
    // So many changes were made, and so many reads of a device.
    Changes(u64),
    Reads(Dev, u64),
    // A device has these octets from a place on; from one place to another it has zeros, or others too.
    Has(Dev, usize, &'a [u8]),
    Zeros(Dev, usize, usize),
    Filled(Dev, usize, usize),
}

// Calls the program with words that a line has, and answers its status. An empty line has none.
pub fn call(alloc: Global, site: &mut MemSite, line: &str) -> Result<u8, AllocError> {
    let mut words = Vec::new(alloc);
    if !line.is_empty() {
        for word in line.split(' ') {
            words.push(String::from_str(alloc, word)?)?;
        }
    }
    Ok(face(alloc, words.as_slice(), site))
}

fn feed_many(site: &mut MemSite, times: usize, input: &str) -> Result<bool, Fail> {
    for _time in 0..times {
        site.feed(input.as_bytes())?;
    }
    Ok(true)
}

// Feeds a line that sets record 3 to so many octets 0x5A.
fn feed_long_set(site: &mut MemSite, octets: usize) -> Result<(), Fail> {
    site.feed(b"set 3 ")?;
    for _octet in 0..octets {
        site.feed(b"5a")?;
    }
    site.feed(b"\n")?;
    Ok(())
}

fn feed_sets(site: &mut MemSite, lines: usize) -> Result<bool, Fail> {
    for line in 0..lines {
        feed_long_set(site, 201 + line % 47)?;
    }
    Ok(true)
}

fn fail(site: &mut MemSite, call: Call, nth: u64) -> Result<bool, Fail> {
    if nth < 1 {
        return Ok(false);
    }
    site.fail(call, nth)?;
    Ok(true)
}

fn tell_short(site: &mut MemSite, nth: u64, count: usize) -> Result<bool, Fail> {
    if nth < 1 || count < 1 {
        return Ok(false);
    }
    site.short_tell(nth, count)?;
    Ok(true)
}

// Sets an octet of a device, where it has the place.
fn put(site: &mut MemSite, dev: Dev, place: u64, octet: u8) -> Result<bool, Fail> {
    site.sync(dev)?;
    if place >= site.len(dev) {
        return Ok(false);
    }
    site.poke(dev, place, octet);
    Ok(true)
}

// Writes to a device, where it has the places, and syncs it.
fn write(site: &mut MemSite, dev: Dev, place: u64, octets: &[u8]) -> Result<bool, Fail> {
    let len = site.len(dev);
    if len < place || len - place < octets.len() as u64 {
        return Ok(false);
    }
    site.write_at(dev, place, octets)?;
    site.sync(dev)?;
    Ok(true)
}

// Prepares the site, or calls the program, and answers whether that is as the step says; another step holds.
fn carry_out(alloc: Global, site: &mut MemSite, step: Step<'_>) -> Result<bool, Fail> {
    match step {
        Step::Feed(input) => feed_many(site, 1, input),
        Step::FeedMany(times, input) => feed_many(site, times, input),
        Step::FeedSets(lines) => feed_sets(site, lines),
        Step::Fail(call, nth) => fail(site, call, nth),
        Step::ShortTell(nth, count) => tell_short(site, nth, count),
        Step::Put(dev, place, octet) => put(site, dev, place, octet),
        Step::Write(dev, place, octets) => write(site, dev, place, octets),
        Step::Call(words, status) => Ok(call(alloc, site, words)? == status),
        Step::Run(input, told) => {
            site.feed(input.as_bytes())?;
            Ok(call(alloc, site, "run 1")? == 0 && site.told() == told.as_bytes())
        }
        Step::Serve(input, told) => {
            site.feed(input.as_bytes())?;
            Ok(serve(alloc, 1, site) == 0 && site.told() == told.as_bytes())
        }
        _ => Ok(true),
    }
}

// Whether some octets have a line so many times from a place on.
fn repeats(octets: &[u8], place: usize, times: usize, line: &[u8]) -> bool {
    let mut rest = octets.get(place..).unwrap_or(&[]);
    for _time in 0..times {
        match rest.strip_prefix(line) {
            Some(behind) => rest = behind,
            None => return false,
        }
    }
    true
}

// Whether the device has these places, and zeros alone there.
fn has_zeros(site: &MemSite, dev: Dev, from: usize, to: usize) -> Option<bool> {
    let part = site.content(dev).get(from..to)?;
    Some(part.iter().all(|octet| *octet == 0))
}

// Whether a step holds that only looks.
fn holds(site: &MemSite, step: Step<'_>) -> bool {
    let told = site.told();
    match step {
        Step::Told(text) => told == text.as_bytes(),
        Step::Begins(text) => told.starts_with(text.as_bytes()),
        Step::Ends(text) => told.ends_with(text.as_bytes()),
        Step::Behind(place, text) => told.get(place..) == Some(text.as_bytes()),
        Step::Length(length) => told.len() == length,
        Step::Repeats(place, times, line) => repeats(told, place, times, line.as_bytes()),
        Step::Changes(changes) => site.changes() == changes,
        Step::Reads(dev, reads) => site.reads(dev) == reads,
        Step::Has(dev, place, octets) => {
            let part = site.content(dev).get(place..).unwrap_or(&[]);
            part.starts_with(octets)
        }
        Step::Zeros(dev, from, to) => has_zeros(site, dev, from, to) == Some(true),
        Step::Filled(dev, from, to) => has_zeros(site, dev, from, to) == Some(false),
        _ => true,
    }
}

// Plays steps over a new site of the standard sizes, and answers how many hold, up to the first one that doesn't.
pub fn play(alloc: Global, steps: &[Step<'_>]) -> Result<usize, Fail> {
    let mut site = MemSite::new(alloc, &STANDARD)?;
    for (row, step) in steps.iter().enumerate() {
        match *step {
            Step::New(sizes) => site = MemSite::new(alloc, &sizes)?,
            Step::Crash(seed) => site = site.crash(seed),
            step => {
                if !carry_out(alloc, &mut site, step)? || !holds(&site, step) {
                    return Ok(row);
                }
            }
        }
    }
    Ok(steps.len())
}
