// What is wrong with the words that the program is called with.
use command_line::{
    COUNT_MAX, POOL_MAX, geometry_of, groups_in, number_in, number_within, trial_geometry_of,
};
use std::io::Eprint;

const USAGE: &str = "\
usage: face new PAGES GROUPS BLOCKS   makes a database in the current folder
       face run POOL                  serves the lines of standard input
       face load COUNT SEED POOL      makes COUNT sets of the numbers that SEED gives, and gets them again
       face simulate GROUPS POOL      counts what three page caches do with the touches on standard input
       face trial PAGES GROUPS BLOCKS POOL
                                      plays a script of lives with power cuts in memory
       face check                     tells whether the database in the current folder is sound, and changes nothing
       face archive FROM              tells the log's blocks from FROM on, as lines of text
       face verify PAGES              tells how many commits the archive on standard input has
       face restore N POOL            writes the first N commits of that archive to a new database
PAGES  1 to 65536, each of 32 records and 4096 octets of face.disk
GROUPS a multiple of 4 from 8 to 16384, each of 33536 octets of face.flash
BLOCKS 16 to 1048576, each of 512 octets of face.log
POOL   1 to 4096, the pages that memory holds
A trial has at most 1024 pages, 256 groups and 4096 blocks, and a script of at most 65536 octets
COUNT  1 to 100000; SEED, FROM and N 0 to 18446744073709551615; numbers are decimal, with no leading zero";

/// A number that the words give.
#[derive(Clone, Copy, Debug, PartialEq, Eq, Drop)]
pub enum Number {
    Pages,
    Groups,
    Blocks,
    Pool,
    Count,
    Seed,
    From,
    Commits,
    TrialPages,
    TrialGroups,
    TrialBlocks,
}

impl Number {
    fn name(self) -> &'static str {
        match self {
            Number::Pages | Number::TrialPages => "PAGES",
            Number::Groups | Number::TrialGroups => "GROUPS",
            Number::Blocks | Number::TrialBlocks => "BLOCKS",
            Number::Pool => "POOL",
            Number::Count => "COUNT",
            Number::Seed => "SEED",
            Number::From => "FROM",
            Number::Commits => "N",
        }
    }

    // Whether a word is such a number, as the program reads it.
    fn takes(self, word: &str) -> bool {
        let text = word.as_bytes();
        match self {
            Number::Pages => geometry_of(text, b"8", b"16").is_some(),
            Number::Groups => groups_in(text).is_some(),
            Number::Blocks => geometry_of(b"1", b"8", text).is_some(),
            Number::Pool => number_within(text, 1, POOL_MAX).is_some(),
            Number::Count => number_within(text, 1, COUNT_MAX).is_some(),
            Number::Seed | Number::From | Number::Commits => number_in(word).is_some(),
            Number::TrialPages => trial_geometry_of(text, b"8", b"16").is_some(),
            Number::TrialGroups => trial_geometry_of(b"1", text, b"16").is_some(),
            Number::TrialBlocks => trial_geometry_of(b"1", b"8", text).is_some(),
        }
    }
}

/// Why words are refused. A word has its place, the first one 1.
#[derive(Clone, Copy, Debug, PartialEq, Eq, Drop)]
pub enum Wrong {
    /// There are none, or one isn't text.
    Nothing,
    /// The first isn't one of `new`, `run`, `load`, `simulate`, `trial`, `check`, `archive`, `verify` and `restore`.
    Unknown,
    /// The word of this place isn't this number.
    Unfit(usize, Number),
    /// This number is missing.
    Lacks(Number),
    /// There is one in this place.
    TooMany(usize),
}

// The number that stands in this place behind the first word, if one does.
fn number_at(first: &str, place: usize) -> Option<Number> {
    match (first, place) {
        ("new", 2) => Some(Number::Pages),
        ("new", 3) => Some(Number::Groups),
        ("new", 4) => Some(Number::Blocks),
        ("run", 2) => Some(Number::Pool),
        ("load", 2) => Some(Number::Count),
        ("load", 3) => Some(Number::Seed),
        ("load", 4) => Some(Number::Pool),
        ("simulate", 2) => Some(Number::Groups),
        ("simulate", 3) => Some(Number::Pool),
        ("trial", 2) => Some(Number::TrialPages),
        ("trial", 3) => Some(Number::TrialGroups),
        ("trial", 4) => Some(Number::TrialBlocks),
        ("trial", 5) => Some(Number::Pool),
        ("archive", 2) => Some(Number::From),
        ("verify", 2) => Some(Number::Pages),
        ("restore", 2) => Some(Number::Commits),
        ("restore", 3) => Some(Number::Pool),
        _ => None,
    }
}

// Whether a list of words may begin so.
fn is_command(first: &str) -> bool {
    first == "check" || number_at(first, 2).is_some()
}

/// The first thing that is wrong with the words, if anything is.
pub fn find_wrong(words: &[String]) -> Option<Wrong> {
    let Some(first) = words.first() else {
        return Some(Wrong::Nothing);
    };
    if !is_command(first.as_str()) {
        return Some(Wrong::Unknown);
    }
    for (before, word) in words.iter().enumerate().skip(1) {
        match number_at(first.as_str(), before + 1) {
            None => return Some(Wrong::TooMany(before + 1)),
            Some(number) => {
                if !number.takes(word.as_str()) {
                    return Some(Wrong::Unfit(before + 1, number));
                }
            }
        }
    }
    number_at(first.as_str(), words.len() + 1).map(Wrong::Lacks)
}

fn word_at(words: &[String], place: usize) -> &str {
    match words.get(place.saturating_sub(1)) {
        Some(word) => word.as_str(),
        None => "",
    }
}

/// Says which word is wrong, and how the program is called.
pub fn say_words<R: Eprint>(rt: &R, words: &[String]) {
    let _ = match find_wrong(words) {
        None | Some(Wrong::Nothing) => {
            eprintln!(rt; "face: there are no words, or one of them isn't UTF-8 text")
        }
        Some(Wrong::Unknown) => {
            let word = word_at(words, 1);
            eprintln!(rt;
                "face: word 1 is {word:?}, and not new, run, load, simulate, trial, check, archive, verify or restore"
            )
        }
        Some(Wrong::Unfit(place, number)) => {
            let word = word_at(words, place);
            let name = number.name();
            eprintln!(rt; "face: word {place} is {word:?}, which is no {name}")
        }
        Some(Wrong::Lacks(number)) => {
            let name = number.name();
            eprintln!(rt; "face: {name} is missing")
        }
        Some(Wrong::TooMany(place)) => {
            let word = word_at(words, place);
            eprintln!(rt; "face: word {place} is {word:?}, which is one too many")
        }
    };
    let _ = rt.eprintln(USAGE);
}
