// What is said where the work can't be done.
use crate::seen::Seen;
use crate::words::say_words;
use command_line::sizes;
use file_site::{Absence, Call, Failure, Watch, file_name};
use image_form::Place;
use site::{Dev, Geometry};
use std::io::Eprint;

// Says which call failed, with the system's words.
fn say_failure<R: Eprint>(rt: &R, failure: Failure) {
    let (name, done) = match failure.call {
        Call::Read(dev) => (file_name(dev), "read"),
        Call::Write(dev) => (file_name(dev), "written"),
        Call::Sync(dev) => (file_name(dev), "synced"),
        Call::Take => ("standard input", "read"),
        Call::Tell => ("standard output", "written"),
    };
    let error = failure.error;
    let _ = eprintln!(rt; "face: {name} couldn't be {done}: {error}");
}

// How a file of the current folder, or the folder, is called.
fn called(name: &'static str) -> &'static str {
    if name == "." { "this folder" } else { name }
}

// Says what is so of a file, and what to do.
fn say_of<R: Eprint>(rt: &R, name: &'static str, what: &str, advice: &str) {
    let name = called(name);
    let _ = eprintln!(rt; "face: {name} {what}: {advice}");
}

// Says that another program holds a file or the folder, and what to do. Of a file the line is promised not to change.
fn say_busy<R: Eprint>(rt: &R, name: &'static str) {
    let _ = if name == "." {
        rt.eprintln(
            "face: another program makes a database in this folder, or holds the lock on it: wait until it has ended, \
            or go to a folder that others can't read",
        )
    } else {
        eprintln!(rt; "face: another program is at work on {name}: wait until it has ended")
    };
}

// Says what the system refuses, with its words for it, and what to do.
fn say_refusal<R: Eprint>(rt: &R, absence: Absence) {
    let rights = "see to its owner and its rights";
    let (name, what, error, advice) = match absence {
        Absence::Unopened(name, error) => {
            (
                name,
                "can't be opened to be read and written",
                error,
                rights,
            )
        }
        Absence::Unread(name, error) => (name, "can't be opened to be read", error, rights),
        Absence::Unsynced(name, error) => {
            let disk = "see to the disk that it is on, then try again";
            (name, "can't be synced", error, disk)
        }
        Absence::InTheWay(name, error) => {
            let draft =
                "a file has this name while it is made. Move away what has it, then try again";
            (name, "is in the way and can't be removed", error, draft)
        }
        Absence::Unmade(name, error) => {
            let made = "what was made is removed. See to room and rights, then try again";
            (name, "can't be made", error, made)
        }
        _ => return,
    };
    let name = called(name);
    let _ = eprintln!(rt; "face: {name} {what}: {error}; {advice}");
}

// Says why no file stands for a device, and what to do.
fn say_absence<R: Eprint>(rt: &R, dev: Dev, absence: Absence) {
    match absence {
        Absence::Missing => {
            let copy = "bring it back, or all three files of one copy";
            say_of(rt, file_name(dev), "is missing beside the others", copy);
        }
        Absence::Busy(name) => say_busy(rt, name),
        Absence::NoFile(name) => {
            say_of(
                rt,
                name,
                "is no file, but a folder or something else",
                "move it away",
            );
        }
        Absence::Anothers(name) => {
            let what = "is another user's, who could read and write what the database holds";
            let advice =
                "nothing was made. Remove it, or go to a folder where others make no files";
            say_of(rt, name, what, advice);
        }
        Absence::Appeared(name) => {
            let what = "has appeared while a database was made";
            let advice =
                "it stays as it is, and what was made is removed. See whose it is, then try again";
            say_of(rt, name, what, advice);
        }
        refusal => say_refusal(rt, refusal),
    }
}

// Says why there is no database to work on, and what to do, where files are missing, can't be used or have odd lengths.
// Answers whether it was so. That another program is at work comes first.
fn say_no_files<R: Eprint>(rt: &R, seen: &Seen) -> bool {
    if let Some((dev, absence)) = seen.first_busy() {
        say_absence(rt, dev, absence);
        return true;
    }
    if seen.is_bare() {
        let _ = eprintln!(rt;
            "face: this folder has no database: face.log, face.flash and face.disk are missing. To make one: face new \
            PAGES GROUPS BLOCKS"
        );
        return true;
    }
    if let Some((dev, absence)) = seen.first_absence() {
        say_absence(rt, dev, absence);
        return true;
    }
    if let Some((dev, len)) = seen.first_odd() {
        let name = file_name(dev);
        let _ = eprintln!(rt;
            "face: {name} has {len} octets, as in no database: bring back all three files of one copy"
        );
        return true;
    }
    false
}

// What is so where this rule of sound devices fails.
fn broken(rule: u8) -> &'static str {
    match rule {
        1 => {
            "octets aren't of the form, or name a page that the disk hasn't: of a ring, the newest master, a kept \
            block, a live group or segment, or a page"
        }
        2 => "the oldest kept block isn't live, or redo begins before it or behind the log's end",
        3 => {
            "a record is of a transaction that isn't open, or stands before the Begin that it names"
        }
        4 => "an unfinished transaction can't be undone by its records",
        5 => {
            "behind an Update of an unfinished transaction another one has a record on its number"
        }
        6 => "a page doesn't show what the log has written",
        7 => "a valid frame that isn't dirty differs from its disk page",
        8 => "the live segments don't follow the live groups",
        9 => "the log has no room for what undo writes",
        10 => "the master doesn't name the transactions that were active at the redo block",
        11 =>
            "the commits aren't numbered on by one, or are more than 512 for each block ever sealed",
        12 => "a page has no room for what redo and undo write on it",
        _ => "of the rules none is called so",
    }
}

// Says which rule fails where, and what is so.
fn say_place<R: Eprint>(rt: &R, rule: u8, place: Place, what: &str) {
    let _ = match place {
        Place::Lengths => eprintln!(rt; "face: rule {rule} fails at the lengths: {what}"),
        Place::Masters => eprintln!(rt; "face: rule {rule} fails in the ring of masters: {what}"),
        Place::Blocks => eprintln!(rt; "face: rule {rule} fails in the log: {what}"),
        Place::Groups => eprintln!(rt; "face: rule {rule} fails in the ring of groups: {what}"),
        Place::Segments => {
            eprintln!(rt; "face: rule {rule} fails in the ring of segments: {what}")
        }
        Place::Master => eprintln!(rt; "face: rule {rule} fails at the newest master: {what}"),
        Place::Block(block) => {
            eprintln!(rt; "face: rule {rule} fails at block {block} of the log: {what}")
        }
        Place::Group(group) => eprintln!(rt; "face: rule {rule} fails at group {group}: {what}"),
        Place::Segment(segment) => {
            eprintln!(rt; "face: rule {rule} fails at segment {segment}: {what}")
        }
        Place::Page(page) => eprintln!(rt; "face: rule {rule} fails at page {page}: {what}"),
        Place::Transaction(txn) => {
            eprintln!(rt; "face: rule {rule} fails at transaction {txn}: {what}")
        }
    };
}

// Says why the devices aren't sound and where, as far as it is known, and what to do.
fn say_unsound<R: Eprint>(rt: &R, seen: &Seen, failing: Option<(u8, Place)>) {
    if say_no_files(rt, seen) {
        return;
    }
    let Some(rule) = seen.watch.rule() else {
        return;
    };
    let what = broken(rule);
    match failing {
        Some((_rule, place)) => say_place(rt, rule, place, what),
        None => {
            let _ = eprintln!(rt; "face: rule {rule} fails: {what}");
        }
    }
    let _ = rt.eprintln("face: bring back all three files of one copy");
}

// Says why a run or a load has no database to work on, where the devices fail which rule, as far as it is known, and
// what to do.
fn say_no_database<R: Eprint>(rt: &R, seen: &Seen, failing: Option<(u8, Place)>) {
    if say_no_files(rt, seen) {
        return;
    }
    if let Some((rule, place)) = failing {
        say_place(rt, rule, place, broken(rule));
    }
    let _ = eprintln!(rt;
        "face: what face.log, face.flash and face.disk hold isn't sound, isn't of one database, or is an older \
        version's: face check tells which rule fails. Bring back all three files of one copy"
    );
}

// Says why no database of these sizes is made, and what to do.
fn say_not_made<R: Eprint>(rt: &R, seen: &Seen, geometry: Geometry) {
    if let Some((dev, absence)) = seen.first_hindrance() {
        say_absence(rt, dev, absence);
        return;
    }
    let (log, flash, disk) = geometry.lengths();
    if let Some((dev, len, wanted)) = seen.first_unlike([log, flash, disk]) {
        let name = file_name(dev);
        let _ = eprintln!(rt;
            "face: {name} has {len} octets, and these sizes ask for {wanted}: nothing was made. Give its own sizes, or \
            go to another folder"
        );
    }
}

// Says how many lines of a run were refused, and which is the first that ends with a carriage return.
fn say_refused<R: Eprint>(rt: &R, watch: Watch) {
    let refused = watch.refused();
    if refused > 0 {
        let _ = eprintln!(rt; "face: {refused} of the replies refused a line");
    }
    if let Some(line) = watch.returned() {
        let _ = eprintln!(rt;
            "face: line {line} of the input ends with a carriage return, and so is no command: send lines that end \
            with a newline alone"
        );
    }
}

/// Says on standard error why the program ends with this status, where there is something to say; of devices that
/// aren't sound the rule that fails and where, as far as it was found.
pub fn say<R: Eprint>(
    rt: &R,
    status: u8,
    words: &[String],
    seen: &Seen,
    failing: Option<(u8, Place)>,
) {
    say_refused(rt, seen.watch);
    match status {
        2 => say_words(rt, words),
        3 | 5 | 6 => {
            if let Some(failure) = seen.failure {
                say_failure(rt, failure);
            }
        }
        9 => match sizes(words) {
            Some(geometry) => say_not_made(rt, seen, geometry),
            None => say_no_database(rt, seen, failing),
        },
        10 => {
            let _ = eprintln!(rt;
                "face: the files aren't blank, and nothing was written over. To make a new database move them away, or \
                go to another folder"
            );
        }
        11 => say_unsound(rt, seen, failing),
        12 => {
            let _ = rt.eprintln(
                "face: the log has no block of that number: gone names the oldest that it has, ahead the one that comes next",
            );
        }
        13 => {
            let _ = rt.eprintln(
                "face: that line of the input isn't the next block of the archive, or an end line with its number, or \
                a record of it doesn't follow: hand in the archives from block 0 on, in order, with none left out, \
                and the PAGES of their database",
            );
        }
        14 => {
            let _ = rt.eprintln(
                "face: the archive ends before that commit: short tells how many it has, and the database has them all",
            );
        }
        15 => {
            let _ = rt.eprintln(
                "face: the next commit of the archive has no room here: make a new database with as many PAGES and BLOCKS as \
                the one that was archived",
            );
        }
        16 => {
            let _ = eprintln!(rt;
                "face: that line of the input is no touch: each is r PAGE or w PAGE, PAGE 0 to 65535, and there are at \
                most 1000000"
            );
        }
        _ => {}
    }
}
