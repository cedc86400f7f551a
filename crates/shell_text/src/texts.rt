// The lines of replies.
ghost use Rattle.std.specs.Prelude.{◌≡◌, ◌<◌, ◌≤◌, [], ◌∷◌, ◌++◌, length, slice_index_or, codes, decimal};
ghost use Rattle.shell_text.specs.Texts.{open_text, value_text, why_text, stat_text, item_text, flag_text, cache_text};
ghost use Rattle.shell_text.specs.Texts.{end_text, reply_lines};

use crate::written::Line;
use record_model::{CacheLine, Item, Octets, Reply, Stat, Why};

/// A line without numbers.
fn plain_line(text: &[u8]) -> Line
    requires { length text.now ≤ 20 }
    ensures { result ≡ text.now }
{
    let mut line = Line::new();
    line.push(text);
    line
}

/// A name and a number.
fn number_line(name: &[u8], number: u64) -> Line
    requires { length name.now ≤ 20 }
    ensures { result ≡ name.now ++ decimal number ++ codes "\n" }
{
    let mut line = Line::new();
    line.push(name);
    line.push_number(number);
    line.push(b"\n");
    line
}

fn value_line(value: &Octets) -> Line
    ensures { result ≡ codes "value " ++ value_text value.now ++ codes "\n" }
{
    let mut line = Line::new();
    line.push(b"value ");
    line.push_value(value);
    line.push(b"\n");
    line
}

fn item_line(item: &Item) -> Line
    ensures { result ≡ item_text item.now }
{
    let mut line = Line::new();
    line.push(b"item ");
    line.push_number(u64::from(item.number));
    line.push(b" ");
    line.push_value(&item.value);
    line.push(b"\n");
    line
}

fn flag(letter: u8, is_set: bool) -> u8
    ensures { result ∷ [] ≡ flag_text (letter ∷ []) is_set }
{
    if is_set { letter } else { b'-' }
}

fn frame_line(group: u64, index: u8, page: u32, flags: &[u8]) -> Line
    requires { length flags.now ≤ 3 }
    ensures { result ≡ codes "frame " ++ decimal group ++ codes " " ++ decimal index ++ codes " page " ++ decimal page
        ++ codes " " ++ flags.now ++ codes "\n" }
{
    let mut line = Line::new();
    line.push(b"frame ");
    line.push_number(group);
    line.push(b" ");
    line.push_number(u64::from(index));
    line.push(b" page ");
    line.push_number(u64::from(page));
    line.push(b" ");
    line.push(flags);
    line.push(b"\n");
    line
}

fn pool_line(page: u32, changed: bool) -> Line
    ensures { result ≡ cache_text (CacheLine.Pool page changed) }
{
    let mut line = Line::new();
    line.push(b"pool ");
    line.push_number(u64::from(page));
    if changed {
        line.push(b"*\n");
    } else {
        line.push(b"\n");
    }
    line
}

fn cache_line(line: &CacheLine) -> Line
    ensures { result ≡ cache_text line.now }
{
    match *line {
        CacheLine::Frame {
            group,
            index,
            page,
            valid,
            dirty,
            referenced,
        } => {
            let flags = [flag(b'v', valid), flag(b'd', dirty), flag(b'r', referenced)];
            frame_line(group, index, page, &flags)
        }
        CacheLine::Pool { page, changed } => pool_line(page, changed),
    }
}

fn end_line(count: usize) -> Line
    ensures { result ≡ end_text count }
{
    number_line(b"end ", count as u64)
}

fn stat_line(stat: &Stat) -> Line
    ensures { result ≡ stat_text stat.now }
{
    let mut line = Line::new();
    line.push(b"stat commits ");
    line.push_number(stat.commits);
    line.push(b" used ");
    line.push_number(stat.used);
    line.push(b" owed ");
    line.push_number(stat.owed);
    line.push(b" cap ");
    line.push_number(stat.cap);
    line.push(b" active ");
    line.push_number(stat.active);
    line.push(b"\n");
    line
}

fn full_line(used: u64, owed: u64, cap: u64) -> Line
    ensures { result ≡ codes "full " ++ decimal used ++ codes " " ++ decimal owed ++ codes " " ++ decimal cap
        ++ codes "\n" }
{
    let mut line = Line::new();
    line.push(b"full ");
    line.push_number(used);
    line.push(b" ");
    line.push_number(owed);
    line.push(b" ");
    line.push_number(cap);
    line.push(b"\n");
    line
}

fn page_full_line(page: u32, need: u32) -> Line
    ensures { result ≡ codes "full page " ++ decimal page ++ codes " " ++ decimal need ++ codes "\n" }
{
    let mut line = Line::new();
    line.push(b"full page ");
    line.push_number(u64::from(page));
    line.push(b" ");
    line.push_number(u64::from(need));
    line.push(b"\n");
    line
}

fn refused_line(why: Why) -> Line
    ensures { result ≡ codes "refused " ++ why_text why ++ codes "\n" }
{
    match why {
        Why::BadLine => plain_line(b"refused line\n"),
        Why::BadSession => plain_line(b"refused session\n"),
        Why::NoRecord => plain_line(b"refused record\n"),
        Why::TooLong => plain_line(b"refused long\n"),
        Why::BadMark => plain_line(b"refused mark\n"),
    }
}

/// The line `open n` that a run tells first, n the number of commits that the devices hold.
pub fn open_line(commits: u64) -> Line
    ensures { result ≡ open_text commits }
{
    number_line(b"open ", commits)
}

/// How many lines the text of a reply has.
pub fn line_count(reply: &Reply) -> usize
    ensures { result ≡ length (reply_lines reply.now) }
{
    match reply {
        Reply::Items(items) => items.len() + 1,
        Reply::Listing(listing) => listing.len() + 1,
        _ => 1,
    }
}

/// One line of the text of a reply, counted from 0.
pub fn reply_line(reply: &Reply, place: usize) -> Line
    requires { place < length (reply_lines reply.now) }
    ensures { result ≡ slice_index_or (reply_lines reply.now) place [] }
{
    match reply {
        Reply::Done => plain_line(b"ok\n"),
        Reply::Value(value) => value_line(value),
        Reply::Nothing => plain_line(b"none\n"),
        Reply::Committed(count) => number_line(b"committed ", *count),
        Reply::Aborted => plain_line(b"aborted\n"),
        Reply::Back(count) => number_line(b"back ", *count),
        Reply::Checked => plain_line(b"checkpoint\n"),
        Reply::Items(items) => {
            if place == items.len() {
                return end_line(place);
            }
            item_line(items.at(place))
        }
        Reply::Listing(listing) => {
            if place == listing.len() {
                return end_line(place);
            }
            cache_line(listing.at(place))
        }
        Reply::Stat(stat) => stat_line(stat),
        Reply::Bye => plain_line(b"bye\n"),
        Reply::Busy(session) => number_line(b"busy ", u64::from(*session)),
        Reply::Full { used, owed, cap } => full_line(*used, *owed, *cap),
        Reply::PageFull { page, need } => page_full_line(*page, *need),
        Reply::Refused(why) => refused_line(*why),
    }
}
