// The lives of a script.
ghost use Rattle.std.specs.Prelude.{◌≡◌, ◌==◌, ◌+◌, ◌≤◌, ◌<◌, ◌∷◌, [], true, min, position, length, drop, codes};
ghost use Rattle.std.specs.Prelude.{slice_get, slice_range, if◌then◌else◌, IfSome, IfNone, Some, None};
ghost use Rattle.std.specs.Str.{bytes_eq};
ghost use Rattle.shell_text.specs.Reading.{words_of, number_of};
ghost use Rattle.shell_text.specs.Runs.{lines_of};
ghost use Rattle.workload.specs.Scripts.{pair_of, stop_in, stop_of, stops_from, lives_of};

use crate::scripts::{Life, StopLine};
use shell_text::read_decimal;

/// How many stop lines of a script end a life; later ones are lines as any other.
pub const STOPS_MAX: usize = 31;

fn is_stop(word: &[u8]) -> bool
    ensures { result ≡ bytes_eq word.now (codes "stop") }
{
    word == b"stop".as_slice()
}

fn first_space(text: &[u8]) -> Option<usize>
    ensures { result ≡ position (λ x. x == 32) text.now }
{
    text.iter().position(|octet| *octet == b' ')
}

fn first_newline(text: &[u8]) -> Option<usize>
    ensures { result ≡ position (λ x. x == 10) text.now }
{
    text.iter().position(|octet| *octet == b'\n')
}

// The first word, and what stands behind the space that ends it.
fn split_word(text: &[u8]) -> Option<(&[u8], &[u8])>
    ensures words { IfSome result (λ parts. words_of text.now ≡ parts.0.now ∷ words_of parts.1.now) }
    ensures none { IfNone result (words_of text.now ≡ text.now ∷ []) }
{
    let space = first_space(text)?;
    Some((&text[..space], &text[space + 1..]))
}

fn read_number(word: &[u8]) -> Option<u64>
    ensures { result ≡ number_of word.now }
{
    match read_decimal(word) {
        Some(number) => Some(u64::from(number)),
        None => None,
    }
}

fn read_numbers(first: &[u8], second: &[u8]) -> Option<(u64, u64)>
    ensures { result ≡ pair_of (number_of first.now) (number_of second.now) }
{
    let limit = read_number(first)?;
    let seed = read_number(second)?;
    Some((limit, seed))
}

fn read_words(name: &[u8], first: &[u8], second: &[u8]) -> Option<(u64, u64)>
    ensures { result ≡ stop_in (name.now ∷ first.now ∷ second.now ∷ []) }
{
    if !is_stop(name) {
        return None;
    }
    read_numbers(first, second)
}

// The K and the SEED of a line, if it is a stop line.
fn read_stop(line: &[u8]) -> Option<(u64, u64)>
    ensures { result ≡ stop_of line.now }
{
    let Some((name, rest)) = split_word(line) else {
        return None;
    };
    let Some((limit, rest)) = split_word(rest) else {
        return None;
    };
    match split_word(rest) {
        None => read_words(name, limit, rest),
        Some(_) => None,
    }
}

// Where the line ends that begins at a place.
fn line_end(script: &[u8], at: usize) -> usize
    requires { at < length script.now }
    ensures line { lines_of true (drop at script.now)
        ≡ slice_range script.now at result ∷ lines_of true (drop (result + 1) script.now) }
    ensures behind { at ≤ result }
    ensures inside { result ≤ length script.now }
{
    match first_newline(&script[at..]) {
        Some(place) => at + place,
        None => script.len(),
    }
}

// The first stop line from the line on that begins at a place.
fn next_stop(script: &[u8], from: usize) -> Option<StopLine>
    requires { from ≤ length script.now + 1 }
    ensures some { IfSome result (λ stop. stops_from script.now from ≡ stop ∷ stops_from script.now stop.next) }
    ensures order { IfSome result (λ stop. (from ≤ stop.from) × (stop.from ≤ length script.now)
        × (stop.next ≤ length script.now + 1)) }
    ensures none { IfNone result (stops_from script.now from ≡ []) }
{
    let mut at = from;
    while at < script.len() {
        let end = line_end(script, at);
        if let Some((limit, seed)) = read_stop(&script[at..end]) {
            return Some(StopLine {
                from: at,
                next: end + 1,
                limit,
                seed,
            });
        }
        at = end + 1;
    }
    None
}

/// The life of a script at a place, counted from 0. None exactly where the script has no such life.
///
/// The script is cut into lines at its newlines; octets behind the last newline are a line too. The first 31 lines of
/// the form `stop K SEED`, with two decimal numbers of at most nine digits and no leading zero, end a life each. The
/// lines behind the last of them are the last life, which is always there.
pub fn life(script: &[u8], place: usize) -> Option<Life>
    ensures life { result ≡ slice_get (lives_of script.now) place }
    ensures inside { IfSome result (λ life. (life.start ≤ life.end) × (life.end ≤ length script.now)) }
{
    let mut start = 0;
    for number in 0..STOPS_MAX {
        let Some(stop) = next_stop(script, start) else {
            return last_life(script, start, number == place);
        };
        if number == place {
            return Some(Life {
                start,
                end: stop.from,
                stop: Some((stop.limit, stop.seed)),
            });
        }
        start = stop.next;
    }
    last_life(script, start, place == STOPS_MAX)
}

// The life that goes to the end of the script, where it is the wanted one.
fn last_life(script: &[u8], start: usize, wanted: bool) -> Option<Life>
    ensures { result ≡ (if wanted then Some (record {
      start = min start (length script.now);
      end = length script.now;
      stop = None;
    }) else None) }
{
    if !wanted {
        return None;
    }
    Some(Life {
        start: start.min(script.len()),
        end: script.len(),
        stop: None,
    })
}
