// What a line of input says.
ghost use Rattle.std.specs.Prelude.{◌≡◌, ◌==◌, ◌≤◌, [], ◌∷◌, length, position, option_and_then, IfOk, IfNone, IfSome};
ghost use Rattle.std.specs.Prelude.{IsErr, ℕ, decimal, ◌*◌, Some, None, if◌then◌else◌};
ghost use Rattle.std.specs.Option.{unwrap_or};
ghost use Rattle.hex.specs.Hex.{hex_digit_value, decode_of};
ghost use Rattle.std.specs.Result.{result_ok};
ghost use Rattle.record_model.specs.declared.words.Command.{Command};
ghost use Rattle.shell_text.specs.Grammar.{IsCommandLine, IsNumber};
ghost use Rattle.shell_text.specs.Reading.{words_of, small_number, number_of, value_of, bare_command, command_of_one};
ghost use Rattle.shell_text.specs.Reading.{command_of_two, scan_of, two_words, three_words, command_in, line_of};

use memchr::memchr;
use record_model::{Command, Octets};
use thiserror::Error;

/// How many octets a line has at most, without its newline.
pub const LINE_MAX: usize = 500;

/// How many records a scan reads at most.
pub const COUNT_MAX: u32 = 64;

/// The line is no command.
#[derive(Clone, Copy, Debug, PartialEq, Eq, Drop, Error)]
#[error("the line is no command")]
pub struct BadLine;

fn read_digits(digits: &[u8]) -> Option<u32>
    ensures { result ≡ small_number digits.now }
{
    let mut value: u32 = 0;
    for digit in digits {
        if !digit.is_ascii_digit() {
            return None;
        }
        if value >= 100_000_000 {
            return None;
        }
        value = 10 * value + u32::from(*digit - b'0');
    }
    Some(value)
}

fn read_number(text: &[u8]) -> Option<u32>
    ensures { result ≡ number_of text.now }
{
    match text {
        [] => None,
        [_] => read_digits(text),
        [first, _, ..] => {
            if *first == b'0' {
                return None;
            }
            read_digits(text)
        }
    }
}

/// The number that a word writes in decimal, with one to nine digits and no leading zero but 0 itself.
pub fn read_decimal(word: &[u8]) -> Option<u32>
    ensures number { IfSome result (λ n. IsNumber n × (word.now ≡ decimal n)) }
    ensures none { IfNone result ((n : ℕ) → IsNumber n → word.now ≡ decimal n → ⊥) }
{
    read_number(word)
}

// What a hex digit stands for, in either case, or 255 where it is none.
fn digit_value(digit: u8) -> u8
    ensures { result ≡ unwrap_or (hex_digit_value digit) 255 }
{
    match digit {
        b'0'..=b'9' => digit - b'0',
        b'a'..=b'f' => digit - b'a' + 10,
        b'A'..=b'F' => digit - b'A' + 10,
        _ => 255,
    }
}

// Reads pairs of hex digits into octets, and answers whether all are digits. No turn of its loop branches, so that the
// compiler takes several pairs at once.
fn read_pairs(digits: &[u8], octets: &mut [u8]) -> bool
    requires { length digits.now ≡ 2 * length octets.old }
    ensures { result_ok (decode_of digits.now) ≡ (if result then Some octets.new else None) }
{
    let mut greatest = 0u8;
    for place in 0..octets.len() {
        let high = digit_value(digits[2 * place]);
        let low = digit_value(digits[2 * place + 1]);
        greatest = greatest.max(high).max(low);
        octets[place] = high.wrapping_mul(16).wrapping_add(low);
    }
    greatest < 16
}

fn read_value(text: &[u8]) -> Option<Octets>
    requires { length text.now ≤ LINE_MAX }
    ensures { result ≡ value_of text.now }
{
    if text == b"-".as_slice() {
        return Octets::from_slice(b"");
    }
    if text.len() < 2 {
        return None;
    }
    if text.len() % 2 == 1 {
        return None;
    }
    let mut buffer = [0u8; LINE_MAX / 2];
    let octets = &mut buffer[..text.len() / 2];
    if !read_pairs(text, octets) {
        return None;
    }
    Octets::from_slice(octets)
}

fn first_space(text: &[u8]) -> Option<usize>
    ensures { result ≡ position (λ x. x == 32) text.now }
{
    memchr(b' ', text)
}

/// The first word, and what stands behind the space that ends it.
fn split_word(text: &[u8]) -> Option<(&[u8], &[u8])>
    ensures words { IfSome result (λ parts. words_of text.now ≡ parts.0.now ∷ words_of parts.1.now) }
    ensures shorter { IfSome result (λ parts. length parts.1.now ≤ length text.now) }
    ensures none { IfNone result (words_of text.now ≡ text.now ∷ []) }
{
    let space = first_space(text)?;
    Some((&text[..space], &text[space + 1..]))
}

fn read_bare(name: &[u8]) -> Option<Command>
    ensures { result ≡ bare_command name.now }
{
    if name == b"checkpoint".as_slice() {
        return Some(Command::Checkpoint);
    }
    if name == b"cache".as_slice() {
        return Some(Command::Cache);
    }
    if name == b"stat".as_slice() {
        return Some(Command::Stat);
    }
    if name == b"quit".as_slice() {
        return Some(Command::Quit);
    }
    None
}

fn command_of_number(name: &[u8], number: u32) -> Option<Command>
    ensures { result ≡ command_of_one name.now number }
{
    if name == b"begin".as_slice() {
        return Some(Command::Begin { session: number });
    }
    if name == b"commit".as_slice() {
        return Some(Command::Commit { session: number });
    }
    if name == b"abort".as_slice() {
        return Some(Command::Abort { session: number });
    }
    if name == b"mark".as_slice() {
        return Some(Command::Mark { session: number });
    }
    if name == b"back".as_slice() {
        return Some(Command::Back {
            session: number,
            standing: None,
        });
    }
    if name == b"get".as_slice() {
        return Some(Command::Get { number });
    }
    None
}

fn command_of_numbers(name: &[u8], session: u32, number: u32) -> Option<Command>
    ensures { result ≡ command_of_two name.now session number }
{
    if name == b"read".as_slice() {
        return Some(Command::Read { session, number });
    }
    if name == b"erase".as_slice() {
        return Some(Command::Erase { session, number });
    }
    if name == b"back".as_slice() {
        return Some(Command::Back {
            session,
            standing: Some(number),
        });
    }
    None
}

fn read_scan(session: u32, number: u32, text: &[u8]) -> Option<Command>
    ensures { result ≡ option_and_then (scan_of session number) (number_of text.now) }
{
    let count = read_number(text)?;
    if count >= 1 && count <= COUNT_MAX {
        Some(Command::Scan {
            session,
            number,
            count,
        })
    } else {
        None
    }
}

fn read_one(name: &[u8], text: &[u8]) -> Option<Command>
    ensures { result ≡ option_and_then (command_of_one name.now) (number_of text.now) }
{
    let number = read_number(text)?;
    command_of_number(name, number)
}

fn read_two(name: &[u8], first: &[u8], text: &[u8]) -> Option<Command>
    requires { length text.now ≤ LINE_MAX }
    ensures { result ≡ option_and_then (two_words name.now text.now) (number_of first.now) }
{
    let number = read_number(first)?;
    if name == b"set".as_slice() {
        let value = read_value(text)?;
        return Some(Command::Set { number, value });
    }
    let second = read_number(text)?;
    command_of_numbers(name, number, second)
}

fn read_three(name: &[u8], session: u32, number: u32, text: &[u8]) -> Option<Command>
    requires { length text.now ≤ LINE_MAX }
    ensures { result ≡ three_words name.now text.now session number }
{
    if name == b"write".as_slice() {
        let value = read_value(text)?;
        return Some(Command::Write {
            session,
            number,
            value,
        });
    }
    if name == b"scan".as_slice() {
        return read_scan(session, number, text);
    }
    None
}

fn read_last(name: &[u8], first: &[u8], second: &[u8], text: &[u8]) -> Option<Command>
    requires { length text.now ≤ LINE_MAX }
    ensures { result ≡ command_in (name.now ∷ first.now ∷ second.now ∷ text.now ∷ []) }
{
    let session = read_number(first)?;
    let number = read_number(second)?;
    read_three(name, session, number, text)
}

fn read_words(line: &[u8]) -> Option<Command>
    requires { length line.now ≤ LINE_MAX }
    ensures { result ≡ command_in (words_of line.now) }
{
    let Some((name, rest)) = split_word(line) else {
        return read_bare(line);
    };
    let Some((first, rest)) = split_word(rest) else {
        return read_one(name, rest);
    };
    let Some((second, rest)) = split_word(rest) else {
        return read_two(name, first, rest);
    };
    match split_word(rest) {
        None => read_last(name, first, second, rest),
        Some(_) => None,
    }
}

/// The command of a line, which comes without its newline. A line that is in no command's form, or is too long, or asks
/// a scan for no record or for too many, is a `BadLine`.
pub fn read_line(line: &[u8]) -> Result<Command, BadLine>
    ensures command { IfOk result (IsCommandLine line.now) }
    ensures bad { IsErr result → (c : Command) → IsCommandLine line.now c → ⊥ }
    ensures line { result_ok result ≡ line_of line.now }
{
    if line.len() > LINE_MAX {
        return Err(BadLine);
    }
    read_words(line).ok_or(BadLine)
}
