// What a line says.
ghost use Rattle.std.specs.Prelude.{◌≡◌, ◌↔◌, ℕ, List, Some, IfSome, IsTrue};
ghost use Rattle.std.specs.Result.{result_ok};
ghost use Rattle.hex.specs.Hex.{decode_sized};
ghost use Rattle.log_archive.specs.Lines.{IsBlockLine, IsEndLine};
ghost use Rattle.log_archive.specs.Numbers.{number_in};

use crate::written::{StreamLine, block_words, end_words};
use log_records::BLOCK_LEN;

/// How many octets stand behind a block's number: a space, and two digits for each octet.
const HEX_LEN: usize = 1 + 2 * BLOCK_LEN;

/// The greatest number of a line.
const NUMBER_MAX: u64 = 1_099_511_627_776;

fn read_number(digits: &[u8]) -> Option<u64>
    ensures { result ≡ number_in digits.now }
{
    let mut value: u64 = 0;
    for digit in digits {
        if !digit.is_ascii_digit() {
            return None;
        }
        if value >= 1_000_000_000_000 {
            return None;
        }
        value = 10 * value + u64::from(*digit - b'0');
    }
    Some(value)
}

// The content that hexadecimal digits write.
fn read_content(digits: &[u8]) -> Option<[u8; BLOCK_LEN]>
    ensures { result ≡ result_ok (decode_sized digits.now BLOCK_LEN) }
{
    let mut content = [0u8; BLOCK_LEN];
    match hex::decode_to_slice(digits, &mut content) {
        Ok(()) => Some(content),
        Err(_) => None,
    }
}

// Whether a line is this text.
fn is_text(line: &StreamLine, text: &[u8]) -> bool
    ensures { IsTrue result ↔ (line.now ≡ text.now) }
{
    line.as_slice() == text
}

/// The number of the last line of an archive, which comes without its newline; none where it isn't of that form, octet
/// for octet.
pub fn read_end(line: &[u8]) -> Option<u64>
    ensures form { IfSome result (IsEndLine line.now) }
    ensures read { (number : ℕ) → IsEndLine line.now number → result ≡ Some number }
{
    if line.len() < 4 {
        return None;
    }
    let number = read_number(&line[4..])?;
    if number > NUMBER_MAX {
        return None;
    }
    // What was read is written again and compared, so nothing else is taken.
    if is_text(&end_words(number), line) {
        Some(number)
    } else {
        None
    }
}

/// The number and the content of a block's line, which comes without its newline; none where it isn't of that form,
/// octet for octet.
pub fn read_block(line: &[u8]) -> Option<(u64, [u8; BLOCK_LEN])>
    ensures form { IfSome result (λ block. IsBlockLine line.now block.0 block.1) }
    ensures read { (number : ℕ) (content : List ℕ) → IsBlockLine line.now number content
        → result ≡ Some (number, content) }
{
    if line.len() < 6 + HEX_LEN {
        return None;
    }
    let space = line.len() - HEX_LEN;
    let number = read_number(&line[6..space])?;
    let content = read_content(&line[space + 1..])?;
    if number >= NUMBER_MAX {
        return None;
    }
    if is_text(&block_words(number, &content), line) {
        Some((number, content))
    } else {
        None
    }
}
