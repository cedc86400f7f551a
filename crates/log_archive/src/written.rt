// The lines as they are written.
ghost use Rattle.std.specs.Prelude.{◌≡◌, ◌+◌, ◌^◌, ◌<◌, ◌≤◌, [], ◌++◌, length, codes, decimal};
ghost use Rattle.hex.specs.Hex.{encode_lower};
ghost use Rattle.log_archive.specs.Lines.{block_text, end_text};

use arrayvec::ArrayVec;
use itoa::Buffer;
use log_records::BLOCK_LEN;
use std::marker::Model;

/// How many octets a line has at most, with its newline.
pub const STREAM_LINE_MAX: usize = 1040;

/// A line of a log archive, with its newline.
#[derive(Clone, Debug, Drop, PartialEq, Eq)]
pub struct StreamLine {
    octets: ArrayVec<u8, STREAM_LINE_MAX>,
}

impl Model for StreamLine {
    ghost use Rattle.std.specs.Prelude.{List, ℕ};

    ghost Value = { List ℕ };

    ghost view = { λ l. l.octets.items };

    ghost inverse = { λ xs. record { octets = record { items = xs } } };
}

impl StreamLine {
    // An empty line, to be filled.
    fn new() -> StreamLine
        ensures { result ≡ [] }
    {
        StreamLine {
            octets: ArrayVec::new(),
        }
    }

    // Appends octets.
    fn push(&mut self, text: &[u8])
        requires { length self.old + length text.now ≤ STREAM_LINE_MAX }
        ensures text { self.new ≡ self.old ++ text.now }
        ensures len { length self.new ≡ length self.old + length text.now }
    {
        match self.octets.try_extend_from_slice(text) {
            Ok(()) => {}
            Err(_) => unreachable!(),
        }
    }

    // Appends a number in decimal.
    fn push_number(&mut self, number: u64)
        requires { length self.old + 20 ≤ STREAM_LINE_MAX }
        ensures text { self.new ≡ self.old ++ decimal number }
        ensures len { length self.new ≤ length self.old + 20 }
    {
        let mut buffer = Buffer::new();
        self.push(buffer.format(number).as_bytes());
    }

    // Appends a block's content in lower-case digits.
    fn push_content(&mut self, content: &[u8])
        requires content { length content.now ≡ BLOCK_LEN }
        requires room { length self.old + 1006 ≤ STREAM_LINE_MAX }
        ensures text { self.new ≡ self.old ++ encode_lower content.now }
        ensures len { length self.new ≡ length self.old + 1006 }
    {
        let mut digits = [0u8; 2 * BLOCK_LEN];
        match hex::encode_to_slice(content, &mut digits) {
            Ok(()) => self.push(&digits),
            Err(_) => unreachable!(),
        }
    }

    /// The octets of the line.
    pub fn as_slice(&self) -> &[u8]
        ensures value { result.now ≡ self.now }
        ensures fits { length result.now ≤ STREAM_LINE_MAX }
    {
        self.octets.as_slice()
    }
}

// The line of a block, without its newline.
pub(crate) fn block_words(number: u64, content: &[u8]) -> StreamLine
    requires { length content.now ≡ BLOCK_LEN }
    ensures text { result ≡ block_text number content.now }
    ensures len { length result ≤ 1033 }
{
    let mut line = StreamLine::new();
    line.push(b"block ");
    line.push_number(number);
    line.push(b" ");
    line.push_content(content);
    line
}

// The last line, without its newline.
pub(crate) fn end_words(number: u64) -> StreamLine
    ensures text { result ≡ end_text number }
    ensures len { length result ≤ 24 }
{
    let mut line = StreamLine::new();
    line.push(b"end ");
    line.push_number(number);
    line
}

/// The line of a block with this number and these 503 octets.
pub fn block_line(number: u64, content: &[u8]) -> StreamLine
    requires number { number < 2 ^ 40 }
    requires content { length content.now ≡ BLOCK_LEN }
    ensures { result ≡ block_text number content.now ++ codes "\n" }
{
    let mut line = block_words(number, content);
    line.push(b"\n");
    line
}

/// The line behind the last block, with the number of the next one.
pub fn end_line(number: u64) -> StreamLine
    requires { number ≤ 2 ^ 40 }
    ensures { result ≡ end_text number ++ codes "\n" }
{
    let mut line = end_words(number);
    line.push(b"\n");
    line
}
