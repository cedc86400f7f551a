ghost use Rattle.std.specs.Prelude.{◌≡◌, ◌≤◌, ◌+◌, [], ◌++◌, length, decimal};
ghost use Rattle.shell_text.specs.Texts.{value_text};

use arrayvec::ArrayVec;
use itoa::Buffer;
use record_model::Octets;
use std::marker::Model;

/// How many octets a line of output has at most, with its newline.
pub const TEXT_MAX: usize = 540;

/// A line of output, with its newline.
#[derive(Clone, Debug, Drop, PartialEq, Eq)]
pub struct Line {
    octets: ArrayVec<u8, TEXT_MAX>,
}

impl Model for Line {
    ghost use Rattle.std.specs.Prelude.{List, ℕ};

    ghost Value = { List ℕ };

    ghost view = { λ l. l.octets.items };

    ghost inverse = { λ xs. record { octets = record { items = xs } } };
}

impl Line {
    /// An empty line, to be filled.
    pub fn new() -> Line
        ensures { result ≡ [] }
    {
        Line {
            octets: ArrayVec::new(),
        }
    }

    /// Appends octets.
    pub fn push(&mut self, text: &[u8])
        requires { length self.old + length text.now ≤ TEXT_MAX }
        ensures text { self.new ≡ self.old ++ text.now }
        ensures len { length self.new ≡ length self.old + length text.now }
    {
        match self.octets.try_extend_from_slice(text) {
            Ok(()) => {}
            Err(_) => unreachable!(),
        }
    }

    /// Appends a number in decimal.
    pub fn push_number(&mut self, number: u64)
        requires { length self.old + 20 ≤ TEXT_MAX }
        ensures text { self.new ≡ self.old ++ decimal number }
        ensures len { length self.new ≤ length self.old + 20 }
    {
        let mut buffer = Buffer::new();
        self.push(buffer.format(number).as_bytes());
    }

    pub(crate) fn push_value(&mut self, value: &Octets)
        requires { length self.old + 513 ≤ TEXT_MAX }
        ensures text { self.new ≡ self.old ++ value_text value.now }
        ensures len { length self.new ≤ length self.old + 513 }
    {
        let octets = value.as_slice();
        if octets.is_empty() {
            return self.push(b"-");
        }
        let mut buffer = [0u8; 512];
        let digits = &mut buffer[..2 * octets.len()];
        match hex::encode_to_slice(octets, digits) {
            Ok(()) => self.push(digits),
            Err(_) => unreachable!(),
        }
    }

    /// The octets of the line.
    pub fn as_slice(&self) -> &[u8]
        ensures value { result.now ≡ self.now }
        ensures fits { length result.now ≤ TEXT_MAX }
    {
        self.octets.as_slice()
    }
}
