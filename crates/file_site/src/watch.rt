// What is noticed of the input and of the replies as they pass, for what is said of them at the end.

use memchr::memchr_iter;

// So begins a reply that refuses a line.
const REFUSED: &[u8] = b"refused ";

// So begins the line that says which rule of sound devices fails; its number stands behind.
const UNSOUND: &[u8] = b"unsound S";

// What a front's place is once the line is known not to begin so.
const OTHER: usize = usize::MAX;

/// The number of replies that refused a line, the first line of the input that ends with a carriage return, and the
/// rule that was told to fail.
#[derive(Clone, Copy, Debug, PartialEq, Eq, Drop)]
pub struct Watch {
    line: u64,
    after_return: bool,
    returned: Option<u64>,
    matched: usize,
    refused: u64,
    matched_unsound: usize,
    rule: Option<u8>,
}

// How much of a word stands at the front of a line, with this octet behind so much of it.
fn front_after(matched: usize, octet: u8, word: &[u8]) -> usize {
    if octet == b'\n' {
        return 0;
    }
    if word.get(matched) == Some(&octet) {
        return matched.saturating_add(1);
    }
    OTHER
}

impl Watch {
    /// Nothing has passed yet.
    pub fn new() -> Watch {
        Watch {
            line: 1,
            after_return: false,
            returned: None,
            matched: 0,
            refused: 0,
            matched_unsound: 0,
            rule: None,
        }
    }

    /// The lines of the input that have passed whole, up to the first that ends with a carriage return.
    pub fn lines(&self) -> u64 {
        self.line.saturating_sub(1)
    }

    /// The replies that refused a line.
    pub fn refused(&self) -> u64 {
        self.refused
    }

    /// The rule of sound devices that was told to fail.
    pub fn rule(&self) -> Option<u8> {
        self.rule
    }

    /// The first line of the input that ends with a carriage return, counted from 1.
    pub fn returned(&self) -> Option<u64> {
        if self.returned.is_none() && self.after_return {
            return Some(self.line);
        }
        self.returned
    }

    /// This piece of the input has passed.
    pub fn hears(&mut self, piece: &[u8]) {
        if self.returned.is_some() {
            return;
        }
        for newline in memchr_iter(b'\n', piece) {
            let after_return = match newline.checked_sub(1) {
                Some(before) => piece.get(before) == Some(&b'\r'),
                None => self.after_return,
            };
            if after_return {
                self.returned = Some(self.line);
                return;
            }
            self.line = self.line.saturating_add(1);
        }
        if let Some(last) = piece.last() {
            self.after_return = *last == b'\r';
        }
    }

    // The next octet of a reply, which may refuse a line.
    fn notes_refused(&mut self, octet: u8) {
        self.matched = front_after(self.matched, octet, REFUSED);
        if self.matched == REFUSED.len() {
            self.refused = self.refused.saturating_add(1);
            self.matched = OTHER;
        }
    }

    // The next octet of a reply, which may say which rule fails.
    fn notes_rule(&mut self, octet: u8) {
        if self.matched_unsound == UNSOUND.len() && octet.is_ascii_digit() {
            let before = self.rule.unwrap_or(0);
            let digit = octet.saturating_sub(b'0');
            self.rule = Some(before.saturating_mul(10).saturating_add(digit));
            return;
        }
        self.matched_unsound = front_after(self.matched_unsound, octet, UNSOUND);
    }

    /// This piece of the replies has passed.
    pub fn tells(&mut self, piece: &[u8]) {
        for octet in piece {
            self.notes_refused(*octet);
            self.notes_rule(*octet);
        }
    }
}
