ghost use Rattle.std.specs.List.{list_any};
ghost use Rattle.std.specs.Prelude.{◌≡◌, ◌==◌, ◌<◌, ◌≤◌, [], ◌∷◌, ◌++◌, length, slice_get, Some};

use arrayvec::ArrayVec;
use std::marker::Model;

/// At most eight numbers, in order. It never allocates.
#[derive(Debug, Drop)]
pub struct Places {
    numbers: ArrayVec<u32, 8>,
}

impl Model for Places {
    ghost use Rattle.std.specs.Prelude.{List, ℕ};

    ghost Value = { List ℕ };

    ghost view = { λ p. p.numbers.items };
}

impl Places {
    /// No number.
    pub(crate) fn new() -> Places
        ensures { result ≡ [] }
    {
        Places {
            numbers: ArrayVec::new(),
        }
    }

    /// One number more, at the end.
    pub(crate) fn push(&mut self, number: u32)
        requires { length self.old < 8 }
        ensures { self.new ≡ self.old ++ number ∷ [] }
    {
        self.numbers.push(number);
    }

    /// How many there are.
    pub fn len(&self) -> usize
        ensures len { result ≡ length self.now }
        ensures few { result ≤ 8 }
    {
        self.numbers.len()
    }

    /// Whether there is none.
    pub fn is_empty(&self) -> bool
        ensures { result ≡ (length self.now == 0) }
    {
        self.numbers.is_empty()
    }

    /// Whether a number is one of them.
    pub fn contains(&self, number: u32) -> bool
        ensures { result ≡ list_any (λ other. other == number) self.now }
    {
        self.numbers.contains(&number)
    }

    /// The one at a place, counted from 0.
    pub fn at(&self, place: usize) -> u32
        requires { place < length self.now }
        ensures { slice_get self.now place ≡ Some result }
    {
        self.numbers[place]
    }
}
