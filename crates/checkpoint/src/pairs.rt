ghost use Rattle.std.specs.Prelude.{◌≡◌, ◌↔◌, ◌+◌, ◌<◌, ◌≤◌, [], ◌∷◌, ◌++◌, length, slice_get, Some, IsTrue};
ghost use Rattle.checkpoint.specs.Actives.{Ascend};

use arrayvec::ArrayVec;
use std::marker::Model;

/// A transaction that was active at a checkpoint: the LSNs of its Begin and of its last log record.
#[derive(Clone, Copy, Debug, Default, PartialEq, Eq)]
pub struct Pair {
    pub begin: u64,
    pub last: u64,
}

/// The transactions that were active at a checkpoint, at most eight. It never allocates.
#[derive(Clone, Debug, Drop, PartialEq, Eq)]
pub struct Pairs {
    pairs: ArrayVec<Pair, 8>,
}

impl Model for Pairs {
    ghost use Rattle.std.specs.Prelude.{List};
    ghost use Rattle.checkpoint.specs.declared.pairs.Pair.{Pair};

    ghost Value = { List Pair };

    ghost view = { λ p. p.pairs.items };

    ghost inverse = { λ xs. record { pairs = record { items = xs } } };
}

impl Pairs {
    /// No transaction.
    pub fn new() -> Pairs
        ensures { result ≡ [] }
    {
        Pairs {
            pairs: ArrayVec::new(),
        }
    }

    /// One transaction more, at the end.
    pub fn push(&mut self, begin: u64, last: u64)
        requires { length self.old < 8 }
        ensures { self.new ≡ self.old ++ record { begin = begin; last = last } ∷ [] }
    {
        self.pairs.push(Pair { begin, last });
    }

    /// How many transactions there are.
    pub fn len(&self) -> usize
        ensures len { result ≡ length self.now }
        ensures few { result ≤ 8 }
    {
        self.pairs.len()
    }

    /// Whether there is none.
    pub fn is_empty(&self) -> bool
        ensures { IsTrue result ↔ (self.now ≡ []) }
    {
        self.pairs.is_empty()
    }

    /// The LSNs of the Begin and of the last record of the transaction at a place, counted from 0.
    pub fn at(&self, place: usize) -> (u64, u64)
        requires { place < length self.now }
        ensures { slice_get self.now place ≡ Some (record { begin = result.0; last = result.1 }) }
    {
        let pair = self.pairs[place];
        (pair.begin, pair.last)
    }

    /// Whether the LSNs of the Begins ascend.
    pub fn ascend(&self) -> bool
        ensures { IsTrue result ↔ Ascend self.now }
    {
        for place in 1..self.pairs.len() {
            if self.pairs[place].begin <= self.pairs[place - 1].begin {
                return false;
            }
        }
        true
    }
}
