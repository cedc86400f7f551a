// What a commit has written.
ghost use Rattle.std.specs.Prelude.{◌≡◌, ◌<◌, length, slice_index_or, None, option_copied};

use crate::kept::Kept;
use std::marker::Model;

/// What a transaction leaves in the table, by ascending record number, each once.
#[derive(Drop)]
pub struct Net {
    pub(crate) writes: Vec<(u32, Option<Kept>)>,
}

impl Model for Net {
    ghost use Rattle.std.specs.Prelude.{List};
    ghost use Rattle.record_model.specs.State.{Write};

    ghost Value = { List Write };

    ghost view = { λ n. n.writes.items };
}

impl Net {
    /// How many records it writes.
    pub fn len(&self) -> usize
        ensures { result ≡ length self.now }
    {
        self.writes.len()
    }

    /// The number of the record at a place, counted from 0.
    pub fn number(&self, place: usize) -> u32
        requires { place < length self.now }
        ensures { result ≡ (slice_index_or self.now place (0, None)).0 }
    {
        self.writes[place].0
    }

    /// What the record at a place is to have: a value, or none.
    pub fn value(&self, place: usize) -> Option<&[u8]>
        requires { place < length self.now }
        ensures { option_copied result ≡ (slice_index_or self.now place (0, None)).1 }
    {
        match &self.writes[place].1 {
            Some(kept) => Some(kept.as_slice()),
            None => None,
        }
    }
}
