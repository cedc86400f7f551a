// Sixty-four LSNs that stand next to one another.
ghost use Rattle.std.specs.Prelude.{◌≡◌, ◌↔◌, ◌<◌, ◌==◌, ℕ, false, slice_index_or, slice_set, IsTrue};

/// How many LSNs a row stands for.
pub const LSNS: u64 = 64;

/// Which of them are held.
#[derive(Clone, Copy, Debug, Drop)]
pub struct Row {
    pub held: [bool; 64],
}

impl Row {
    /// That of one place.
    pub fn of(place: usize) -> Row
        requires { place < 64 }
        ensures { (n : ℕ) → slice_index_or result.held n false ≡ (place == n) }
    {
        let none = Row { held: [false; 64] };
        none.with(place, true)
    }

    /// The same but for one place.
    pub fn with(&self, place: usize, held: bool) -> Row
        requires { place < 64 }
        ensures { result ≡ record { held = slice_set self.now.held place held } }
    {
        let mut with = *self;
        with.held[place] = held;
        with
    }

    /// Whether none is held.
    pub fn is_empty(&self) -> bool
        ensures { IsTrue result ↔ ((place : ℕ) → slice_index_or self.now.held place false ≡ false) }
    {
        !self.held.contains(&true)
    }
}
