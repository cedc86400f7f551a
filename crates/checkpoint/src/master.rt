ghost use Rattle.std.specs.Prelude.{◌≡◌};
ghost use Rattle.checkpoint.specs.Newest.{blank};

use crate::pairs::Pairs;

/// What a checkpoint leaves for a restart.
#[derive(Clone, Debug, Drop, PartialEq, Eq)]
pub struct Master {
    /// The log block that redo begins with.
    pub redo: u64,
    /// The oldest log block that is kept.
    pub kept: u64,
    /// The commits before the redo block.
    pub commits: u64,
    /// The transactions that were active, by ascending LSN of their Begins.
    pub active: Pairs,
}

impl Master {
    /// That of devices on which no checkpoint was made.
    pub fn blank() -> Master
        ensures { result ≡ blank }
    {
        Master {
            redo: 0,
            kept: 0,
            commits: 0,
            active: Pairs::new(),
        }
    }
}
