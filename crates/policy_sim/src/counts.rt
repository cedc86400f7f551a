ghost use Rattle.std.specs.Prelude.{◌≡◌, ◌<◌};
ghost use Rattle.policy_sim.specs.Machines.{sum_of, no_counts};
ghost use Rattle.policy_sim.specs.Bounds.{IsBounded};

/// What was counted over a list of touches.
#[derive(Clone, Copy, Debug, PartialEq, Eq)]
pub struct Counts {
    /// The touches.
    pub touches: u64,
    /// The touches of a page that was in the pool.
    pub pool: u64,
    /// The touches of a page that was read from a valid frame in the queue.
    pub flash: u64,
    /// The touches of a page that was in neither.
    pub disk: u64,
    /// The frames that were written to disk.
    pub staged: u64,
    /// The groups that were pushed.
    pub pushed: u64,
}

impl Counts {
    /// Nothing counted.
    pub(crate) fn none() -> Counts
        ensures { result ≡ no_counts }
    {
        Counts {
            touches: 0,
            pool: 0,
            flash: 0,
            disk: 0,
            staged: 0,
            pushed: 0,
        }
    }

    /// Adds what one touch more has counted.
    pub(crate) fn add(&mut self, more: &Counts)
        requires few { self.old.touches < 1000000 }
        requires bounded { IsBounded self.old }
        requires one { more.now.touches ≡ 1 }
        requires small { IsBounded more.now }
        ensures sum { self.new ≡ sum_of self.old more.now }
        ensures bounded { IsBounded self.new }
    {
        self.touches += more.touches;
        self.pool += more.pool;
        self.flash += more.flash;
        self.disk += more.disk;
        self.staged += more.staged;
        self.pushed += more.pushed;
    }
}
