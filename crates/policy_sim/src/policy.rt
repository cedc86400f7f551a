ghost use Rattle.std.specs.Prelude.{◌≡◌, ◌≤◌};
ghost use Rattle.policy_sim.specs.Machines.{rules_of_policy};

use second_chance::PushPolicy;

/// How a cache treats the pages that leave its pool and its queue.
#[derive(Clone, Copy, Debug, PartialEq, Eq)]
pub enum Policy {
    /// Each group has one frame. No second chance is given, and nothing is pulled from the pool.
    Fifo,
    /// Pages are pulled from the pool to fill a group. No second chance is given.
    Group,
    /// Frames that were referenced are given a second chance, and pages are pulled from the pool to fill a group.
    Chance,
}

impl Policy {
    /// What a push takes.
    pub(crate) fn taking(self) -> PushPolicy
        ensures chances { result.chances ≡ (rules_of_policy self 0 0).chances }
        ensures pulls { result.pulls ≡ (rules_of_policy self 0 0).pulls }
    {
        let (chances, pulls) = match self {
            Policy::Fifo => (false, false),
            Policy::Group => (false, true),
            Policy::Chance => (true, true),
        };
        PushPolicy { chances, pulls }
    }

    /// How many groups the queue holds on a flash of so many groups.
    pub(crate) fn queue_size(self, groups: u32) -> usize
        requires some { 2 ≤ groups }
        requires most { groups ≤ 16384 }
        ensures size { result ≡ (rules_of_policy self groups 0).groups }
        ensures some { 1 ≤ result }
    {
        let used = groups as usize - 1;
        match self {
            Policy::Fifo => 8 * used,
            Policy::Group => used,
            Policy::Chance => used,
        }
    }
}
