ghost use Rattle.std.specs.Prelude.{◌≡◌, ◌<◌, ◌≤◌, ◌++◌, ◌∷◌, [], ℕ, Bool, List, IfOk, IfErr, OnOk};
ghost use Rattle.policy_sim.specs.declared.policy.Policy.{Policy};
ghost use Rattle.policy_sim.specs.Machines.{start, after_touch, machine_counts, IsAfter};

use crate::counts::Counts;
use crate::machine::Machine;
use crate::policy::Policy;
use site::Stop;
use std::alloc::Global;
use std::marker::Model;

/// A page cache under one policy, without the pages: it counts what a list of touches does.
#[derive(Drop)]
pub struct Sim {
    machine: Machine,
    counts: Counts,
    /// Whether memory was wanting in a touch. The machine may then stand between two steps.
    ended: bool,
}

impl Model for Sim {
    ghost use Rattle.policy_sim.specs.Machines.{State};
    ghost use Rattle.policy_sim.specs.Sims.{state_of, IsSim};

    ghost Value = { State };

    ghost view = { λ s. state_of s.machine s.counts };

    ghost invariant = { λ s. IsSim s.machine s.counts s.ended };
}

impl Sim {
    /// A cache with nothing in its pool and its queue, for a flash of so many groups (8 to 16,384, a multiple of 4) and
    /// a pool of so many pages (1 to 4,096).
    pub fn new(alloc: Global, kind: Policy, groups: u32, pool: u32) -> Result<Sim, Stop>
        requires groups_least { 8 ≤ groups }
        requires groups_most { groups ≤ 16384 }
        requires pool_least { 1 ≤ pool }
        requires pool_most { pool ≤ 4096 }
        ensures start { IfOk result (λ sim. sim ≡ start kind groups pool) }
        ensures untouched { IfOk result (λ sim. IsAfter kind groups pool [] sim) }
        ensures memory { IfErr result (λ stop. stop ≡ Stop.Memory) }
    {
        Ok(Sim {
            machine: Machine::new(alloc, kind, groups, pool)?,
            counts: Counts::none(),
            ended: false,
        })
    }

    /// A touch of a page, with a change of it or without. Fewer than 1,000,000 touches were made before. Where memory
    /// is wanting the cache is ended.
    pub fn touch(&mut self, page: u32, change: bool) -> Result<(), Stop>
        requires few { self.old.counts.touches < 1000000 }
        ensures after { OnOk result (self.new ≡ after_touch self.old page change) }
        ensures counts_are_the_machines { OnOk result ((kind : Policy) → (groups pool : ℕ) → (touches : List (ℕ × Bool))
            → IsAfter kind groups pool touches self.old
            → IsAfter kind groups pool (touches ++ (page, change) ∷ []) self.new) }
        ensures memory { IfErr result (λ stop. stop ≡ Stop.Memory) }
    {
        if self.ended {
            return Err(Stop::Memory);
        }
        self.ended = true;
        let made = self.machine.touch(page, change)?;
        self.counts.add(&made);
        self.ended = false;
        Ok(())
    }

    /// What was counted so far.
    pub fn counts(&self) -> Counts
        ensures counts { result ≡ self.now.counts }
        ensures counts_are_the_machines { (kind : Policy) → (groups pool : ℕ) → (touches : List (ℕ × Bool))
            → IsAfter kind groups pool touches self.now → result ≡ machine_counts kind groups pool touches }
    {
        self.counts
    }
}
