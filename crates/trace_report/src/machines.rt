// Three caches over one list of touches.
ghost use Rattle.std.specs.Prelude.{◌≡◌, ◌+◌, ◌≤◌, ◌<◌, ◌∷◌, ◌++◌, [], ℕ, List, length, IfOk, IfErr, OnOk};
ghost use Rattle.policy_sim.specs.declared.policy.Policy.{Policy};
ghost use Rattle.policy_sim.specs.Machines.{IsAfter};
ghost use Rattle.trace_report.specs.Traces.{Touch};
ghost use Rattle.trace_report.specs.Counting.{HaveMade, HaveServed};

use policy_sim::{Policy, Sim};
use site::Stop;
use std::alloc::Global;

/// So many touches are handed to a cache at once: one cache after the other then finds what it works on in the
/// processor's own memory.
const BATCH: usize = 262_144;

/// A cache under each policy, and the touches that wait to be handed to all three.
#[derive(Drop)]
pub struct Machines {
    pub fifo: Sim,
    pub group: Sim,
    pub chance: Sim,
    /// The pages that were touched last, and whether each was changed.
    pub waiting: Vec<(u32, bool)>,
}

impl Machines {
    /// Three caches with nothing in them, for a flash of so many groups and a pool of so many pages.
    pub fn new(alloc: Global, groups: u32, pool: u32) -> Result<Machines, Stop>
        requires groups_least { 8 ≤ groups }
        requires groups_most { groups ≤ 16384 }
        requires pool_least { 1 ≤ pool }
        requires pool_most { pool ≤ 4096 }
        ensures served { IfOk result (λ machines. HaveServed groups pool [] machines) }
        ensures made { IfOk result (λ machines. HaveMade 0 machines) }
        ensures memory { IfErr result (λ stop. stop ≡ Stop.Memory) }
    {
        Ok(Machines {
            fifo: Sim::new(alloc, Policy::Fifo, groups, pool)?,
            group: Sim::new(alloc, Policy::Group, groups, pool)?,
            chance: Sim::new(alloc, Policy::Chance, groups, pool)?,
            waiting: Vec::new(alloc),
        })
    }

    /// A touch of a page, with a change of it or without. So many touches were heard before.
    pub fn touch(&mut self, page: u32, change: bool) -> Result<(), Stop>
        requires few { (n : ℕ) × (n < 1000000) × HaveMade n self.old }
        ensures made { (n : ℕ) → HaveMade n self.old → OnOk result (HaveMade (n + 1) self.new) }
        ensures served { (groups pool : ℕ) → (touches : List Touch) → HaveServed groups pool touches self.old
            → OnOk result (HaveServed groups pool (touches ++ (page, change) ∷ []) self.new) }
        ensures memory { IfErr result (λ stop. stop ≡ Stop.Memory) }
    {
        self.waiting.push((page, change))?;
        if self.waiting.len() < BATCH {
            return Ok(());
        }
        self.serve()
    }

    /// Hands the touches that wait to the caches.
    pub fn serve(&mut self) -> Result<(), Stop>
        requires few { (n : ℕ) × (n ≤ 1000000) × HaveMade n self.old }
        ensures made { (n : ℕ) → HaveMade n self.old → OnOk result (HaveMade n self.new) }
        ensures served { (groups pool : ℕ) → (touches : List Touch) → HaveServed groups pool touches self.old
            → OnOk result (HaveServed groups pool touches self.new) }
        ensures none { OnOk result (self.new.waiting.items ≡ []) }
        ensures memory { IfErr result (λ stop. stop ≡ Stop.Memory) }
    {
        serve_all(&mut self.fifo, &self.waiting)?;
        serve_all(&mut self.group, &self.waiting)?;
        serve_all(&mut self.chance, &self.waiting)?;
        self.waiting.clear();
        Ok(())
    }
}

// Hands touches to a cache, one after the other.
fn serve_all(cache: &mut Sim, touches: &[(u32, bool)]) -> Result<(), Stop>
    requires few { cache.old.counts.touches + length touches.now ≤ 1000000 }
    ensures made { OnOk result (cache.new.counts.touches ≡ cache.old.counts.touches + length touches.now) }
    ensures served { (kind : Policy) → (groups pool : ℕ) → (before : List Touch)
        → IsAfter kind groups pool before cache.old
        → OnOk result (IsAfter kind groups pool (before ++ touches.now) cache.new) }
    ensures memory { IfErr result (λ stop. stop ≡ Stop.Memory) }
{
    for (page, change) in touches {
        cache.touch(*page, *change)?;
    }
    Ok(())
}
