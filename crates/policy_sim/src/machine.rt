ghost use Rattle.std.specs.Prelude.{◌≡◌, ◌+◌, ◌<◌, ◌≤◌, ◌&&◌, ◌||◌, not, false, ℕ, Bool, [], List, length, take};
ghost use Rattle.std.specs.Prelude.{IsTrue, IfOk, OnOk, if◌then◌else◌};
ghost use Rattle.byte_fields.specs.declared.frame_head.Mark.{Mark};
ghost use Rattle.second_chance.specs.Queue.{has_frame, with_read, front_marks};
ghost use Rattle.second_chance.specs.Plans.{eviction_plan};
ghost use Rattle.second_chance.specs.Machine.{holds, must_be_pushed, is_full, pool_marks};
ghost use Rattle.policy_sim.specs.Bounds.{IsBounded};
ghost use Rattle.policy_sim.specs.Machines.{rules_of_policy, blank, one_where};
ghost use Rattle.policy_sim.specs.Pools.{page_of, pages_of};
ghost use Rattle.policy_sim.specs.Listing.{IsPool, IsListedBy, unless};
ghost use Rattle.policy_sim.specs.Steps.{cache_of, rules_in, IsOrdered, IsUsable, HasPushed, HasEvicted, HasRoom};
ghost use Rattle.policy_sim.specs.Steps.{HasTouched};

use crate::counts::Counts;
use crate::directory::Directory;
use crate::entry::Entry;
use crate::group::new_group;
use crate::policy::Policy;
use crate::pool::Pool;
use byte_fields::Mark;
use second_chance::{Plan, PoolMark, PushPolicy, plan_evict_taking, plans_are_pushes};
use std::alloc::{AllocError, Global};

/// No mark.
const NO_MARK: Mark = Mark {
    page: 0,
    valid: false,
    dirty: false,
    referenced: false,
};

/// No page of the pool.
const NO_PAGE: PoolMark = PoolMark {
    page: 0,
    changed: false,
    framed: false,
};

/// A cache under one policy.
#[derive(Drop)]
pub struct Machine {
    /// What a push takes.
    pub taking: PushPolicy,
    /// How many pages the pool may have.
    pub pages: u32,
    /// How many groups the queue may have.
    pub groups: usize,
    /// The pages in memory.
    pub pool: Pool,
    /// The frames on flash.
    pub queue: Directory,
}

/// What was pushed to make room.
#[derive(Clone, Copy, Debug)]
pub struct Pushed {
    /// Whether a group was pushed.
    pub pushed: bool,
    /// How many frames were written to disk for it.
    pub staged: usize,
}

impl Machine {
    /// A machine with nothing in its pool and its queue, for a flash of so many groups and a pool of so many pages.
    pub fn new(alloc: Global, kind: Policy, groups: u32, pages: u32) -> Result<Machine, AllocError>
        requires some { 2 ≤ groups }
        requires most { groups ≤ 16384 }
        ensures rules { IfOk result (λ machine. rules_in machine ≡ rules_of_policy kind groups pages) }
        ensures blank { IfOk result (λ machine. cache_of machine ≡ blank) }
        ensures some { IfOk result (λ machine. 1 ≤ machine.groups) }
        ensures pool { IfOk result (λ machine. IsOrdered machine) }
    {
        Ok(Machine {
            taking: kind.taking(),
            pages,
            groups: kind.queue_size(groups),
            pool: Pool::new(alloc)?,
            queue: Directory::new(alloc),
        })
    }

    /// Whether the queue has as many groups as it may have.
    fn is_full(&self) -> bool
        requires { IsUsable self.now }
        ensures full { result ≡ is_full (rules_in self.now) self.now.queue }
        ensures some { IsTrue result → 0 < length self.now.queue.groups }
    {
        self.queue.len() >= self.groups
    }

    /// Writes what a push knows of the pages that it may take into the first places of `into`, and answers how many
    /// there are:
    /// the first seven from the cold end, and none where it takes none at all.
    fn candidates(&self, into: &mut [PoolMark; 7]) -> usize
        requires { IsOrdered self.now }
        ensures candidates { (front : List Mark)
            → eviction_plan self.now.taking.pulls self.now.taking.chances front (take result into.new)
            ≡ eviction_plan self.now.taking.pulls self.now.taking.chances front (pool_marks (cache_of self.now)) }
        ensures few { result ≤ 7 }
    {
        if self.taking.pulls {
            self.pool.candidates(&self.queue, into)
        } else {
            0
        }
    }

    /// What a push does where a group with these marks leaves, or no group where there are none.
    fn plan(&self, front: &[Mark]) -> Plan
        requires few { length front.now ≤ 8 }
        requires ordered { IsOrdered self.now }
        ensures plan { result ≡ eviction_plan self.now.taking.pulls self.now.taking.chances front.now
            (pool_marks (cache_of self.now)) }
        ensures fits { length result.chances + length result.pulled ≤ 7 }
    {
        let mut pool = [NO_PAGE; 7];
        let count = self.candidates(&mut pool);
        plan_evict_taking(self.taking, Some(front), &pool[..count])
    }

    /// Whether an evicted page must be pushed: it was changed, or has no frame in the queue.
    fn must_be_pushed(&self, own: &Entry) -> bool
        ensures { result ≡ must_be_pushed self.now.queue (page_of own.now) }
    {
        own.changed || self.queue.newest(own.page).is_none()
    }

    /// Pushes a group with a page that has left the pool. It answers how many frames are written to disk.
    fn push(&mut self, own: &Entry) -> Result<usize, AllocError>
        requires usable { IsUsable self.old }
        requires gone { holds (pages_of self.old.pool) own.now.page ≡ false }
        ensures ok { IfOk result (λ staged. HasPushed self.old self.new (page_of own.now) staged) }
    {
        plans_are_pushes();
        // No page is in the pool twice.
        let _len = self.pool.len();
        let full = self.is_full();
        let mut marks = [NO_MARK; 8];
        let count = marks_of_front(&self.queue, full, &mut marks);
        let plan = self.plan(&marks[..count]);
        let frames = new_group(&marks[..count], &plan, own, &self.pool);
        self.pool.remove_all(&plan.pulled);
        self.queue.push_group(frames, full)?;
        list_unframed(
            &mut self.pool,
            &self.queue,
            &marks[..count],
            self.taking.pulls,
        )?;
        Ok(plan.staged.len())
    }

    /// Takes the coldest page out of the pool, and pushes it where it must be.
    fn evict(&mut self) -> Result<Pushed, AllocError>
        requires { IsUsable self.old }
        ensures ok { IfOk result (λ made. HasEvicted self.old self.new made) }
    {
        let Some(coldest) = self.pool.take_coldest() else {
            return Ok(Pushed {
                pushed: false,
                staged: 0,
            });
        };
        if !self.must_be_pushed(&coldest) {
            return Ok(Pushed {
                pushed: false,
                staged: 0,
            });
        }
        let staged = self.push(&coldest)?;
        Ok(Pushed {
            pushed: true,
            staged,
        })
    }

    /// Makes room for one page more in the pool.
    fn make_room(&mut self) -> Result<Pushed, AllocError>
        requires { IsUsable self.old }
        ensures ok { IfOk result (λ made. HasRoom self.old self.new made) }
    {
        if self.pool.len() < self.pages as usize {
            return Ok(Pushed {
                pushed: false,
                staged: 0,
            });
        }
        self.evict()
    }

    /// A touch of a page, and what it counts. The page's frame is looked for after the eviction.
    pub fn touch(&mut self, page: u32, change: bool) -> Result<Counts, AllocError>
        requires { IsUsable self.old }
        ensures ok { IfOk result (λ made. HasTouched self.old self.new page change made) }
    {
        if self.pool.holds(page) {
            self.pool
                .touch(page, change, lists(self.taking.pulls, change, false))?;
            return Ok(in_pool());
        }
        let made = self.make_room()?;
        let found = read(&mut self.queue, page);
        self.pool
            .touch(page, change, lists(self.taking.pulls, change, !found))?;
        Ok(not_in_pool(found, &made))
    }
}

/// Writes the marks of the front group, where it leaves, into the first places of `into`, and answers how many there
/// are.
fn marks_of_front(queue: &Directory, leaves: bool, into: &mut [Mark; 8]) -> usize
    requires { IsTrue leaves → 0 < length queue.now.groups }
    ensures marks { take result into.new ≡ (if leaves then front_marks queue.now.groups else []) }
    ensures few { result ≤ 8 }
{
    if leaves { queue.marks(0, into) } else { 0 }
}

/// Whether a touch lists a page: a page that a push may take, where pushes take any.
fn lists(pulls: bool, change: bool, unframed: bool) -> bool
    ensures { result ≡ (pulls && (change || unframed)) }
{
    pulls && (change || unframed)
}

/// Lists the pages of a group that has left the queue, where they are in the pool and have no frame any more. It does
/// nothing where pushes take no pages.
fn list_unframed(
    pool: &mut Pool,
    queue: &Directory,
    front: &[Mark],
    pulls: bool,
) -> Result<(), AllocError>
    requires { IsPool pool.old }
    ensures pages { OnOk result (pages_of pool.new ≡ pages_of pool.old) }
    ensures pool { OnOk result (IsPool pool.new) }
    ensures listed { IsTrue pulls → (framed : ℕ → Bool) → IsListedBy framed pool.old.pages.entries
        → OnOk result (IsListedBy (unless front.now queue.now framed) pool.new.pages.entries) }
{
    if !pulls {
        return Ok(());
    }
    for mark in front {
        if queue.newest(mark.page).is_none() {
            pool.list(mark.page)?;
        }
    }
    Ok(())
}

/// Reads a page from its last frame, which becomes referenced. It says false where there is none.
fn read(queue: &mut Directory, page: u32) -> bool
    ensures found { result ≡ has_frame queue.old page }
    ensures after { queue.new ≡ with_read page queue.old }
    ensures frames { (n : ℕ) → has_frame queue.new n ≡ has_frame queue.old n }
{
    if queue.newest(page).is_none() {
        return false;
    }
    queue.set_referenced(page);
    true
}

/// What a touch of a page in the pool counts.
fn in_pool() -> Counts
    ensures counts { result ≡ record { touches = 1; pool = 1; flash = 0; disk = 0; staged = 0; pushed = 0 } }
    ensures bounded { IsBounded result }
{
    let mut counts = Counts::none();
    counts.touches = 1;
    counts.pool = 1;
    counts
}

/// What a touch of a page that isn't in the pool counts, where its frame was found or not.
fn not_in_pool(found: bool, made: &Pushed) -> Counts
    requires { made.now.staged ≤ 8 }
    ensures counts { result ≡ record {
      touches = 1;
      pool = 0;
      flash = one_where found;
      disk = one_where (not found);
      staged = made.now.staged;
      pushed = one_where made.now.pushed;
    } }
    ensures bounded { IsBounded result }
{
    Counts {
        touches: 1,
        pool: 0,
        flash: one_where(found),
        disk: one_where(!found),
        staged: made.staged as u64,
        pushed: one_where(made.pushed),
    }
}

/// 1 where something holds, else 0.
fn one_where(holds: bool) -> u64
    ensures one { result ≡ one_where holds }
    ensures few { result ≤ 1 }
{
    if holds { 1 } else { 0 }
}
