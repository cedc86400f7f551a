// Pages are taken out of the pool, to be pushed together.
ghost use Rattle.std.specs.Prelude.{◌≡◌, ◌<◌, ◌≤◌, ◌++◌, ◌∷◌, [], List, length, map, IfOk, OnOk, IfErr};
ghost use Rattle.site.specs.declared.outside.Stop.{Stop};
ghost use Rattle.buffer_pool.specs.declared.frame.Frame.{Frame};
ghost use Rattle.second_chance.specs.Machine.{leaving};
ghost use Rattle.page_store.specs.Caching.{rules};
ghost use Rattle.page_store.specs.Representation.{IsStore, AreTold};
ghost use Rattle.page_store.specs.Pulling.{movable_mark, without_all, LeavesOut, candidates, pulled};
ghost use Rattle.page_store.specs.Taking.{Has, IsPlanFor};

use crate::store::PageStore;
use buffer_pool::{Frame, frames_of_pages};
use byte_fields::Mark;
use second_chance::{Places, Plan, PoolMark, plan_evict};
use site::Stop;
use slotted_page::Page;
use std::alloc::Global;

/// The most pages that are pulled from the pool with an evicted one.
const MOST_PULLED: usize = 7;

/// Pages that were taken out of the pool, place by place: their numbers, whether they were changed, and what they hold.
#[derive(Drop)]
pub struct EvictedPages {
    pub pages: Vec<u32>,
    pub changed: Vec<bool>,
    pub contents: Vec<Page>,
}

impl EvictedPages {
    // No page.
    fn new(alloc: Global) -> EvictedPages
        ensures { Has result [] }
    {
        EvictedPages {
            pages: Vec::new(alloc),
            changed: Vec::new(alloc),
            contents: Vec::new(alloc),
        }
    }

    // One page more.
    fn push(&mut self, page: u32, changed: bool, content: Page) -> Result<(), Stop>
        ensures has { (frames : List Frame) → Has self.old frames → OnOk result
            (Has self.new (frames ++ record { page = page; changed = changed; content = content } ∷ [])) }
        ensures memory { IfErr result (λ stop. stop ≡ Stop.Memory) }
    {
        self.pages.push(page)?;
        self.changed.push(changed)?;
        self.contents.push(content)?;
        Ok(())
    }
}

impl PageStore {
    // The pages that may be pulled from the pool, the coldest in front: seven at most of those that are changed or have
    // no frame in the queue.
    fn candidates(&self) -> Result<Vec<PoolMark>, Stop>
        requires { AreTold self.now }
        ensures marks { IfOk result (λ marks. marks.items ≡ map movable_mark (candidates self.now)) }
        ensures memory { IfErr result (λ stop. stop ≡ Stop.Memory) }
    {
        let coldest = self.pool.coldest_movable(self.alloc, MOST_PULLED)?;
        let mut found = Vec::new(self.alloc);
        for (page, changed) in &coldest {
            // Each is to be pushed; of one that is changed no plan asks whether it has a frame.
            found.push(PoolMark {
                page: *page,
                changed: *changed,
                framed: false,
            })?;
        }
        Ok(found)
    }

    // The plan of a push with a page that the pool has not any more. The marks are those of what leaves with the push.
    fn plan_for_evicted(&self, front: &[Mark]) -> Result<Plan, Stop>
        requires told { AreTold self.now }
        requires front { front.now ≡ leaving (rules self.now) self.now.flash.directory }
        requires few { length front.now ≤ 8 }
        ensures plan { IfOk result (λ plan. IsPlanFor plan self.now (map (λ f. f.page) (pulled self.now))) }
        ensures memory { IfErr result (λ stop. stop ≡ Stop.Memory) }
    {
        let found = self.candidates()?;
        Ok(plan_evict(Some(front), found.as_slice()))
    }

    // Takes the pages out of the pool that a push with an evicted page pulls.
    fn pull(&mut self, pages: &Places, taken: &mut EvictedPages) -> Result<(), Stop>
        requires store { IsStore self.old }
        requires pages { pages.now ≡ map (λ f. f.page) (pulled self.old) }
        ensures taken { (frames : List Frame) → Has taken.old frames
            → OnOk result (Has taken.new (frames ++ pulled self.old)) }
        ensures pool { OnOk result (self.new.pool ≡ record self.old.pool {
          frames = without_all (map (λ f. f.page) (pulled self.old)) self.old.pool.frames;
          framed = self.new.pool.framed;
        }) }
        ensures store { IsStore self.new }
        ensures part { LeavesOut self.old.pool.frames self.new.pool.frames }
        ensures kept { self.new ≡ record self.old { pool = self.new.pool } }
        ensures size { self.new.pool.size ≡ self.old.pool.size }
        ensures memory { IfErr result (λ stop. stop ≡ Stop.Memory) }
    {
        frames_of_pages();
        for place in 0..pages.len() {
            let page = pages.at(place);
            let Some((changed, content)) = self.pool.take_page(page) else {
                unreachable!();
            };
            taken.push(page, changed, content)?;
        }
        Ok(())
    }

    /// The plan of a push with a page that the pool has not any more, and that page with those that the plan pulls,
    /// which are taken out of the pool.
    pub(crate) fn take_with(
        &mut self,
        front: &[Mark],
        evicted: Frame,
    ) -> Result<(Plan, EvictedPages), Stop>
        requires store { IsStore self.old }
        requires front { front.now ≡ leaving (rules self.old) self.old.flash.directory }
        requires few { length front.now ≤ 8 }
        ensures plan { IfOk result (λ both. IsPlanFor both.0 self.old (map (λ f. f.page) (pulled self.old))) }
        ensures taken { IfOk result (λ both. Has both.1 (evicted ∷ pulled self.old)) }
        ensures pool { OnOk result (self.new.pool ≡ record self.old.pool {
          frames = without_all (map (λ f. f.page) (pulled self.old)) self.old.pool.frames;
          framed = self.new.pool.framed;
        }) }
        ensures store { IsStore self.new }
        ensures part { LeavesOut self.old.pool.frames self.new.pool.frames }
        ensures kept { self.new ≡ record self.old { pool = self.new.pool } }
        ensures size { self.new.pool.size ≡ self.old.pool.size }
        ensures memory { IfErr result (λ stop. stop ≡ Stop.Memory) }
    {
        let plan = self.plan_for_evicted(front)?;
        let mut taken = EvictedPages::new(self.alloc);
        taken.push(evicted.page, evicted.changed, evicted.content)?;
        self.pull(&plan.pulled, &mut taken)?;
        Ok((plan, taken))
    }
}
