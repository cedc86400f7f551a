// The pages of the cache, line by line.
ghost use Rattle.std.specs.Prelude.{◌≡◌, ◌+◌, ◌^◌, ◌<◌, ◌≤◌, ◌++◌, ◌∷◌, [], length, map, List, Some, slice_get};
ghost use Rattle.std.specs.Prelude.{IfOk, OnOk, IfErr};
ghost use Rattle.site.specs.declared.outside.Stop.{Stop};
ghost use Rattle.byte_fields.specs.declared.frame_head.Mark.{Mark};
ghost use Rattle.record_model.specs.declared.words.CacheLine.{CacheLine};
ghost use Rattle.second_chance.specs.Queue.{marks};
ghost use Rattle.second_chance.specs.Machine.{frame_lines, group_lines, listing};
ghost use Rattle.page_store.specs.Caching.{cache_of};

use crate::pushing::NO_MARK;
use crate::store::PageStore;
use buffer_pool::Pool;
use byte_fields::Mark;
use flash_cache::FlashCache;
use record_model::{CacheLine, Listing};
use site::Stop;
use std::alloc::Global;

// The line of a frame.
fn frame_line(group: u64, index: u8, mark: &Mark) -> CacheLine
    ensures { result ∷ [] ≡ frame_lines group index (mark.now ∷ []) }
{
    CacheLine::Frame {
        group,
        index,
        page: mark.page,
        valid: mark.valid,
        dirty: mark.dirty,
        referenced: mark.referenced,
    }
}

// Lists the frames of a group, which is named by its place in the queue.
fn list_group(flash: &FlashCache, place: usize, lines: &mut Listing) -> Result<(), Stop>
    requires place { place < length flash.now.directory.groups }
    requires numbers { flash.now.directory.first + length flash.now.directory.groups ≤ 2 ^ 40 }
    ensures lines { OnOk result ((frames : List Mark) → slice_get (marks flash.now.directory) place ≡ Some frames
        → lines.new ≡ lines.old ++ frame_lines (flash.now.directory.first + place) 0 frames) }
    ensures memory { IfErr result (λ stop. stop ≡ Stop.Memory) }
{
    let mut marks = [NO_MARK; 8];
    let count = flash.marks(place, &mut marks);
    let group = flash.first() + place as u64;
    for index in 0..count {
        lines.push(frame_line(group, index as u8, &marks[index]))?;
    }
    Ok(())
}

// Lists the queue, the front group first.
fn list_queue(flash: &FlashCache, lines: &mut Listing) -> Result<(), Stop>
    requires numbers { flash.now.directory.first + length flash.now.directory.groups ≤ 2 ^ 40 }
    ensures lines { OnOk result (lines.new
        ≡ lines.old ++ group_lines flash.now.directory.first (marks flash.now.directory)) }
    ensures memory { IfErr result (λ stop. stop ≡ Stop.Memory) }
{
    for place in 0..flash.groups() {
        list_group(flash, place, lines)?;
    }
    Ok(())
}

// Lists the pages in memory, the one touched last in front.
fn list_pool(alloc: Global, pool: &Pool, lines: &mut Listing) -> Result<(), Stop>
    ensures lines { OnOk result (lines.new
        ≡ lines.old ++ map (λ f. CacheLine.Pool f.page f.changed) pool.now.frames) }
    ensures memory { IfErr result (λ stop. stop ≡ Stop.Memory) }
{
    let marks = pool.marks(alloc)?;
    for (page, changed) in &marks {
        lines.push(CacheLine::Pool {
            page: *page,
            changed: *changed,
        })?;
    }
    Ok(())
}

impl PageStore {
    /// The frames in the queue, the oldest group first, and then the pages in memory, the one touched last in front.
    /// The one error is want of memory.
    pub fn listing(&self) -> Result<Listing, Stop>
        requires numbers { self.now.flash.directory.first + length self.now.flash.directory.groups ≤ 2 ^ 40 }
        ensures lines { IfOk result (λ lines. lines ≡ listing (cache_of self.now)) }
        ensures memory { IfErr result (λ stop. stop ≡ Stop.Memory) }
    {
        let mut lines = Listing::new(self.alloc);
        list_queue(&self.flash, &mut lines)?;
        list_pool(self.alloc, &self.pool, &mut lines)?;
        Ok(lines)
    }
}
