// The queue on flash: its groups stand on a ring of the flash device, and a directory in memory knows their frames.
ghost use Rattle.std.specs.Prelude.{◌≡◌, ◌≢◌, ◌⊎◌, ◌↔◌, ◌+◌, ◌-◌, ◌*◌, ◌<◌, ◌≤◌, ℕ, List, length, take, []};
ghost use Rattle.std.specs.Prelude.{true, false, IsTrue, IfOk, OnOk, OnErr, IfErr, IsErrOf};
ghost use Rattle.std.specs.Prelude.{Some, if◌then◌else◌, slice_get, AllPairs};
ghost use Rattle.std.specs.List.{All, AllByRecursion};
ghost use Rattle.site.specs.declared.outside.Dev.{Dev};
ghost use Rattle.site.specs.declared.outside.Stop.{Stop};
ghost use Rattle.site.specs.Geometry.{HasLimits, HasLengths};
ghost use Rattle.site.specs.State.{reads_of, IsSettled, IsQuiet};
ghost use Rattle.site.specs.Calls.{SameReads};
ghost use Rattle.site.specs.Moments.{LeavesOnly, ChangesOnly, SameAt, Untouched};
ghost use Rattle.sealed_ring.specs.Reading.{ReadsFrom};
ghost use Rattle.sealed_ring.specs.Ready.{LeavesOldOrNew};
ghost use Rattle.byte_fields.specs.declared.frame_head.FrameHead.{FrameHead};
ghost use Rattle.byte_fields.specs.FrameHeads.{AreGroupHeads};
ghost use Rattle.image_changes.specs.Rings.{group_shape, Groups as GroupRing};
ghost use Rattle.image_changes.specs.Changes.{Appends, Reaches};
ghost use Rattle.frame_group.specs.Groups.{Frame, IsFrame, heads_of, group};
ghost use Rattle.tail_rebuild.specs.Listing.{ReadsFlash};
ghost use Rattle.tail_rebuild.specs.Saving.{is_due, LeavesGaps};
ghost use Rattle.second_chance.specs.Queue.{has_frame, with_read, marks, front_marks};
ghost use Rattle.second_chance.specs.Machine.{rules_of, leaving};
ghost use Rattle.stage_out.specs.Staged.{HasStaged, calls_of, unsynced_in};
ghost use Rattle.flash_directory.specs.Heads.{frames_in};
ghost use Rattle.flash_cache.specs.Calls.{KeepsCache};
ghost use Rattle.flash_cache.specs.Representation.{Invariant, Matches, IsNext, HasGroups};
ghost use Rattle.flash_cache.specs.Representation.{HasFrames, AreSaved, Represents, queue_of, version_on};
ghost use Rattle.flash_cache.specs.Representation.{PagesExist, start_reads};
ghost use Rattle.flash_cache.specs.Pushed.{staged_pages, staged_contents, pages_pushed};
ghost use Rattle.flash_cache.specs.Pushed.{frames_given, frames_pushed, known_pushed, pushed_queue};
ghost use Rattle.flash_cache.specs.Pushed.{changes_of_push, LeavesPush};
ghost use Rattle.flash_cache.specs.Pushed.{ChangesPages, IsPlan};
ghost use Rattle.flash_cache.specs.OnDisk.{SomeMoment};
ghost use Rattle.flash_cache.specs.Kept.{PushesGroup};

use crate::leaving::frames_leaving;
use crate::making::{PagesToPush, heads_given, new_group};
use byte_fields::{FrameHead, Mark};
use flash_directory::{Directory, HeadView};
use frame_group::{HEADS_LEN, PAGE_LEN};
use sealed_ring::Ring;
use second_chance::Plan;
use site::{Dev, Geometry, Site, Stop};
use slotted_page::Page;
use stage_out::stage;
use std::alloc::Global;
use tail_rebuild::{rebuild, save_due};

/// What a push does with the front group: the marks of the frames that leave the queue with it, and the plan for them.
#[derive(Drop)]
pub struct PushPlan<'a> {
    pub front: &'a [Mark],
    pub plan: Plan,
}

/// The queue of groups on flash. It is ended once a call that changes it gave an error.
#[derive(Drop)]
pub struct FlashCache {
    alloc: Global,
    geometry: Geometry,
    ring: Ring,
    segments: Ring,
    directory: Directory,
    ended: bool,
}

impl FlashCache {
    /// The queue that stands on the flash of a site, found by its segments: it reads each segment that has a live
    /// group, and the heads of the at most four groups that aren't in segments, and so about half as often as there are
    /// slots for groups. No frame is referenced.
    ///
    /// `Foreign` comes only where flash isn't of the form, or its segments don't follow the groups; `Memory` where the
    /// heads or the directory find none.
    pub fn start<S: Site>(
        alloc: Global,
        site: &mut S,
        geometry: &Geometry,
    ) -> Result<FlashCache, Stop>
        requires limits { HasLimits geometry.now }
        requires lengths { HasLengths geometry.now (S.state site.old).image }

        // Of an honest site that has groups, and segments that follow them.
        ensures fits { IsTrue (S.state site.old).honest → (first : ℕ) (groups : List (List Frame))
            → HasGroups geometry.now first groups (S.state site.old).image
            → AreSaved geometry.now groups (S.state site.old).image
            → IfOk result (λ cache. Matches cache (S.state site.new)) }
        ensures queue { IsTrue (S.state site.old).honest → (first : ℕ) (groups : List (List Frame))
            → HasGroups geometry.now first groups (S.state site.old).image
            → AreSaved geometry.now groups (S.state site.old).image
            → IfOk result (λ cache. cache.directory ≡ queue_of first groups) }
        ensures holds { IsTrue (S.state site.old).honest → (first : ℕ) (groups : List (List Frame))
            → HasGroups geometry.now first groups (S.state site.old).image
            → AreSaved geometry.now groups (S.state site.old).image
            → IfOk result (λ cache. Represents cache (S.state site.new).image groups) }
        ensures foreign { IsErrOf result Stop.Foreign → IsTrue (S.state site.old).honest
            → (first : ℕ) (groups : List (List Frame))
            → HasGroups geometry.now first groups (S.state site.old).image
            → AreSaved geometry.now groups (S.state site.old).image → ⊥ }

        // Of every honest site.
        ensures is_next { IsTrue (S.state site.old).honest → IfOk result (λ cache. IsNext cache (S.state site.new)) }

        // Of every site.
        ensures going { IfOk result (λ cache. Invariant cache (S.state site.new)) }
        ensures geometry { IfOk result (λ cache. cache.geometry ≡ geometry.now) }
        ensures ended { IfOk result (λ cache. cache.ended ≡ false) }
        ensures reads { ReadsFlash result (start_reads geometry.now) (S.state site.old) (S.state site.new) }
    {
        let heads = match rebuild(alloc, site, geometry) {
            Ok(heads) => heads,
            Err(stop) => return Err(stop),
        };
        let view = HeadView {
            first: heads.groups.oldest(),
            list: heads.list.as_slice(),
        };
        let Ok(directory) = Directory::of_groups(alloc, &view) else {
            return Err(Stop::Memory);
        };
        Ok(FlashCache {
            alloc,
            geometry: *geometry,
            ring: heads.groups,
            segments: heads.segments,
            directory,
            ended: false,
        })
    }

    /// Whether a page has a frame in the queue.
    pub fn holds(&self, page: u32) -> bool
        ensures { result ≡ has_frame self.now.directory page }
    {
        self.directory.newest(page).is_some()
    }

    /// Reads the last frame of a page, by one read of one page, and marks it as referenced. It answers false where the
    /// page has no frame; then nothing changes.
    pub fn fetch<S: Site>(&mut self, site: &mut S, page: u32, into: &mut Page) -> Result<bool, Stop>
        requires { Invariant self.old (S.state site.old) }

        ensures fetched { (groups : List (List Frame))
            → Matches self.old (S.state site.old) → Represents self.old (S.state site.old).image groups
            → IfOk result (λ found. found ≡ true
            → into.new ≡ version_on self.old.geometry (S.state site.old).image page) }
        ensures found { IfOk result (λ found. found ≡ has_frame self.old.directory page) }
        ensures none { has_frame self.old.directory page ≡ false
            → (site.new ≡ site.old) × (self.new ≡ self.old) × (into.new ≡ into.old) }
        ensures marked { has_frame self.old.directory page ≡ true
            → OnOk result (self.new ≡ record self.old { directory = with_read page self.old.directory }) }
        ensures going { Invariant self.new (S.state site.new) }
        ensures fits { Matches self.old (S.state site.old) → OnOk result (Matches self.new (S.state site.new)) }
        ensures holds { (groups : List (List Frame))
            → Matches self.old (S.state site.old) → Represents self.old (S.state site.old).image groups
            → OnOk result (Represents self.new (S.state site.new).image groups) }
        ensures err { OnErr result (self.new ≡ record self.old { ended = true }) }
        ensures geometry { self.new.geometry ≡ self.old.geometry }
        ensures segments { self.new.segments ≡ self.old.segments }
        ensures reads { ReadsFrom result Dev.Flash 1 (S.state site.old) (S.state site.new) }
        ensures stops { IfErr result (λ stop. stop ≡ Stop.Device Dev.Flash) }
    {
        let Some(place) = self.directory.newest(page) else {
            return Ok(false);
        };
        let mut octets = [0u8; PAGE_LEN];
        let at = HEADS_LEN as u64 + PAGE_LEN as u64 * place.index as u64;
        let Ok(()) = self.ring.read_part(site, place.group, at, &mut octets) else {
            self.ended = true;
            return Err(Stop::Device(Dev::Flash));
        };
        *into = Page::from_bytes(&octets);
        self.directory.set_referenced(page);
        Ok(true)
    }

    /// Pushes a group with the second chances of the plan, and behind them the pages given, each dirty where it was
    /// changed. First, where four groups aren't in segments, a segment with their heads is saved. Where the queue is
    /// full its front group leaves. The frames of it that have a second chance are read, and
    /// stand in the new group as they were, dirty or not, but not referenced. Those that the plan stages, the others
    /// that are valid and dirty, are read, written to the disk, and synced there before the group is appended.
    ///
    /// At each moment of the call segments follow the groups, and the queue has its old groups, and the staged pages
    /// may have any octets on the disk; or it has the new group, and the staged pages stand on the disk. So each page
    /// has the version that it had, or all pages given have their contents, and every other page the version that it
    /// had.
    ///
    /// `plan` is that of the machine for the front group, by the marks of what leaves with it. The lists are the pages
    /// given, of which none is given twice, whether each was changed, and the content of each. With the second chances
    /// they are 1 to 8 pages; a page that has a second chance may be given, too, and has the content given then.
    ///
    /// `Foreign` comes only of a site that isn't honest, or has other groups than the cache found.
    pub fn push_group<S: Site>(
        &mut self,
        site: &mut S,
        plan: &PushPlan,
        pages: &[u32],
        changed: &[bool],
        contents: &[Page],
    ) -> Result<(), Stop>
        requires going { Invariant self.old (S.state site.old) }
        requires plan { IsPlan plan.now self.old }
        requires marks { length changed.now ≡ length pages.now }
        requires lists { length contents.now ≡ length pages.now }
        requires some { 1 ≤ length (pages_pushed self.old pages.now) }
        requires few { length (pages_pushed self.old pages.now) ≤ 8 }
        requires exist { All (λ page. page < self.old.geometry.pages) pages.now }
        requires apart { AllPairs (λ a b. a ≢ b) pages.now }

        // Of an honest site that the cache fits and whose groups it holds.
        ensures pushes { (groups : List (List Frame))
            → Matches self.old (S.state site.old) → Represents self.old (S.state site.old).image groups
            → PushesGroup result self.old self.new groups pages.now changed.now contents.now
            (S.state site.old) (S.state site.new) }

        // Of every honest site.
        ensures changes { IsTrue (S.state site.old).honest
            → ChangesPages (S.state site.old) (S.state site.new) }
        ensures alone { IsTrue (S.state site.old).honest → staged_pages self.old ≡ []
            → Untouched Dev.Disk (S.state site.old) (S.state site.new) }

        // Five calls for a segment that is due, one for each page that is staged and for the sync, and five for the
        // group. Only those of staging find something of the disk loose.
        ensures device_calls { IsTrue (S.state site.old).honest
            → OnOk result (length (S.state site.new).past ≡ length (S.state site.old).past
            + ((if is_due self.old.ring.hi self.old.segments.hi then 5 else 0)
            + (calls_of (staged_pages self.old) + 5))) }
        ensures unsynced { IsTrue (S.state site.old).honest → IsSettled Dev.Disk (S.state site.old)
            → OnOk result (unsynced_in (S.state site.new).past
            ≡ unsynced_in (S.state site.old).past + calls_of (staged_pages self.old)) }

        // Of every site.
        ensures directory { OnOk result (self.new.directory
            ≡ pushed_queue self.old (known_pushed self.old pages.now changed.now)) }
        ensures keeps { KeepsCache result self.old self.new (S.state site.old) (S.state site.new) }
        ensures ended { OnOk result (self.new.ended ≡ self.old.ended) }
        ensures err { OnErr result (self.new.ended ≡ true) }
        ensures reads { (S.state site.new).flash_reads ≤ (S.state site.old).flash_reads
            + ((if is_due self.old.ring.hi self.old.segments.hi then 4 else 0) + 8) }
        ensures others { (d : Dev) → d ≢ Dev.Flash
            → reads_of d (S.state site.new) ≡ reads_of d (S.state site.old) }

        // When each answer comes.
        ensures stops { IfErr result (λ stop. (stop ≡ Stop.Device Dev.Flash)
            ⊎ ((stop ≡ Stop.Device Dev.Disk)
            ⊎ ((stop ≡ Stop.Memory)
            ⊎ ((stop ≡ Stop.Worn Dev.Flash) ⊎ (stop ≡ Stop.Foreign))))) }
    {
        let heads = heads_given(pages, changed, contents);
        let given = PagesToPush {
            pages,
            changed,
            contents,
            heads,
        };
        if let Err(stop) = save_due(site, &self.geometry, &self.ring, &mut self.segments) {
            self.ended = true;
            return Err(stop);
        }
        if let Err(stop) = self.push(site, plan, &given) {
            self.ended = true;
            return Err(stop);
        }
        Ok(())
    }

    // The same where no segment is due, but that an error doesn't end the cache.
    fn push<S: Site>(
        &mut self,
        site: &mut S,
        plan: &PushPlan,
        given: &PagesToPush,
    ) -> Result<(), Stop>
        requires going { Invariant self.old (S.state site.old) }
        requires none_due { is_due self.old.ring.hi self.old.segments.hi ≡ false }
        requires plan { IsPlan plan.now self.old }
        requires marks { length given.now.changed.now ≡ length given.now.pages.now }
        requires lists { length given.now.contents.now ≡ length given.now.pages.now }
        requires some { 1 ≤ length (pages_pushed self.old given.now.pages.now) }
        requires few { length (pages_pushed self.old given.now.pages.now) ≤ 8 }
        requires exist { All (λ page. page < self.old.geometry.pages) given.now.pages.now }
        requires heads { given.now.heads ≡ heads_of (frames_given given.now.pages.now given.now.changed.now
            given.now.contents.now) }
        requires are_frames { AllByRecursion IsFrame (frames_given given.now.pages.now given.now.changed.now
            given.now.contents.now) }

        ensures any_moment { (groups : List (List Frame))
            → Matches self.old (S.state site.old) → Represents self.old (S.state site.old).image groups
            → IsQuiet (S.state site.old)
            → LeavesOnly (S.state site.old) (S.state site.new) (LeavesPush self.old.geometry
            (staged_pages self.old) (staged_contents self.old groups)
            (group (frames_pushed self.old (S.state site.old).image
            given.now.pages.now given.now.changed.now given.now.contents.now)) (S.state site.old)) }
        ensures reaches { (groups : List (List Frame))
            → Matches self.old (S.state site.old) → Represents self.old (S.state site.old).image groups
            → OnOk result (Reaches self.old.geometry (changes_of_push (staged_pages self.old)
            (group (frames_pushed self.old (S.state site.old).image
            given.now.pages.now given.now.changed.now given.now.contents.now)))
            (S.state site.old).image (S.state site.new).image) }
        ensures staged { (groups : List (List Frame))
            → Matches self.old (S.state site.old) → Represents self.old (S.state site.old).image groups
            → OnOk result (HasStaged (staged_pages self.old) (staged_contents self.old groups)
            (S.state site.old).image.disk (S.state site.new).image.disk) }
        ensures gaps { Matches self.old (S.state site.old) → IsQuiet (S.state site.old)
            → LeavesGaps self.old.geometry (S.state site.old) (S.state site.new) }
        ensures shown { IsTrue (S.state site.old).honest → 1 ≤ length (staged_pages self.old)
            → OnOk result (SomeMoment (S.state site.old) (S.state site.new)
            (SameAt Dev.Flash (S.state site.old))) }
        ensures frames { (groups : List (List Frame))
            → Matches self.old (S.state site.old) → Represents self.old (S.state site.old).image groups
            → let frames = frames_pushed self.old (S.state site.old).image
            given.now.pages.now given.now.changed.now given.now.contents.now in
            HasFrames self.old.geometry frames (group frames) }
        ensures changes { IsTrue (S.state site.old).honest
            → ChangesPages (S.state site.old) (S.state site.new) }
        ensures alone { IsTrue (S.state site.old).honest → staged_pages self.old ≡ []
            → Untouched Dev.Disk (S.state site.old) (S.state site.new) }
        ensures device_calls { IsTrue (S.state site.old).honest
            → OnOk result (length (S.state site.new).past
            ≡ length (S.state site.old).past + (calls_of (staged_pages self.old) + 5)) }
        ensures unsynced { IsTrue (S.state site.old).honest → IsSettled Dev.Disk (S.state site.old)
            → OnOk result (unsynced_in (S.state site.new).past
            ≡ unsynced_in (S.state site.old).past + calls_of (staged_pages self.old)) }

        // Of every site.
        ensures directory { OnOk result (self.new.directory
            ≡ pushed_queue self.old (known_pushed self.old given.now.pages.now given.now.changed.now)) }
        ensures keeps { KeepsCache result self.old self.new (S.state site.old) (S.state site.new) }
        ensures ended { self.new.ended ≡ self.old.ended }
        ensures reads { (S.state site.new).flash_reads ≤ (S.state site.old).flash_reads + 8 }
        ensures others { (d : Dev) → d ≢ Dev.Flash
            → reads_of d (S.state site.new) ≡ reads_of d (S.state site.old) }

        // When each answer comes.
        ensures stops { IfErr result (λ stop. (stop ≡ Stop.Device Dev.Flash)
            ⊎ ((stop ≡ Stop.Device Dev.Disk)
            ⊎ ((stop ≡ Stop.Memory) ⊎ (stop ≡ Stop.Worn Dev.Flash)))) }
    {
        let (staged, chances) = match frames_leaving(
            self.alloc,
            site,
            &self.ring,
            self.directory.first(),
            plan.front,
            &plan.plan,
        ) {
            Ok(both) => both,
            Err(stop) => return Err(stop),
        };
        let group = new_group(&chances, &given.heads, given.contents);
        let (pages, octets) = (staged.pages.as_slice(), staged.contents.as_slice());
        self.write(site, pages, octets, &group.content, &group.heads)
    }

    // Stages pages, and then appends a group; its heads are these.
    fn write<S: Site>(
        &mut self,
        site: &mut S,
        staged: &[u32],
        octets: &[Page],
        content: &[u8],
        heads: &[FrameHead; 8],
    ) -> Result<(), Stop>
        requires going { Invariant self.old (S.state site.old) }
        requires none_due { is_due self.old.ring.hi self.old.segments.hi ≡ false }
        requires lists { length octets.now ≡ length staged.now }
        requires once { AllPairs (λ a b. a ≢ b) staged.now }
        requires pages { All (λ page. page < self.old.geometry.pages) staged.now }
        requires room { length content.now ≡ 32896 }
        requires heads { AreGroupHeads heads.now }
        requires exist { PagesExist self.old.geometry.pages heads.now }

        ensures any_moment { Matches self.old (S.state site.old) → IsQuiet (S.state site.old)
            → LeavesOnly (S.state site.old) (S.state site.new) (LeavesPush self.old.geometry
            staged.now octets.now content.now (S.state site.old)) }
        ensures reaches { Matches self.old (S.state site.old)
            → OnOk result (Reaches self.old.geometry (changes_of_push staged.now content.now)
            (S.state site.old).image (S.state site.new).image) }
        ensures staged { Matches self.old (S.state site.old) → OnOk result (HasStaged staged.now octets.now
            (S.state site.old).image.disk (S.state site.new).image.disk) }
        ensures gaps { Matches self.old (S.state site.old) → IsQuiet (S.state site.old)
            → LeavesGaps self.old.geometry (S.state site.old) (S.state site.new) }
        ensures shown { IsTrue (S.state site.old).honest → 1 ≤ length staged.now
            → OnOk result (SomeMoment (S.state site.old) (S.state site.new)
            (SameAt Dev.Flash (S.state site.old))) }
        ensures changes { IsTrue (S.state site.old).honest
            → ChangesPages (S.state site.old) (S.state site.new) }
        ensures alone { IsTrue (S.state site.old).honest → staged.now ≡ []
            → Untouched Dev.Disk (S.state site.old) (S.state site.new) }
        ensures device_calls { IsTrue (S.state site.old).honest
            → OnOk result (length (S.state site.new).past
            ≡ length (S.state site.old).past + (calls_of staged.now + 5)) }
        ensures unsynced { IsTrue (S.state site.old).honest → IsSettled Dev.Disk (S.state site.old)
            → OnOk result (unsynced_in (S.state site.new).past
            ≡ unsynced_in (S.state site.old).past + calls_of staged.now) }

        // Of every site.
        ensures ok { OnOk result (self.new.directory ≡ pushed_queue self.old (frames_in heads.now)) }
        ensures keeps { KeepsCache result self.old self.new (S.state site.old) (S.state site.new) }
        ensures ended { self.new.ended ≡ self.old.ended }
        ensures reads { SameReads (S.state site.old) (S.state site.new) }

        // When each answer comes.
        ensures stops { IfErr result (λ stop. (stop ≡ Stop.Device Dev.Flash)
            ⊎ ((stop ≡ Stop.Device Dev.Disk)
            ⊎ ((stop ≡ Stop.Memory) ⊎ (stop ≡ Stop.Worn Dev.Flash)))) }
    {
        if let Err(stop) = stage(site, staged, octets) {
            return Err(stop);
        }
        self.append(site, content, heads)
    }

    // Appends a group behind the others, on flash and in the directory; its heads are these.
    fn append<S: Site>(
        &mut self,
        site: &mut S,
        content: &[u8],
        heads: &[FrameHead; 8],
    ) -> Result<(), Stop>
        requires going { Invariant self.old (S.state site.old) }
        requires none_due { is_due self.old.ring.hi self.old.segments.hi ≡ false }
        requires room { length content.now ≡ 32896 }
        requires heads { AreGroupHeads heads.now }
        requires exist { PagesExist self.old.geometry.pages heads.now }

        ensures any_moment { Matches self.old (S.state site.old) → IsSettled Dev.Flash (S.state site.old)
            → LeavesOnly (S.state site.old) (S.state site.new) (LeavesOldOrNew
            (group_shape self.old.geometry) (S.state site.old).image.flash content.now) }
        ensures changes { IsTrue (S.state site.old).honest
            → ChangesOnly Dev.Flash (S.state site.old) (S.state site.new) }
        ensures appends { Matches self.old (S.state site.old) → OnOk result (Appends self.old.geometry
            GroupRing content.now (S.state site.old).image (S.state site.new).image) }
        ensures device_calls { IsTrue (S.state site.old).honest
            → OnOk result (length (S.state site.new).past ≡ length (S.state site.old).past + 5) }

        // Of every site.
        ensures ok { OnOk result (self.new.directory ≡ pushed_queue self.old (frames_in heads.now)) }
        ensures keeps { KeepsCache result self.old self.new (S.state site.old) (S.state site.new) }
        ensures ended { self.new.ended ≡ self.old.ended }
        ensures reads { SameReads (S.state site.old) (S.state site.new) }

        // When each answer comes.
        ensures stops { IfErr result (λ stop. (stop ≡ Stop.Device Dev.Flash)
            ⊎ ((stop ≡ Stop.Memory) ⊎ (stop ≡ Stop.Worn Dev.Flash))) }
    {
        let hi = self.ring.hi();
        self.ring.append(site, content)?;
        let full = self.is_full();
        if let Err(stop) = self.directory.push_group(heads, full) {
            // The directory lacks the group, so the ring is to name no more than it does.
            self.ring.hi = hi;
            return Err(stop);
        }
        Ok(())
    }

    /// What a plan knows of the frames that leave with the next push, in the first places of `into`, with their number:
    /// those of the front group, and none where the queue has room for one group more.
    pub fn front_marks(&self, into: &mut [Mark; 8]) -> usize
        requires groups { 2 ≤ self.now.geometry.groups }
        requires few { length self.now.directory.groups < self.now.geometry.groups }
        ensures leaves { take result into.new ≡ leaving (rules_of 0 self.now.geometry.groups) self.now.directory }
        ensures few { result ≤ 8 }
    {
        if !self.is_full() {
            return 0;
        }
        self.directory.marks(0, into)
    }

    // Whether the queue has as many groups as can be.
    fn is_full(&self) -> bool
        requires { 2 ≤ self.now.geometry.groups }
        ensures { IsTrue result ↔ (length self.now.directory.groups + 1 ≡ self.now.geometry.groups) }
    {
        self.directory.len() == self.geometry.groups as usize - 1
    }

    /// How many groups are in the queue.
    pub fn groups(&self) -> usize
        ensures { result ≡ length self.now.directory.groups }
    {
        self.directory.len()
    }

    /// The number of the front group.
    pub fn first(&self) -> u64
        ensures { result ≡ self.now.directory.first }
    {
        self.directory.first()
    }

    /// What a listing knows of a group's frames, in the first places of `into`, with their number. The group is named
    /// by its place in the queue.
    pub fn marks(&self, place: usize, into: &mut [Mark; 8]) -> usize
        requires { place < length self.now.directory.groups }
        ensures marks { slice_get (marks self.now.directory) place ≡ Some (take result into.new) }
        ensures some { 1 ≤ result }
        ensures few { result ≤ 8 }
    {
        self.directory.marks(place, into)
    }

    /// Whether a call gave an error. No further call on the cache is lawful then, though each stays safe.
    pub fn ended(&self) -> bool
        ensures { result ≡ self.now.ended }
    {
        self.ended
    }
}
