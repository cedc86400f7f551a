// Room in pages: before a value is written its record's page is tested, and what each write may have taken back is
// remembered.
ghost use Rattle.std.specs.Prelude.{Option, ◌≡◌, ◌*◌, ◌%◌, ◌<◌, ◌↔◌, ℕ, length, slice_index_or, IsTrue, None, Ok};
ghost use Rattle.std.specs.Prelude.{IfNone, IfOk, IfErr};
ghost use Rattle.site.specs.declared.outside.Stop.{Stop};
ghost use Rattle.site.specs.State.{State as Site};
ghost use Rattle.record_model.specs.State.{State, length_of};
ghost use Rattle.log_records.specs.Spelling.{IsShort};
ghost use Rattle.slotted_page.specs.Layout.{slots_of, content_length};
ghost use Rattle.buffer_pool.specs.Frames.{front_of};
ghost use Rattle.page_store.specs.Representation.{IsStore};
ghost use Rattle.redo_undo.specs.Fitting.{FitsFront};
ghost use Rattle.redo_undo.specs.Stores.{IsInFront};
ghost use Rattle.engine.specs.Invariant.{Invariant, sizes_of};
ghost use Rattle.engine.specs.PageTests.{AreTakenBack, full_for};
ghost use Rattle.engine.specs.Representation.{Matches};

use crate::engine::Engine;
use footprints::Footprints;
use record_model::{Octets, Reply};
use site::{Site, Stop};

/// How many records a page has.
const RECORDS: u32 = 32;

/// How many octets the values of a page's records have at most, together.
const PAGE_ROOM: u32 = 3952;

/// How many octets a content has.
pub fn length_of(content: &Option<Octets>) -> u8
    requires { IsShort content.now }
    ensures { result ≡ length_of content.now }
{
    match content {
        None => 0,
        Some(value) => value.as_slice().len() as u8,
    }
}

/// The last footprints of a session go, so many.
pub fn take_back(footprints: &mut Footprints, session: u32, count: u64)
    requires session { session < 8 }
    requires eight { length footprints.old ≡ 8 }
    ensures { AreTakenBack footprints.old footprints.new session count }
{
    for _turn in 0..count {
        footprints.take_back(session);
    }
}

impl Engine {
    /// How many octets a slot of the page in front has.
    pub(crate) fn length_in(&self, slot: u8) -> u8
        requires pages { IsStore self.now.store.pages }
        requires there { 0 < length self.now.store.pages.pool.frames }
        requires slot { slot < 32 }
        ensures { result ≡ content_length (slice_index_or (slots_of (front_of
            self.now.store.pages.pool.frames).content) slot None) }
    {
        match self.store.pages.get(slot) {
            None => 0,
            Some(value) => value.len() as u8,
        }
    }

    // How many octets each slot of the page in front has.
    fn lengths(&self) -> [u8; 32]
        requires pages { IsStore self.now.store.pages }
        requires there { 0 < length self.now.store.pages.pool.frames }
        ensures { (slot : ℕ) → slot < 32 → slice_index_or result slot 0 ≡ content_length (slice_index_or (slots_of
            (front_of self.now.store.pages.pool.frames).content) slot None) }
    {
        let mut lengths = [0; 32];
        for slot in 0..32 {
            lengths[slot as usize] = self.length_in(slot);
        }
        lengths
    }

    // Why the page of a record, which is in front, has no room for what is to be written there, if it has none. Where
    // nothing may be taken back, there is room exactly where that fits.
    fn page_refusal(&self, number: u32, after: &Option<Octets>, fits: bool) -> Option<Reply>
        requires going { (site : Site) × Invariant self.now site }
        requires number { number < 32 * (sizes_of self.now.store).pages }
        requires front { IsInFront self.now.store number }
        requires short { IsShort after.now }
        requires fits { IsTrue fits ↔ FitsFront self.now.store.pages (number % 32) after.now }
        ensures { (s : State) (site : Site) → Matches self.now site s → result ≡ full_for s number after.now }
    {
        if after.is_none() {
            return None;
        }
        if fits {
            if self.footprints.is_empty() {
                return None;
            }
        }
        let page = number / RECORDS;
        let need = self
            .footprints
            .need(page, &self.lengths(), number % RECORDS, length_of(after));
        if need <= PAGE_ROOM {
            return None;
        }
        Some(Reply::PageFull { page, need })
    }

    /// Tests the page of a record, which is in front: why it has no room for what is to be written there, if it has
    /// none. Where only what stands in the page leaves no room, it answers Foreign, which comes of no honest site.
    pub(crate) fn test_page(
        &self,
        number: u32,
        after: &Option<Octets>,
    ) -> Result<Option<Reply>, Stop>
        requires going { (site : Site) × Invariant self.now site }
        requires number { number < 32 * (sizes_of self.now.store).pages }
        requires front { IsInFront self.now.store number }
        requires short { IsShort after.now }
        ensures answers { (s : State) (site : Site) → Matches self.now site s
            → result ≡ Ok (full_for s number after.now) }
        ensures room { IfOk result (λ refused. IfNone refused
            (FitsFront self.now.store.pages (number % 32) after.now)) }
        ensures stops { IfErr result (λ stop. stop ≡ Stop.Foreign) }
    {
        let fits = self.store.fits(number, after);
        if let Some(full) = self.page_refusal(number, after, fits) {
            return Ok(Some(full));
        }
        if !fits {
            return Err(Stop::Foreign);
        }
        Ok(None)
    }
}
