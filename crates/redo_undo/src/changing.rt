// What a record of the log has written enters the page in front of the pool.
ghost use Rattle.std.specs.Prelude.{◌≡◌, ◌≢◌, ◌+◌, ◌*◌, ◌<◌, ◌↔◌, ◌++◌, ◌∷◌, ℕ, List, length, Option, Some, None};
ghost use Rattle.std.specs.Prelude.{option_copied, IsTrue};
ghost use Rattle.site.specs.State.{State, Image};
ghost use Rattle.record_model.specs.State.{Content};
ghost use Rattle.log_records.specs.Log.{Entry, log_from, number_of, after_of};
ghost use Rattle.log_records.specs.Spelling.{HasForm, IsShort};
ghost use Rattle.slotted_page.specs.Layout.{lsn_of};
ghost use Rattle.buffer_pool.specs.Frames.{front_of};
ghost use Rattle.log_store.specs.declared.store.LogStore.{LogStore};
ghost use Rattle.write_ahead.specs.Forcing.{end_forced};
ghost use Rattle.page_store.specs.Representation.{IsStore, Invariant, Matches, current};
ghost use Rattle.page_store.specs.Caching.{cache_of, with_change};
ghost use Rattle.page_store.specs.Ahead.{IsAhead};
ghost use Rattle.checkpoint.specs.declared.master.Master.{Master};
ghost use Rattle.image_meaning.specs.Meaning.{version_in, kept_by};
ghost use Rattle.image_meaning.specs.Redone.{Redoes};
ghost use Rattle.redo_laws.specs.Running.{History};
ghost use Rattle.redo_laws.specs.Holding.{Represents, MayGrow, IsOnPage};
ghost use Rattle.redo_undo.specs.Fitting.{HasRoomInFront};
ghost use Rattle.redo_undo.specs.Redoing.{Opening, IsRedoing};

use log_records::LogRecord;
use page_store::PageStore;
use record_model::Octets;
use slotted_page::slots_of_a_page;

/// The octets of a content.
pub(crate) fn slice_of(content: &Option<Octets>) -> Option<&[u8]>
    ensures { option_copied result ≡ content.now }
{
    match content {
        Some(value) => Some(value.as_slice()),
        None => None,
    }
}

// The slot that an Update or a CLR is on, and 0 of any other record.
fn slot_of(rec: &LogRecord) -> u8
    ensures below { HasForm rec.now → result < 32 }
    ensures number { (number : ℕ) → number_of rec.now ≡ Some number → (page : ℕ) × (number ≡ 32 * page + result) }
{
    match rec {
        LogRecord::Update { slot, .. } => *slot,
        LogRecord::Clr { slot, .. } => *slot,
        _ => 0,
    }
}

// What an Update or a CLR has written, and none of any other record.
fn after_of(rec: &LogRecord) -> Option<&[u8]>
    ensures after { option_copied result ≡ after_of rec.now }
    ensures short { HasForm rec.now → IsShort (after_of rec.now) }
{
    match rec {
        LogRecord::Update { after, .. } => slice_of(after),
        LogRecord::Clr { after, .. } => slice_of(after),
        _ => None,
    }
}

/// Whether what an Update or a CLR writes, which is on the page in front of the pool, has room there.
pub fn fits_front(pages: &PageStore, rec: &LogRecord) -> bool
    requires store { IsStore pages.now }
    requires there { 0 < length pages.now.pool.frames }
    requires form { HasForm rec.now }
    requires on_page { IsOnPage (front_of pages.now.pool.frames).page rec.now }

    // Of an honest site on which log and pages hold together, and of one with an opened log that is redone: the next
    // record has room, there where the page doesn't know of it.
    ensures grows { (log : LogStore) (site : State) (newest : Option Master) (records : List Entry)
        (history : History) (lsn : ℕ)
        → Represents log pages.now site newest records history
        → MayGrow log pages.now site.image newest records (record { lsn = lsn; rec = rec.now })
        → IsTrue result }
    ensures redone { (o : Opening) (log : LogStore) (site : State) (front rest : List Entry) (lsn : ℕ)
        → IsRedoing o log pages.now site front
        → log_from (kept_by o.newest) o.blocks ≡ front ++ record { lsn = lsn; rec = rec.now } ∷ rest
        → lsn_of (front_of pages.now.pool.frames).content < lsn → IsTrue result }

    // Of every site.
    ensures room { IsTrue result ↔ HasRoomInFront pages.now rec.now }
{
    slots_of_a_page();
    let slot = slot_of(rec);
    let after = after_of(rec);
    pages.fits(slot, after)
}

/// Redoes an Update or a CLR, which is on the page in front of the pool and has room there: the page has the record's
/// LSN, which is greater than its own, and its slot what the record has written.
pub(crate) fn change_front(pages: &mut PageStore, rec: &LogRecord, lsn: u64)
    requires store { IsStore pages.old }
    requires there { 0 < length pages.old.pool.frames }
    requires form { HasForm rec.now }
    requires on_page { IsOnPage (front_of pages.old.pool.frames).page rec.now }
    requires room { HasRoomInFront pages.old rec.now }
    requires rises { lsn_of (front_of pages.old.pool.frames).content < lsn }

    ensures redoes { (image : Image) (number : ℕ) → number_of rec.now ≡ Some number
        → Redoes (front_of pages.old.pool.frames).page (record { lsn = lsn; rec = rec.now }) number
        (version_in (current pages.old image (front_of pages.old.pool.frames).page))
        (version_in (current pages.new image (front_of pages.old.pool.frames).page)) }
    ensures others { (image : Image) (page : ℕ) → page ≢ (front_of pages.old.pool.frames).page
        → current pages.new image page ≡ current pages.old image page }
    ensures machine { cache_of pages.new ≡ with_change (cache_of pages.old) }
    ensures going { (site : State) → Invariant pages.old site → Invariant pages.new site }
    ensures fit { (site : State) → Matches pages.old site → Matches pages.new site }
    ensures ahead { (log : LogStore) (image : Image) → IsAhead log pages.old image
        → lsn < end_forced log → IsAhead log pages.new image }
    ensures size { pages.new.pool.size ≡ pages.old.pool.size }
    ensures flash { pages.new.flash ≡ pages.old.flash }
{
    slots_of_a_page();
    let slot = slot_of(rec);
    let after = after_of(rec);
    pages.change(slot, after, lsn);
}
