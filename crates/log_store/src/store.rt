// The log: sealed blocks on a ring, and the records that aren't sealed yet.
ghost use Rattle.std.specs.Prelude.{◌≡◌, ◌≢◌, ◌⊎◌, ◌↔◌, ◌+◌, ◌-◌, ◌*◌, ◌^◌, ◌<◌, ◌≤◌, length, [], ◌∷◌, ◌++◌, ℕ, List};
ghost use Rattle.std.specs.Prelude.{false, if◌then◌else◌, IsTrue, IfOk, OnOk, IfErr};
ghost use Rattle.std.specs.Prelude.{IsErrOf, Some, None};
ghost use Rattle.site.specs.declared.outside.Dev.{Dev};
ghost use Rattle.site.specs.declared.outside.Stop.{Stop};
ghost use Rattle.site.specs.Geometry.{HasLimits, HasLengths};
ghost use Rattle.site.specs.State.{State, IsSettled};
ghost use Rattle.sealed_ring.specs.Ring.{IsRing, IsLive};
ghost use Rattle.sealed_ring.specs.Reading.{ReadsFrom};
ghost use Rattle.log_records.specs.declared.log_record.LogRecord.{LogRecord};
ghost use Rattle.log_records.specs.Spelling.{spelling, used_by, block, HasForm, FitsFields, IsBlock};
ghost use Rattle.image_changes.specs.Rings.{log_shape};
ghost use Rattle.log_store.specs.LogList.{LogList, entries, at_lsn, sealed_block, sealed_if, with_record};
ghost use Rattle.log_store.specs.LogList.{from_block};
ghost use Rattle.log_store.specs.Representation.{Invariant, HasRoom, has_tail, overflows, end_of, next_lsn, block_on};
ghost use Rattle.log_store.specs.Representation.{Matches, Finds, IsNext, HasBlocks, HasTail};
ghost use Rattle.log_store.specs.Representation.{Represents};
ghost use Rattle.log_store.specs.Sealing.{SealsTail};

use crate::RECORDS_AT;
use crate::reading::record_at;
use byte_fields::put_u16;
use log_records::{BLOCK_LEN, LogRecord, check_block, length, write_record};
use sealed_ring::{Ring, Shape};
use site::{Dev, Geometry, Site, Stop};

/// The log of a site. A record is appended to the tail, which stands in memory; a full tail is sealed as the next block
/// of the log's ring.
#[derive(Debug, PartialEq, Eq, Drop)]
pub struct LogStore {
    geometry: Geometry,
    ring: Ring,
    // Blocks below it may be overwritten.
    kept: u64,
    tail: [u8; BLOCK_LEN],
    // Just past the tail's last record.
    used: usize,
}

// Where the log's blocks lie: behind the three slots of the master ring.
fn shape_of(geometry: &Geometry) -> Shape
    ensures { result ≡ log_shape geometry.now }
{
    Shape {
        dev: Dev::Log,
        base: 1_536,
        slots: geometry.blocks as u64,
        stride: 512,
        room: BLOCK_LEN as u64,
    }
}

// The numbers of a record fit their fields.
fn fits_fields(rec: &LogRecord)
    ensures { FitsFields rec.now }
{
    match rec {
        LogRecord::Begin => {}
        LogRecord::Update {
            txn,
            prev,
            page,
            ..
        } => {
            let _numbers = (*txn, *prev, *page);
        }
        LogRecord::Clr {
            txn,
            prev,
            undo_next,
            page,
            ..
        } => {
            let _numbers = (*txn, *prev, *undo_next, *page);
        }
        LogRecord::Commit { txn, number } => {
            let _numbers = (*txn, *number);
        }
        LogRecord::End { txn } => {
            let _number = *txn;
        }
    }
}

impl LogStore {
    /// The log that stands on a site, with an empty tail. All live blocks are kept until `keep` is told another one.
    pub fn start<S: Site>(site: &mut S, geometry: &Geometry) -> Result<LogStore, Stop>
        requires limits { HasLimits geometry.now }
        requires lengths { HasLengths geometry.now (S.state site.old).image }

        ensures going { IfOk result (λ store. Invariant store (S.state site.new)) }
        ensures geometry { IfOk result (λ store. store.geometry ≡ geometry.now) }
        ensures empty { IfOk result (λ store. store.used ≡ 2) }
        ensures kept { IfOk result (λ store. store.kept ≡ store.ring.hi - (geometry.now.blocks - 1)) }
        ensures ended { IfOk result (λ store. store.ring.ended ≡ false) }
        ensures fits { IsTrue (S.state site.old).honest → IsSettled Dev.Log (S.state site.old)
            → IsRing (log_shape geometry.now) (S.state site.old).image.log
            → IfOk result (λ store. Matches store (S.state site.new)) }
        ensures found { IsTrue (S.state site.old).honest
            → IsRing (log_shape geometry.now) (S.state site.old).image.log
            → IfOk result (λ store. Finds store (S.state site.new)) }
        ensures is_next { IsTrue (S.state site.old).honest
            → IfOk result (λ store. IsNext store (S.state site.new)) }
        ensures holds { IsTrue (S.state site.old).honest → (first : ℕ) (blocks : List (List LogRecord))
            → HasBlocks geometry.now first blocks (S.state site.old).image
            → IfOk result (λ store. Represents store (S.state site.new).image
            (record { first = first; blocks = blocks; tail = [] })) }
        ensures reads { ReadsFrom result Dev.Log (geometry.now.blocks + 1) (S.state site.old) (S.state site.new) }
        ensures foreign { IsErrOf result Stop.Foreign → IsTrue (S.state site.old).honest
            → IsRing (log_shape geometry.now) (S.state site.old).image.log → ⊥ }
        ensures stops { IfErr result (λ stop. (stop ≡ Stop.Device Dev.Log)
            ⊎ (stop ≡ Stop.Foreign)) }
    {
        let ring = Ring::scan(site, shape_of(geometry))?;
        let kept = ring.oldest();
        Ok(LogStore {
            geometry: *geometry,
            ring,
            kept,
            tail: [0; BLOCK_LEN],
            used: RECORDS_AT,
        })
    }

    /// Appends a record, and answers its LSN. The tail is sealed first where the record doesn't fit it.
    pub fn append<S: Site>(&mut self, site: &mut S, rec: &LogRecord) -> Result<u64, Stop>
        requires going { Invariant self.old (S.state site.old) }
        requires form { HasForm rec.now }
        requires room { HasRoom self.old }

        ensures seals { SealsTail result (overflows self.old rec.now) self.old self.new
            (S.state site.old) (S.state site.new) }

        // Of an honest site that the store fits, or whose log it found while ranges of the device are loose.
        ensures holds { (log : LogList)
            → Finds self.old (S.state site.old) → Represents self.old (S.state site.old).image log
            → OnOk result (Represents self.new (S.state site.new).image
            (with_record rec.now (sealed_if (overflows self.old rec.now) log))) }
        ensures listed { (log : LogList)
            → Finds self.old (S.state site.old) → Represents self.old (S.state site.old).image log
            → IfOk result (λ lsn.
            entries (with_record rec.now (sealed_if (overflows self.old rec.now) log))
            ≡ entries log ++ record { lsn = lsn; rec = rec.now } ∷ []) }

        // Of every site.
        ensures lsn { IfOk result (λ lsn. lsn ≡ next_lsn self.old rec.now) }
        ensures rises { IfOk result (λ lsn. (end_of self.old ≤ lsn) × (lsn < end_of self.new)) }
        ensures end { IfOk result (λ lsn. lsn + length (spelling rec.now) ≡ end_of self.new) }
        ensures unchanged { (overflows self.old rec.now ≡ false) ⊎ (self.old.ring.hi ≡ 2 ^ 40)
            → site.new ≡ site.old }
    {
        let wanted = self.used + length(rec) > BLOCK_LEN;
        self.seal_if(site, wanted)?;
        Ok(self.place(rec))
    }

    /// Seals the tail where it isn't empty: then every record is sealed.
    pub fn force<S: Site>(&mut self, site: &mut S) -> Result<(), Stop>
        requires going { Invariant self.old (S.state site.old) }
        requires room { HasRoom self.old }

        ensures seals { SealsTail result (has_tail self.old) self.old self.new (S.state site.old) (S.state site.new) }
        ensures holds { (log : LogList)
            → Finds self.old (S.state site.old) → Represents self.old (S.state site.old).image log
            → OnOk result (Represents self.new (S.state site.new).image (sealed_if (has_tail self.old) log)) }
        ensures empty { OnOk result (self.new.used ≡ 2) }
        ensures unchanged { (has_tail self.old ≡ false) ⊎ (self.old.ring.hi ≡ 2 ^ 40) → site.new ≡ site.old }
    {
        let wanted = self.used > RECORDS_AT;
        self.seal_if(site, wanted)
    }

    // Seals the tail as the next block, where that is wanted.
    fn seal_if<S: Site>(&mut self, site: &mut S, wanted: bool) -> Result<(), Stop>
        requires going { Invariant self.old (S.state site.old) }
        requires room { HasRoom self.old }
        requires some { IsTrue wanted → 2 < self.old.used }

        ensures seals { SealsTail result wanted self.old self.new (S.state site.old) (S.state site.new) }
        ensures holds { (log : LogList)
            → Finds self.old (S.state site.old) → Represents self.old (S.state site.old).image log
            → OnOk result (Represents self.new (S.state site.new).image (sealed_if wanted log)) }
        ensures used { OnOk result (self.new.used ≡ (if wanted then 2 else self.old.used)) }
        ensures unchanged { (wanted ≡ false) ⊎ (self.old.ring.hi ≡ 2 ^ 40) → site.new ≡ site.old }
    {
        if !wanted {
            return Ok(());
        }
        let content = self.tail_block();
        self.ring.append(site, &content)?;
        self.tail = [0; BLOCK_LEN];
        self.used = RECORDS_AT;
        Ok(())
    }

    // The tail as the content of a block.
    fn tail_block(&self) -> [u8; BLOCK_LEN]
        requires { self.now.used ≤ 503 }
        ensures { (records : List LogRecord) → HasTail self.now.tail self.now.used records
            → result ≡ block records }
    {
        let mut content = self.tail;
        put_u16(&mut content, 0, self.used as u16);
        content
    }

    // Puts a record behind the tail's last one, and answers its LSN.
    fn place(&mut self, rec: &LogRecord) -> u64
        requires form { HasForm rec.now }
        requires room { self.old.used + length (spelling rec.now) ≤ 503 }
        requires low { 2 ≤ self.old.used }
        requires bounded { self.old.ring.hi ≤ 2 ^ 40 }
        ensures lsn { result ≡ 512 * self.old.ring.hi + self.old.used }
        ensures tail { (records : List LogRecord) → HasTail self.old.tail self.old.used records
            → HasTail self.new.tail self.new.used (records ++ rec.now ∷ []) }
        ensures used { self.new.used ≡ self.old.used + length (spelling rec.now) }
        ensures rest { self.new ≡ record self.old { tail = self.new.tail; used = self.new.used } }
    {
        fits_fields(rec);
        let lsn = 512 * self.ring.hi() + self.used as u64;
        self.used = write_record(rec, &mut self.tail, self.used);
        lsn
    }

    /// 512 times the number of the next block: each record with an LSN below it is sealed.
    pub fn sealed_end(&self) -> u64
        requires { self.now.ring.hi ≤ 2 ^ 40 }
        ensures { result ≡ 512 * self.now.ring.hi }
    {
        512 * self.ring.hi()
    }

    /// How large the site's devices are.
    pub fn geometry(&self) -> Geometry
        ensures { result ≡ self.now.geometry }
    {
        self.geometry
    }

    /// Whether each record is sealed.
    pub fn tail_empty(&self) -> bool
        requires { 2 ≤ self.now.used }
        ensures { IsTrue result ↔ (self.now.used ≡ 2) }
    {
        self.used == RECORDS_AT
    }

    /// The oldest block that is kept.
    pub fn kept(&self) -> u64
        ensures { result ≡ self.now.kept }
    {
        self.kept
    }

    /// From now on the blocks below this one may be overwritten.
    pub fn keep(&mut self, block: u64)
        requires rises { self.old.kept ≤ block }
        requires below { block ≤ self.old.ring.hi }
        ensures kept { self.new ≡ record self.old { kept = block } }
        ensures going { (site : State) → Invariant self.old site → Invariant self.new site }
        ensures finds { (site : State) → Finds self.old site → Finds self.new site }
        ensures fits { (site : State) → Matches self.old site → Matches self.new site }
        ensures is_next { (site : State) → IsNext self.old site → IsNext self.new site }
        ensures holds { (site : State) (log : LogList)
            → Invariant self.old site → Finds self.old site → Represents self.old site.image log
            → Represents self.new site.image (from_block block log) }
    {
        self.kept = block;
    }

    /// The record with an LSN, from the tail or from its sealed block. Answers Foreign too where no record begins at
    /// it.
    pub fn read_at<S: Site>(&self, site: &mut S, lsn: u64) -> Result<LogRecord, Stop>
        requires going { Invariant self.now (S.state site.old) }
        requires kept { 512 * self.now.kept ≤ lsn }
        requires before { lsn < end_of self.now }

        ensures found { (log : LogList)
            → Finds self.now (S.state site.old) → Represents self.now (S.state site.old).image log
            → 512 * log.first ≤ lsn → IfOk result (λ rec. at_lsn lsn (entries log) ≡ Some rec) }
        ensures form { IfOk result (λ rec. HasForm rec × FitsFields rec) }
        ensures reads { ReadsFrom result Dev.Log 1 (S.state site.old) (S.state site.new) }
        ensures foreign { IsErrOf result Stop.Foreign → (log : LogList)
            → Finds self.now (S.state site.old) → Represents self.now (S.state site.old).image log
            → 512 * log.first ≤ lsn → at_lsn lsn (entries log) ≡ None }
        ensures stops { IfErr result (λ stop. (stop ≡ Stop.Device Dev.Log)
            ⊎ (stop ≡ Stop.Foreign)) }
    {
        let block = lsn / 512;
        let offset = (lsn % 512) as usize;
        if block == self.ring.hi() {
            return match record_at(&self.tail, offset, self.used) {
                Some(rec) => Ok(rec),
                None => Err(Stop::Foreign),
            };
        }
        let mut content = [0u8; BLOCK_LEN];
        let used = self.read_block(site, block, &mut content)?;
        match record_at(&content, offset, used) {
            Some(rec) => Ok(rec),
            None => Err(Stop::Foreign),
        }
    }

    /// Reads the content of a live block, and answers the offset just past its last record.
    pub fn read_block<S: Site>(
        &self,
        site: &mut S,
        block: u64,
        into: &mut [u8],
    ) -> Result<usize, Stop>
        requires going { Invariant self.now (S.state site.old) }
        requires live { IsLive self.now.ring.shape self.now.ring.hi block }
        requires room { length into.old ≡ 503 }

        ensures block { Finds self.now (S.state site.old)
            → OnOk result (into.new ≡ block_on self.now.geometry (S.state site.old).image block) }
        ensures holds { (log : LogList)
            → Finds self.now (S.state site.old) → Represents self.now (S.state site.old).image log
            → log.first ≤ block → IfOk result (λ used. IsBlock into.new (sealed_block log block)
            × (used ≡ used_by (sealed_block log block))) }
        ensures readable { (log : LogList)
            → Finds self.now (S.state site.old) → Represents self.now (S.state site.old).image log
            → log.first ≤ block → IfErr result (λ stop. stop ≢ Stop.Foreign) }
        ensures used { IfOk result (λ used. (records : List LogRecord)
            × IsBlock into.new records × (used ≡ used_by records)) }
        ensures within { IfOk result (λ used. (3 ≤ used) × (used ≤ 503)) }
        ensures room { length into.new ≡ 503 }
        ensures reads { ReadsFrom result Dev.Log 1 (S.state site.old) (S.state site.new) }
        ensures foreign { IsErrOf result Stop.Foreign → Finds self.now (S.state site.old)
            → (records : List LogRecord)
            → IsBlock (block_on self.now.geometry (S.state site.old).image block) records → ⊥ }
        ensures stops { IfErr result (λ stop. (stop ≡ Stop.Device Dev.Log)
            ⊎ (stop ≡ Stop.Foreign)) }
    {
        let mut unit = [0u8; 8 + BLOCK_LEN];
        self.ring.read_unit(site, block, &mut unit)?;
        into.copy_from_slice(&unit[8..]);
        let Ok(used) = check_block(into) else {
            return Err(Stop::Foreign);
        };
        Ok(used)
    }

    /// Whether a call gave an error. No further call on the log is lawful then, though each stays safe.
    pub fn ended(&self) -> bool
        ensures { result ≡ self.now.ring.ended }
    {
        self.ring.ended()
    }
}
