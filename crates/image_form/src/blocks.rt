// The live blocks of the log.
ghost use Rattle.std.specs.Prelude.{◌≡◌, ◌↔◌, ◌-◌, min, List, length, is_none, IsTrue, IfOk};
ghost use Rattle.log_records.specs.declared.log_record.LogRecord.{LogRecord};
ghost use Rattle.log_records.specs.Spelling.{IsBlock};
ghost use Rattle.log_store.specs.Representation.{Invariant, Finds};
ghost use Rattle.site.specs.Work.{OnlyReads};
ghost use Rattle.image_form.specs.Counted.{ReadsAtMost};
ghost use Rattle.image_form.specs.Octets.{IsOnPage, IsBlockOn, AreBlocks};

use crate::begins::begins_at;
use crate::place::Place;
use byte_fields::get_u16;
use log_records::{BLOCK_LEN, LogRecord, read_record};
use log_store::LogStore;
use site::{Site, Stop};

// Whether a record names no page that the disk hasn't.
fn is_on_page(rec: &LogRecord, pages: u32) -> bool
    ensures { IsTrue result ↔ IsOnPage pages rec.now }
{
    match rec {
        LogRecord::Update { page, .. } => *page < pages,
        LogRecord::Clr { page, .. } => *page < pages,
        _ => true,
    }
}

// Whether the records of a block are all on pages of the disk.
fn are_on_pages(content: &[u8], pages: u32) -> bool
    requires size { length content.now ≡ BLOCK_LEN }
    requires block { (records : List LogRecord) × IsBlock content.now records }
    ensures { IsTrue result ↔ ((records : List LogRecord) × IsBlockOn pages content.now records) }
{
    let used = get_u16(content, 0) as usize;
    let mut at = 2;
    while at < used {
        if begins_at(content, at, used) {
            at += 1;
            continue;
        }
        let Ok((rec, end)) = read_record(content, at, used) else {
            unreachable!()
        };
        if !is_on_page(&rec, pages) {
            return false;
        }
        at = end;
    }
    true
}

/// The first live block from `kept` on that isn't of the form, or has a record on a page that the disk hasn't; `None`
/// exactly where there is none: reads each once.
pub fn rule_blocks<S: Site>(site: &mut S, log: &LogStore, kept: u64) -> Result<Option<Place>, Stop>
    requires { Invariant log.now (S.state site.old) }

    ensures blocks { Finds log.now (S.state site.old)
        → IfOk result (λ failing. IsTrue (is_none failing) ↔ AreBlocks log.now.geometry kept (S.state site.old).image) }
    ensures looks { ReadsAtMost (min (log.now.ring.hi - kept) (log.now.geometry.blocks - 1)) 0
        (S.state site.old) (S.state site.new) }
    ensures reads { OnlyReads result (S.state site.old) (S.state site.new) }
{
    let geometry = log.geometry();
    let hi = log.sealed_end() / 512;
    let first = kept.max(hi.saturating_sub(geometry.blocks as u64 - 1));
    for block in first..hi {
        let mut content = [0u8; BLOCK_LEN];
        match log.read_block(site, block, &mut content) {
            Ok(_used) => {}
            Err(Stop::Foreign) => return Ok(Some(Place::Block(block))),
            Err(stop) => return Err(stop),
        }
        if !are_on_pages(&content, geometry.pages) {
            return Ok(Some(Place::Block(block)));
        }
    }
    Ok(None)
}
