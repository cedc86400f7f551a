// What a transaction has written, record by record.
ghost use Rattle.std.specs.Prelude.{◌≡◌, ◌↔◌, ◌++◌, ◌∷◌, [], ℕ, nat_eq, List, IsTrue};
ghost use Rattle.indexmap.specs.IndexMap.{get};
ghost use Rattle.log_records.specs.Log.{Entry, after_of};
ghost use Rattle.image_check.specs.Chaining.{AreLast};
ghost use Rattle.image_check.specs.Showing.{IsAs};
ghost use Rattle.log_judge.specs.Outcomes.{OrMemory};

use crate::holding::number_of;
use indexmap::IndexMap;
use log_records::LogRecord;
use record_model::Octets;
use site::Stop;
use std::alloc::Global;

// A copy of what a number has.
fn copy_of(content: &Option<Octets>) -> Option<Octets>
    ensures { result ≡ content.now }
{
    match content {
        Some(octets) => Octets::from_slice(octets.as_slice()),
        None => None,
    }
}

// What an Update or a CLR has written.
fn written_by(rec: &LogRecord) -> Option<Octets>
    ensures { result ≡ after_of rec.now }
{
    match rec {
        LogRecord::Update { after, .. } => copy_of(after),
        LogRecord::Clr { after, .. } => copy_of(after),
        _ => None,
    }
}

/// What records have written last on each number that they are on.
#[derive(Drop)]
pub struct Contents {
    pub last: IndexMap<u64, Option<Octets>>,
}

impl Contents {
    /// Before the first record.
    pub fn new(alloc: Global) -> Contents
        ensures { AreLast [] result.last }
    {
        Contents {
            last: IndexMap::new(alloc),
        }
    }

    /// Whether nothing was written on a number, or this was.
    pub fn admits(&self, number: u64, before: &Option<Octets>) -> bool
        ensures { IsTrue result ↔ IsAs before.now (get nat_eq self.now.last number) }
    {
        match self.last.get(&number) {
            Some(content) => before == content,
            None => true,
        }
    }

    /// Hears the next record.
    pub fn hear(&mut self, rec: &LogRecord) -> Result<(), Stop>
        ensures { OrMemory result (λ done. (records : List Entry) (lsn : ℕ) → AreLast records self.old.last
            → AreLast (records ++ record { lsn = lsn; rec = rec.now } ∷ []) self.new.last) }
    {
        let Some(number) = number_of(rec) else {
            return Ok(());
        };
        let Ok(_) = self.last.insert(number, written_by(rec)) else {
            return Err(Stop::Memory);
        };
        Ok(())
    }
}
