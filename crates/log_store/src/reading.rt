// Finding a record by the offset at which it begins.
ghost use Rattle.std.specs.Prelude.{◌≡◌, ◌≤◌, length, List, Some, None, IfSome};
ghost use Rattle.log_records.specs.declared.log_record.LogRecord.{LogRecord};
ghost use Rattle.log_records.specs.Log.{entries_from};
ghost use Rattle.log_records.specs.Spelling.{HasForm, FitsFields};
ghost use Rattle.log_store.specs.LogList.{at_lsn};
ghost use Rattle.log_store.specs.Representation.{HasRecords};

use crate::RECORDS_AT;
use log_records::{LogRecord, read_record};

/// The record that begins at an offset, of the records that stand one after the other up to `used`. There is none at
/// an offset within a record.
pub fn record_at(octets: &[u8], offset: usize, used: usize) -> Option<LogRecord>
    requires low { 2 ≤ used }
    requires inside { used ≤ length octets.now }
    ensures found { (records : List LogRecord) → HasRecords octets.now used records
        → result ≡ at_lsn offset (entries_from 2 records) }
    ensures form { IfSome result (λ rec. HasForm rec × FitsFields rec) }
{
    let mut at = RECORDS_AT;
    while at < used {
        let Ok((rec, end)) = read_record(octets, at, used) else {
            return None;
        };
        if at == offset {
            return Some(rec);
        }
        at = end;
    }
    None
}
