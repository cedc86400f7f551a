// Reading several records at once.
ghost use Rattle.std.specs.Prelude.{◌≡◌, ◌+◌, ◌^◌, ◌<◌, ◌++◌, IfErr, OnOk};
ghost use Rattle.std.specs.List.{range_with_len};
ghost use Rattle.site.specs.declared.outside.Stop.{Stop};
ghost use Rattle.engine.specs.Scans.{first_busy, items_of};

use lock_table::LockTable;
use record_model::{Item, Items, Octets, Reply};
use site::Stop;

/// The reply for the first of so many records that another session has written, from a number on.
pub fn first_busy(locks: &LockTable, session: u32, number: u32, count: u32) -> Option<Reply>
    requires numbers { number + count < 2 ^ 32 }
    ensures { result ≡ first_busy locks.now session (range_with_len number count) }
{
    for offset in 0..count {
        if let Err(busy) = locks.may_read(Some(session), number + offset) {
            return Some(Reply::Busy(busy.holder));
        }
    }
    None
}

/// One item more, where the record has a value.
pub fn add_item(items: &mut Items, number: u32, content: Option<Octets>) -> Result<(), Stop>
    ensures items { OnOk result (items.new ≡ items.old ++ items_of number content) }
    ensures stops { IfErr result (λ stop. stop ≡ Stop.Memory) }
{
    let Some(value) = content else {
        return Ok(());
    };
    match items.push(Item { number, value }) {
        Ok(()) => Ok(()),
        Err(_) => Err(Stop::Memory),
    }
}
