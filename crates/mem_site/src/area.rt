// One device in memory.
ghost use Rattle.std.specs.Prelude.{replicate, min, IfOk, ◌≡◌, ◌≢◌, ◌⊎◌, ◌-◌, ◌^◌, ◌≤◌, ◌<◌, ◌+◌, ◌/◌, ◌∷◌, [], ◌++◌};
ghost use Rattle.std.specs.Prelude.{length, take, drop, OnOk, OnErr, IsOk, IsErr, ◌↔◌, true, false, vec_len};
ghost use Rattle.std.specs.Prelude.{vec_capacity};
ghost use Rattle.site.specs.Calls.{put, range};
ghost use Rattle.mem_site.specs.History.{ranges_of};
ghost use Rattle.mem_site.specs.Crash.{scattered, drawn};

use crate::change::{Change, Span};
use crate::crash::scatter;
use crate::limits::Gate;
use site::{Dev, Failed};
use std::alloc::{AllocError, Global};
use std::mem;

/// A device: its octets, the ranges of it that are loose (the newest last), and the counts of its faults and reads.
#[derive(Drop)]
pub struct Area {
    pub content: Vec<u8>,
    pub loose: Vec<Span>,
    pub faults: u64,
    pub reads: u64,
}

pub fn keep(history: &mut Vec<Change>, change: Change) -> Result<(), AllocError>
    ensures ok { OnOk result (history.new.items ≡ history.old.items ++ change ∷ []) }
    ensures err { OnErr result (history.new.items ≡ history.old.items) }
    ensures room { vec_len history.old < vec_capacity history.old → IsOk result }
{
    history.push(change)?;
    Ok(())
}

fn overwrite(content: &mut Vec<u8>, at: usize, bytes: &[u8])
    requires { at + length bytes.now ≤ length content.old.items }
    ensures { content.new.items ≡ put content.old.items at bytes.now }
{
    let end = at + bytes.len();
    content[at..end].copy_from_slice(bytes);
}

fn note_span(loose: &mut Vec<Span>, at: u64, len: u64) -> Result<(), AllocError>
    ensures ok { OnOk result (ranges_of loose.new.items ≡ range at len ∷ ranges_of loose.old.items) }
    ensures err { OnErr result (loose.new.items ≡ loose.old.items) }
    ensures one { OnOk result (take (length loose.old.items) loose.new.items ≡ loose.old.items) }
{
    loose.push(Span { at, len })?;
    Ok(())
}

impl Area {
    ghost use Rattle.mem_site.specs.Area.{Laid, Kept, Settled, CountsFault, FailsAt};

    // Where memory lacks nothing changes.
    fn lay(
        &mut self,
        alloc: Global,
        history: &mut Vec<Change>,
        dev: Dev,
        at: u64,
        bytes: &[u8],
    ) -> Result<(), AllocError>
        requires { at + length bytes.now ≤ length self.old.content.items }
        ensures ok { OnOk result (Laid dev at bytes.now self.old self.new history.old.items history.new.items) }
        ensures err { OnErr result (Kept self.old self.new history.old.items history.new.items) }
        ensures faults { self.new.faults ≡ self.old.faults }
        ensures reads { self.new.reads ≡ self.old.reads }
    {
        let start = at as usize;
        let end = start + bytes.len();
        let had = self.content[start..end].to_vec(alloc)?;
        let spans = self.loose.len();
        note_span(&mut self.loose, at, bytes.len() as u64)?;
        match keep(history, Change::Wrote(dev, at, had)) {
            Ok(()) => {
                overwrite(&mut self.content, start, bytes);
                Ok(())
            }
            Err(e) => {
                self.loose.truncate(spans);
                Err(e)
            }
        }
    }

    /// Writes, as far as the gate and memory let it.
    pub fn write(
        &mut self,
        alloc: Global,
        history: &mut Vec<Change>,
        lacked: &mut bool,
        gate: Gate,
        dev: Dev,
        at: u64,
        bytes: &[u8],
    ) -> Result<(), Failed>
        requires { at + length bytes.now ≤ length self.old.content.items }
        ensures ok { OnOk result (Laid dev at bytes.now self.old self.new history.old.items history.new.items) }
        ensures err { OnErr result (Kept self.old self.new history.old.items history.new.items
            ⊎ Laid dev at bytes.now self.old self.new history.old.items history.new.items) }
        ensures faults { CountsFault result self.old self.new }
        ensures reads { self.new.reads ≡ self.old.reads }
        ensures gate { FailsAt gate result lacked.old lacked.new }
        ensures over { gate ≡ Gate.Over → Kept self.old self.new history.old.items history.new.items
            × (lacked.new ≡ lacked.old) }
        ensures left { OnErr result (gate ≢ Gate.Over
            → (Laid dev at bytes.now self.old self.new history.old.items history.new.items × (lacked.new ≡ lacked.old))
            ⊎ (Kept self.old self.new history.old.items history.new.items × (lacked.new ≡ true))) }
    {
        if gate == Gate::Over {
            self.faults = self.faults.saturating_add(1);
            return Err(Failed);
        }
        match self.lay(alloc, history, dev, at, bytes) {
            Ok(()) if gate == Gate::Blown => {
                self.faults = self.faults.saturating_add(1);
                Err(Failed)
            }
            Ok(()) => Ok(()),
            Err(_) => {
                self.faults = self.faults.saturating_add(1);
                *lacked = true;
                Err(Failed)
            }
        }
    }

    /// Syncs, as far as the gate and memory let it.
    pub fn settle(
        &mut self,
        alloc: Global,
        history: &mut Vec<Change>,
        lacked: &mut bool,
        gate: Gate,
        dev: Dev,
    ) -> Result<(), Failed>
        ensures ok { OnOk result (Settled dev self.old self.new history.old.items history.new.items) }
        ensures err { OnErr result (Kept self.old self.new history.old.items history.new.items) }
        ensures faults { CountsFault result self.old self.new }
        ensures reads { self.new.reads ≡ self.old.reads }
        ensures gate { FailsAt gate result lacked.old lacked.new }
        ensures closed { gate ≢ Gate.Open → lacked.new ≡ lacked.old }
    {
        if gate != Gate::Open {
            self.faults = self.faults.saturating_add(1);
            return Err(Failed);
        }
        match history.reserve(1) {
            Ok(()) => {
                let had = mem::replace(&mut self.loose, Vec::new(alloc));
                match keep(history, Change::Synced(dev, had)) {
                    Ok(()) => Ok(()),
                    Err(_) => unreachable!(),
                }
            }
            Err(_) => {
                self.faults = self.faults.saturating_add(1);
                *lacked = true;
                Err(Failed)
            }
        }
    }

    /// Reads what stands there, unless the call is refused.
    pub fn read(&mut self, refused: bool, at: u64, into: &mut [u8]) -> Result<(), Failed>
        requires { at + length into.old ≤ length self.old.content.items }
        ensures gives { OnOk result (into.new ≡ take (length into.new) (drop at self.old.content.items)) }
        ensures content { self.new.content.items ≡ self.old.content.items }
        ensures loose { self.new.loose.items ≡ self.old.loose.items }
        ensures faults { CountsFault result self.old self.new }
        ensures reads { self.old.reads ≤ self.new.reads }
        ensures quiet { refused ≡ false → self.new.faults ≡ self.old.faults }
        ensures exactly { IsErr result ↔ (refused ≡ true) }
        ensures reads_few { self.new.reads ≤ self.old.reads + (length into.old + 4095) / 4096 }
        ensures counted { OnOk result (self.new.reads
            ≡ min (self.old.reads + (length into.old + 4095) / 4096) (2 ^ 64 - 1)) }
    {
        if refused {
            self.faults = self.faults.saturating_add(1);
            return Err(Failed);
        }
        self.reads = self.reads.saturating_add(into.len().div_ceil(4096) as u64);
        let start = at as usize;
        let end = start + into.len();
        into.copy_from_slice(&self.content[start..end]);
        Ok(())
    }

    /// A device of this many zeros.
    pub fn blank(alloc: Global, len: u64) -> Result<Area, AllocError>
        ensures { IfOk result (λ area. (area.content.items ≡ replicate len 0) × (area.loose.items ≡ [])
            × (area.faults ≡ 0) × (area.reads ≡ 0)) }
    {
        Ok(Area {
            content: vec![in alloc; 0; len as usize]?,
            loose: Vec::new(alloc),
            faults: 0,
            reads: 0,
        })
    }

    /// The device after a crash, and where the generator stands.
    pub fn crash(self, alloc: Global, seed: u64, x: u64) -> (Area, u64)
        ensures content { result.0.content.items ≡ scattered seed (ranges_of self.loose.items) 0 x self.content.items }
        ensures drawn { result.1 ≡ drawn (ranges_of self.loose.items) 0 x self.content.items }
        ensures loose { result.0.loose.items ≡ [] }
        ensures faults { result.0.faults ≡ 0 }
        ensures reads { result.0.reads ≡ 0 }
    {
        let mut content = self.content;
        let at = scatter(&mut content, &self.loose, seed, x);
        let area = Area {
            content,
            loose: Vec::new(alloc),
            faults: 0,
            reads: 0,
        };
        (area, at)
    }
}
