// What is known of a stream, line by line.
ghost use Rattle.std.specs.Prelude.{◌≡◌, ◌∷◌, ◌++◌, ◌+◌, ◌*◌, ◌^◌, ◌<◌, ◌≤◌, [], ℕ, List, length};
ghost use Rattle.std.specs.Prelude.{IfOk, OnOk, OnErr, IfErr, IfSome, IfNone, IsErrOf, None};
ghost use Rattle.record_model.specs.State.{Write};
ghost use Rattle.log_records.specs.declared.log_record.LogRecord.{LogRecord};
ghost use Rattle.log_records.specs.Spelling.{IsBlock};
ghost use Rattle.site.specs.declared.outside.Stop.TheVariants.{Memory};
ghost use Rattle.log_archive.specs.Lines.{IsEndLine};
ghost use Rattle.log_archive.specs.Accepted.{AfterLine, Stream, after_block, blank_stream, commits_in};
ghost use Rattle.log_replay.specs.declared.ledger.ReplayFault.TheVariants.{BadStream};
ghost use Rattle.log_replay.specs.Stands.{Hears, NoneWaits, StandsAt, StandsFor};

use crate::ledger::{Ledger, ReplayFault};
use crate::net::Net;
use log_archive::{read_block, read_end};
use log_records::{BLOCK_LEN, check_block};
use site::Stop;
use std::alloc::Global;

/// A stream of sealed blocks that is heard line by line. It holds the table that the records so far leave, each value
/// in its length, what the open transactions have written, and the nets of commits that wait.
#[derive(Drop)]
pub struct Replay {
    next: u64,
    ledger: Ledger,
}

impl Replay {
    /// Before the first line of a stream that begins with a database of so many pages which was never written.
    pub fn start(alloc: Global, pages: u32) -> Result<Replay, Stop>
        requires some { 1 ≤ pages }
        requires few { pages ≤ 65536 }
        ensures stands { IfOk result (λ replay. StandsFor pages (blank_stream pages) [] replay) }
        ensures stops { IfErr result (λ stop. stop ≡ Memory) }
    {
        match Ledger::blank(alloc, pages) {
            Ok(ledger) => Ok(Replay { next: 0, ledger }),
            Err(_) => Err(Stop::Memory),
        }
    }

    /// Before the first line of a stream that goes on with a block of this number, behind which its ledger stands.
    pub fn behind(next: u64, ledger: Ledger) -> Replay
        ensures { (pages : ℕ) (s : Stream) (popped : List (List Write)) → next ≡ s.next
            → StandsAt pages (512 * s.next + 2) s popped ledger → StandsFor pages s popped result }
    {
        Replay { next, ledger }
    }

    // Hears the records of the next block.
    fn block(&mut self, content: &[u8]) -> Result<(), ReplayFault>
        requires next { self.old.next < 2 ^ 40 }
        requires size { length content.now ≡ BLOCK_LEN }
        ensures block { (pages : ℕ) (s : Stream) (popped : List (List Write)) (records : List LogRecord)
            → StandsFor pages s popped self.old → IsBlock content.now records
            → Hears result (after_block pages records s) (λ now. StandsFor pages now popped self.new) }
        ensures form { OnOk result ((records : List LogRecord) × IsBlock content.now records) }
    {
        let Ok(used) = check_block(content) else {
            return Err(ReplayFault::BadStream);
        };
        match self.ledger.hear_block(self.next, content, used) {
            Ok(()) => {}
            Err(fault) => return Err(fault),
        }
        self.next += 1;
        Ok(())
    }

    // Hears an end line.
    fn end(&self, line: &[u8]) -> Result<(), ReplayFault>
        ensures ok { OnOk result (IsEndLine line.now self.now.next) }
        ensures bad { OnErr result (IsEndLine line.now self.now.next → ⊥) }
    {
        let Some(last) = read_end(line) else {
            return Err(ReplayFault::BadStream);
        };
        if last != self.next {
            return Err(ReplayFault::BadStream);
        }
        Ok(())
    }

    // Hears the next line.
    fn hear(&mut self, line: &[u8]) -> Result<(), ReplayFault>
        ensures accepted { (pages : ℕ) (s : Stream) (popped : List (List Write)) → StandsFor pages s popped self.old
            → OnOk result ((now : Stream) × AfterLine pages line.now s now × StandsFor pages now popped self.new) }
        ensures bad { (pages : ℕ) (s : Stream) (popped : List (List Write)) → StandsFor pages s popped self.old
            → IsErrOf result BadStream → (now : Stream) → AfterLine pages line.now s now → ⊥ }
    {
        let Some(block) = read_block(line) else {
            return self.end(line);
        };
        if block.0 != self.next {
            return Err(ReplayFault::BadStream);
        }
        let content = block.1;
        self.block(&content)
    }

    /// Hears the next line, without its newline. It is BadStream exactly where the line isn't accepted; one that is
    /// leaves the stream behind it. After a fault the Replay is ended: it stands for no stream, and no net waits.
    pub fn line(&mut self, line: &[u8]) -> Result<(), ReplayFault>
        ensures accepted { (pages : ℕ) (s : Stream) (popped : List (List Write)) → StandsFor pages s popped self.old
            → OnOk result ((now : Stream) × AfterLine pages line.now s now × StandsFor pages now popped self.new) }
        ensures bad { (pages : ℕ) (s : Stream) (popped : List (List Write)) → StandsFor pages s popped self.old
            → IsErrOf result BadStream → (now : Stream) → AfterLine pages line.now s now → ⊥ }
        ensures ended { OnErr result (NoneWaits self.new) }
    {
        match self.hear(line) {
            Ok(()) => Ok(()),
            Err(fault) => {
                self.ledger.waiting.clear();
                Err(fault)
            }
        }
    }

    /// The net of the next commit that wasn't popped, none exactly where none waits.
    pub fn pop(&mut self) -> Option<Net>
        ensures popped { (pages : ℕ) (s : Stream) (popped : List (List Write)) → StandsFor pages s popped self.old
            → IfSome result (λ net. StandsFor pages s (popped ++ net ∷ []) self.new) }
        ensures all { (pages : ℕ) (s : Stream) (popped : List (List Write)) → StandsFor pages s popped self.old
            → IfNone result ((popped ≡ s.nets) × StandsFor pages s popped self.new) }
        ensures none { NoneWaits self.old → result ≡ None }
    {
        self.ledger.waiting.pop_front()
    }

    /// How many commits there were, those before the stream too.
    pub fn commits(&self) -> u64
        ensures { (pages : ℕ) (s : Stream) (popped : List (List Write)) → StandsFor pages s popped self.now
            → result ≡ commits_in s }
    {
        self.ledger.commits
    }

    /// Lets the nets that wait go, as if each was popped.
    pub fn forget(&mut self)
        ensures { (pages : ℕ) (s : Stream) (popped : List (List Write)) → StandsFor pages s popped self.old
            → StandsFor pages s s.nets self.new }
    {
        self.ledger.waiting.clear();
    }
}
