// The lines of an archive, heard one after the other.
ghost use Rattle.std.specs.Prelude.{◌≡◌, ◌≤◌, ◌<◌, ◌^◌, ℕ, List, IsTrue, IfOk, IfErr, OnOk, IsErrOf};
ghost use Rattle.site.specs.Calls.{Preserves};
ghost use Rattle.record_model.specs.State.{Write};
ghost use Rattle.log_archive.specs.Accepted.{AfterLine, Stream};
ghost use Rattle.log_replay.specs.Stands.{StandsFor};
ghost use Rattle.log_replay.specs.declared.ledger.ReplayFault.TheVariants.{BadStream};
ghost use Rattle.stream_lines.specs.Lines.{AsksFor, HearsOnly};
ghost use Rattle.stream_report.specs.Contract.{HasCause, HearFaults};
ghost use Rattle.stream_report.specs.Streams.{AreAccepted, IsArchiveOf};

use crate::halt::{Halt, halt_by};
use arrayvec::ArrayVec;
use log_replay::{Replay, ReplayFault};
use site::Site;
use std::alloc::Global;
use stream_lines::{Heard, Source};

/// An input has at most one line for each of its 2^40 octets.
const LINES: u64 = 1 << 40;

/// The most octets of a line that are kept.
const LONG: usize = 1_027;

// Hears a line. The nets of its commits aren't kept.
fn hear_line(replay: &mut Replay, line: &[u8]) -> Result<(), ReplayFault>
    ensures accepted { (pages : ℕ) (s : Stream) (popped : List (List Write)) → StandsFor pages s popped replay.old
        → OnOk result ((now : Stream) × AfterLine pages line.now s now × StandsFor pages now now.nets replay.new) }
    ensures bad { (pages : ℕ) (s : Stream) (popped : List (List Write)) → StandsFor pages s popped replay.old
        → IsErrOf result BadStream → (now : Stream) → AfterLine pages line.now s now → ⊥ }
{
    match replay.line(line) {
        Ok(()) => {
            replay.forget();
            Ok(())
        }
        Err(fault) => Err(fault),
    }
}

/// Hears the input as an archive of a database with so many pages, and answers how many commits it has.
pub fn hear_stream<S: Site>(alloc: Global, pages: u32, site: &mut S) -> Result<u64, Halt>
    requires some { 1 ≤ pages }
    requires few { pages ≤ 65536 }
    ensures archive { IsTrue (S.state site.old).honest
        → IfOk result (λ count. IsArchiveOf pages (S.state site.old).input.left count) }
    ensures cause { IfErr result (λ halt. HasCause pages halt (S.state site.old) (S.state site.new)) }
    ensures same { IsTrue (S.state site.old).honest → HearsOnly (S.state site.old) (S.state site.new) }
    ensures asks { IsTrue (S.state site.old).honest
        → AsksFor (AreAccepted pages) (S.state site.old) (S.state site.new) }
    ensures preserves { Preserves (S.state site.old) (S.state site.new) }
    ensures faults { HearFaults result (S.state site.old) (S.state site.new) }
{
    let Ok(mut replay) = Replay::start(alloc, pages) else {
        return Err(Halt::Memory);
    };
    let mut source = Source::new();
    let mut line = ArrayVec::<u8, LONG>::new();
    for number in 0..LINES + 1 {
        match source.next(site, &mut line) {
            Err(fault) => return Err(halt_by(fault)),
            Ok(Heard::End) => return Ok(replay.commits()),
            Ok(Heard::Long) => return Err(Halt::Stream(number + 1)),
            Ok(Heard::Line) => match hear_line(&mut replay, line.as_slice()) {
                Ok(()) => {}
                Err(ReplayFault::BadStream) => return Err(Halt::Stream(number + 1)),
                Err(ReplayFault::Memory) => return Err(Halt::Memory),
            },
        }
    }
    Err(Halt::Limit)
}
