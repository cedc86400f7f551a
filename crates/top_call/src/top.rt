// The top call: words in, a status out.
ghost use Rattle.std.specs.Prelude.{◌≡◌, ◌⊎◌, ℕ, List, IsTrue};
ghost use Rattle.front_end.specs.Faults.{FirstDecides, SameFaults};
ghost use Rattle.site.specs.Calls.{Preserves};
ghost use Rattle.site.specs.declared.geometry.Geometry.{Geometry};
ghost use Rattle.engine.specs.Leaves.{HasNoSizes};
ghost use Rattle.face.specs.Hearing.{HearsInTime};
ghost use Rattle.face.specs.Judged.{KeepsRules, RunsJudged};
ghost use Rattle.face.specs.TopCall.{LoadContract, NewContract, RunContract};
ghost use Rattle.command_line.specs.declared.request.Load.{Load};
ghost use Rattle.command_line.specs.declared.request.Restoring.{Restoring};
ghost use Rattle.command_line.specs.declared.request.Simulation.{Simulation};
ghost use Rattle.command_line.specs.declared.request.TrialSizes.{TrialSizes};
ghost use Rattle.command_line.specs.Words.{IsArchive, IsCheck, IsRun, IsNew, IsLoad, IsSimulate, IsTrial, IsVerify};
ghost use Rattle.command_line.specs.Words.{HasDash, IsRestore, IsRight, words_of};
ghost use Rattle.archive_report.specs.Contract.{ArchiveContract};
ghost use Rattle.archive_restore.specs.Contract.{RestoreContract};
ghost use Rattle.archive_restore.specs.Refusing.{IsWritten, RefusesFilled};
ghost use Rattle.front_end.specs.Check.{CheckContract};
ghost use Rattle.stream_report.specs.Contract.{VerifyContract};
ghost use Rattle.trace_report.specs.Contract.{SimulateContract};
ghost use Rattle.face.specs.Trial.{TrialContract};
ghost use Rattle.front_end.specs.Refusals.{RefusesWords, RefusesDevices, LacksMemory};

use archive_report::archive;
use archive_restore::restore;
use command_line::{Request, Unread, read_words};
use face::{lack_memory, serve, serve_load, serve_trial};
use front_end::{make_new, serve_check, tell_words};
use site::Site;
use std::alloc::Global;
use stream_report::verify;
use trace_report::simulate;

/// The top call: the program's words, without its own name, and the site that it works on. The answer is the status
/// with which the program ends. The words `run POOL`, with POOL from 1 to 4,096, are the work of `serve`. The words
/// `new PAGES GROUPS BLOCKS` test that the devices have these sizes and are blank. The words `load COUNT SEED POOL`,
/// with COUNT from 1 to 100,000 and SEED below 2^64, are the work of `serve_load`. The words `simulate GROUPS POOL`,
/// with GROUPS a multiple of 4 from 8 to 16,384, tell what three page caches do with the trace on the input, and touch
/// no device. The words `trial PAGES GROUPS BLOCKS POOL`, with at most 1,024 pages, 256 groups and 4,096 blocks, are
/// the work of `trial`, on a site in memory of these sizes, and touch no device either. The word `check` tells whether
/// the devices are sound, and changes nothing. The words `archive FROM`, with FROM below 2^64, tell the log's sealed
/// blocks from that one on, and change nothing but that the log is synced. The words `verify PAGES`, with PAGES from 1
/// to 65,536, hear an archive of the log on the input and tell how many commits it has; they touch no device. The
/// words `restore N POOL`, with N below 2^64 and POOL as of a run, write the first N commits of an archive on the
/// input to blank devices. All other words have status 2. Reading the words may want memory, which has status 4; then
/// nothing is read or changed.
pub fn face<S: Site>(alloc: Global, words: &[String], site: &mut S) -> u8
    // What each command does, and when each of its statuses comes.
    ensures run { (pool : ℕ) → IsRun (words_of words.now) pool
        → RunContract pool (S.state site.old) (S.state site.new) result }
    ensures load { (load : Load) → IsLoad (words_of words.now) load
        → LoadContract load (S.state site.old) (S.state site.new) result }
    ensures new { (g : Geometry) → IsNew (words_of words.now) g
        → NewContract g (S.state site.old) (S.state site.new) result }
    ensures simulate { (s : Simulation) → IsSimulate (words_of words.now) s
        → SimulateContract s.groups s.pool (S.state site.old) (S.state site.new) result }
    ensures trial { (t : TrialSizes) → IsTrial (words_of words.now) t → (numbers : List ℕ)
        × TrialContract t.geometry t.pool (S.state site.old) (S.state site.new) result numbers }
    ensures check { IsCheck (words_of words.now) → CheckContract (S.state site.old) (S.state site.new) result }
    ensures archive { (from : ℕ) → IsArchive (words_of words.now) from
        → ArchiveContract from (S.state site.old) (S.state site.new) result }
    ensures verify { (pages : ℕ) → IsVerify (words_of words.now) pages
        → VerifyContract pages (S.state site.old) (S.state site.new) result }
    ensures restore { (r : Restoring) → IsRestore (words_of words.now) r
        → RestoreContract r.commits r.pool (S.state site.old) (S.state site.new) result
        ⊎ LacksMemory result (S.state site.old) (S.state site.new) }
    // Which octets a run takes of an honest site, and with which status, whatever stands on its devices.
    ensures hears { ((pool : ℕ) × IsRun (words_of words.now) pool) → IsTrue (S.state site.old).honest
        → HearsInTime result (S.state site.old) (S.state site.new) }
    // Over an honest site whose records break a rule of those that are judged no run goes well or takes input, and no
    // load goes well.
    ensures judged { ((pool : ℕ) × IsRun (words_of words.now) pool) → IsTrue (S.state site.old).honest
        → RunsJudged result (S.state site.old) (S.state site.new) }
    ensures load_judged { ((load : Load) × IsLoad (words_of words.now) load) → IsTrue (S.state site.old).honest
        → result ≡ 0 → KeepsRules (S.state site.old).image }
    // Devices without sizes have status 9, or memory was wanted before anything was done.
    ensures sizes { ((pool : ℕ) × IsRun (words_of words.now) pool) → HasNoSizes (S.state site.old)
        → RefusesDevices result (S.state site.old) (S.state site.new)
        ⊎ LacksMemory result (S.state site.old) (S.state site.new) }
    ensures load_sizes { ((load : Load) × IsLoad (words_of words.now) load) → HasNoSizes (S.state site.old)
        → RefusesDevices result (S.state site.old) (S.state site.new)
        ⊎ LacksMemory result (S.state site.old) (S.state site.new) }
    ensures restore_sizes { ((r : Restoring) × IsRestore (words_of words.now) r) → HasNoSizes (S.state site.old)
        → RefusesDevices result (S.state site.old) (S.state site.new)
        ⊎ LacksMemory result (S.state site.old) (S.state site.new) }
    // A restore refuses devices that aren't blank, and changes nothing of them, or a read of one fails.
    ensures unfit { ((r : Restoring) × IsRestore (words_of words.now) r) → IsTrue (S.state site.old).honest
        → IsWritten (S.state site.old) → RefusesFilled result (S.state site.old) (S.state site.new)
        ⊎ LacksMemory result (S.state site.old) (S.state site.new) }
    // All other words are refused, or memory was wanted before anything was done.
    ensures words { (result ≡ 2)
        ⊎ (IsRight (words_of words.now) ⊎ LacksMemory result (S.state site.old) (S.state site.new)) }
    ensures wrong { result ≡ 2 → IsRight (words_of words.now) → ⊥ }
    ensures refused { result ≡ 2 → RefusesWords (S.state site.old) (S.state site.new) }
    // Words of which one begins with a dash want no memory.
    ensures dashed { HasDash (words_of words.now) → result ≡ 2 }
    // The first failed call decides the status.
    ensures first { FirstDecides result (S.state site.old) (S.state site.new) }
    ensures preserves { Preserves (S.state site.old) (S.state site.new) }
    ensures faults { result ≡ 0 → SameFaults (S.state site.old) (S.state site.new) }
{
    match read_words(alloc, words) {
        Ok(Request::Run(pool)) => serve(alloc, pool, site),
        Ok(Request::New(geometry)) => make_new(&geometry, site),
        Ok(Request::Load(load)) => serve_load(alloc, &load, site),
        Ok(Request::Simulate(caches)) => simulate(alloc, caches.groups, caches.pool, site),
        Ok(Request::Trial(sizes)) => serve_trial(alloc, &sizes, site),
        Ok(Request::Check) => serve_check(alloc, site),
        Ok(Request::Archive(from)) => archive(from, site),
        Ok(Request::Verify(pages)) => verify(alloc, pages, site),
        Ok(Request::Restore(to)) => restore(alloc, to.commits, to.pool, site),
        Err(Unread::Words) => {
            let _ = tell_words(site);
            2
        }
        Err(Unread::Memory) => lack_memory(site),
    }
}
