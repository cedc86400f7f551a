// A net is written: the lines that it makes are carried out.
ghost use Rattle.std.specs.Prelude.{◌≡◌, ◌≢◌, ◌+◌, ◌^◌, ◌<◌, ℕ, List, ◌++◌, length, IfErr, IsTrue, OnOk};
ghost use Rattle.site.specs.Calls.{Preserves};
ghost use Rattle.site.specs.State.{State as Site};
ghost use Rattle.site.specs.declared.geometry.Geometry.{Geometry};
ghost use Rattle.record_model.specs.State.{Content, State, used};
ghost use Rattle.record_model.specs.Run.{Line};
ghost use Rattle.record_model.specs.declared.words.Stat.{Stat};
ghost use Rattle.net_lines.specs.Nets.{AreWritable, Fits, HasLogRoom, idle, net_lines, session_lines};
ghost use Rattle.engine.specs.Representation.{Matches};
ghost use Rattle.front_end.specs.declared.halt.Halt.{Halt};
ghost use Rattle.face.specs.Causes.{WorkEnds};
ghost use Rattle.face.specs.RunInProgress.{GoesOn};
ghost use Rattle.archive_restore.specs.Writing.{FailsToWrite, HasCarried, HasFreed, HasWrittenNet, IsFree};

use engine::Engine;
use face::carry_out;
use front_end::Halt;
use log_replay::Net;
use net_lines::{is_tight, session_line};
use record_model::{Command, Reply};
use site::Site;

// The used records of a reply that has counts.
fn used_in(reply: &Reply) -> u64
    ensures { (stat : Stat) → reply.now ≡ Reply.Stat stat → result ≡ stat.used }
{
    match reply {
        Reply::Stat(stat) => stat.used,
        _ => 0,
    }
}

// How many records count against the log's room.
fn used_of(engine: &Engine) -> u64
    ensures { (s : State) (site : Site) → Matches engine.now site s → result ≡ used s }
{
    used_in(&engine.stat())
}

// Makes a checkpoint where the log has no room for a net else.
fn free<S: Site>(engine: &mut Engine, site: &mut S, cap: u64, net: &Net) -> Result<(), Halt>
    requires going { (entry : Site) × GoesOn entry (S.state site.old) engine.old }
    requires room { HasLogRoom cap net.now }
    ensures going { (entry : Site) → GoesOn entry (S.state site.old) engine.old
        → OnOk result (GoesOn entry (S.state site.new) engine.new) }
    ensures ends { (entry : Site) → GoesOn entry (S.state site.old) engine.old
        → WorkEnds result entry (S.state site.new) }
    ensures left { IsTrue (S.state site.old).honest → (S.state site.new).input ≡ (S.state site.old).input }
    ensures preserves { Preserves (S.state site.old) (S.state site.new) }
    ensures halts { IfErr result (λ halt. (halt ≢ Halt.Input) × (halt ≢ Halt.Limit)) }
    ensures frees { (pool : ℕ) (g : Geometry) (entry : Site) (lines : List Line) (table : List Content)
        (commits made kept : ℕ)
        → HasCarried pool g entry (S.state site.old) engine.old lines (idle table commits made kept cap)
        → OnOk result (HasFreed pool g entry (S.state site.old) (S.state site.new) engine.new lines table commits made
        kept cap net.now) }
    ensures fails { (pool : ℕ) (g : Geometry) (entry : Site) (lines : List Line) (table : List Content)
        (commits made kept : ℕ)
        → HasCarried pool g entry (S.state site.old) engine.old lines (idle table commits made kept cap)
        → IfErr result (FailsToWrite pool g entry (length lines)
        (lines ++ net_lines (idle table commits made kept cap) net.now) table commits net.now (S.state site.old)
        (S.state site.new)) }
{
    if !is_tight(cap, used_of(engine), net) {
        return Ok(());
    }
    match carry_out(engine, site, Some(Command::Checkpoint)) {
        Ok(_reply) => Ok(()),
        Err(halt) => Err(halt),
    }
}

// Carries out the lines of session 0 that write a net.
fn carry_session<S: Site>(engine: &mut Engine, site: &mut S, net: &Net) -> Result<(), Halt>
    requires going { (entry : Site) × GoesOn entry (S.state site.old) engine.old }
    requires writable { (records : ℕ) × AreWritable records net.now }
    requires few { length net.now + 2 < 2 ^ 64 }
    ensures going { (entry : Site) → GoesOn entry (S.state site.old) engine.old
        → OnOk result (GoesOn entry (S.state site.new) engine.new) }
    ensures ends { (entry : Site) → GoesOn entry (S.state site.old) engine.old
        → WorkEnds result entry (S.state site.new) }
    ensures left { IsTrue (S.state site.old).honest → (S.state site.new).input ≡ (S.state site.old).input }
    ensures preserves { Preserves (S.state site.old) (S.state site.new) }
    ensures halts { IfErr result (λ halt. (halt ≢ Halt.Input) × (halt ≢ Halt.Limit)) }
    ensures writes { (pool : ℕ) (g : Geometry) (entry : Site) (lines : List Line) (table : List Content)
        (commits made kept cap : ℕ)
        → HasCarried pool g entry (S.state site.old) engine.old lines (idle table commits made kept cap)
        → IsFree table made kept cap net.now
        → OnOk result (HasWrittenNet pool g entry (S.state site.old) (S.state site.new) engine.new
        (lines ++ session_lines net.now) table commits cap net.now) }
    ensures fails { (pool : ℕ) (g : Geometry) (entry : Site) (lines : List Line) (table : List Content)
        (commits made kept cap : ℕ)
        → HasCarried pool g entry (S.state site.old) engine.old lines (idle table commits made kept cap)
        → IsFree table made kept cap net.now
        → IfErr result (FailsToWrite pool g entry (length lines) (lines ++ session_lines net.now) table commits net.now
        (S.state site.old) (S.state site.new)) }
{
    for place in 0..net.len() + 2 {
        match carry_out(engine, site, Some(session_line(net, place))) {
            Ok(_reply) => {}
            Err(halt) => return Err(halt),
        }
    }
    Ok(())
}

/// Writes the net of a commit: a checkpoint where the log has no room else, and then the lines of session 0.
pub fn write_net<S: Site>(
    engine: &mut Engine,
    site: &mut S,
    cap: u64,
    net: &Net,
) -> Result<(), Halt>
    requires going { (entry : Site) × GoesOn entry (S.state site.old) engine.old }
    requires room { HasLogRoom cap net.now }
    requires writable { (records : ℕ) × AreWritable records net.now }
    ensures going { (entry : Site) → GoesOn entry (S.state site.old) engine.old
        → OnOk result (GoesOn entry (S.state site.new) engine.new) }
    ensures ends { (entry : Site) → GoesOn entry (S.state site.old) engine.old
        → WorkEnds result entry (S.state site.new) }
    ensures left { IsTrue (S.state site.old).honest → (S.state site.new).input ≡ (S.state site.old).input }
    ensures preserves { Preserves (S.state site.old) (S.state site.new) }
    ensures halts { IfErr result (λ halt. (halt ≢ Halt.Input) × (halt ≢ Halt.Limit)) }
    ensures writes { (pool : ℕ) (g : Geometry) (entry : Site) (lines : List Line) (table : List Content)
        (commits made kept : ℕ)
        → HasCarried pool g entry (S.state site.old) engine.old lines (idle table commits made kept cap)
        → AreWritable (length table) net.now → Fits cap table net.now
        → OnOk result (HasWrittenNet pool g entry (S.state site.old) (S.state site.new) engine.new
        (lines ++ net_lines (idle table commits made kept cap) net.now) table commits cap net.now) }
    ensures fails { (pool : ℕ) (g : Geometry) (entry : Site) (lines : List Line) (table : List Content)
        (commits made kept : ℕ)
        → HasCarried pool g entry (S.state site.old) engine.old lines (idle table commits made kept cap)
        → AreWritable (length table) net.now → Fits cap table net.now
        → IfErr result (FailsToWrite pool g entry (length lines)
        (lines ++ net_lines (idle table commits made kept cap) net.now) table commits net.now (S.state site.old)
        (S.state site.new)) }
{
    match free(engine, site, cap, net) {
        Ok(()) => carry_session(engine, site, net),
        Err(halt) => Err(halt),
    }
}
