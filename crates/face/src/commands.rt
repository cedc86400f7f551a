// The commands are carried out.
ghost use Rattle.std.specs.Prelude.{◌≡◌, false};
ghost use Rattle.record_model.specs.Run.{is_cache};
ghost use Rattle.engine.specs.Invariant.{Invariant};
ghost use Rattle.face.specs.Carrying.{CarriesUntold, halted};

use engine::Engine;
use front_end::Halt;
use record_model::{Command, Reply, Why};
use site::{Site, Stop};

// Carries out a line that doesn't ask for the listing of the cache.
fn carry_out_plain<S: Site>(
    engine: &mut Engine,
    site: &mut S,
    line: Option<Command>,
) -> Result<Reply, Stop>
    requires going { Invariant engine.old (S.state site.old) }
    requires plain { is_cache line ≡ false }
    ensures { CarriesUntold (halted result) line engine.old engine.new (S.state site.old) (S.state site.new) }
{
    let Some(command) = line else {
        return Ok(Reply::Refused(Why::BadLine));
    };
    match command {
        Command::Begin { session } => engine.begin(site, session),
        Command::Read { session, number } => engine.read(site, session, number),
        Command::Write {
            session,
            number,
            value,
        } => engine.write(site, session, number, &value),
        Command::Erase { session, number } => engine.erase(site, session, number),
        Command::Scan {
            session,
            number,
            count,
        } => engine.scan(site, session, number, count),
        Command::Commit { session } => engine.commit(site, session),
        Command::Abort { session } => engine.abort(site, session),
        Command::Mark { session } => Ok(engine.mark(session)),
        Command::Back { session, standing } => engine.back(site, session, standing),
        Command::Get { number } => engine.get(site, number),
        Command::Set { number, value } => engine.set(site, number, &value),
        Command::Checkpoint => engine.checkpoint(site),
        Command::Stat => Ok(engine.stat()),
        Command::Quit => Ok(Reply::Bye),
        Command::Cache => unreachable!(),
    }
}

// Whether a line asks for the listing of the cache.
fn asks_for_listing(line: &Option<Command>) -> bool
    ensures { result ≡ is_cache line.now }
{
    matches!(line, Some(Command::Cache))
}

// What a call of the database answers, as work of a run.
fn as_work(answered: Result<Reply, Stop>) -> Result<Reply, Halt>
    ensures { result ≡ halted answered }
{
    match answered {
        Ok(reply) => Ok(reply),
        Err(stop) => Err(Halt::Stop(stop)),
    }
}

/// Carries out a line. A crash at any moment leaves the table before it or after it, and nothing is told.
pub fn carry_out<S: Site>(
    engine: &mut Engine,
    site: &mut S,
    line: Option<Command>,
) -> Result<Reply, Halt>
    requires going { Invariant engine.old (S.state site.old) }
    ensures { CarriesUntold result line engine.old engine.new (S.state site.old) (S.state site.new) }
{
    if asks_for_listing(&line) {
        return as_work(engine.cache());
    }
    as_work(carry_out_plain(engine, site, line))
}
