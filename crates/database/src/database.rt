// The database: an engine, and the site that it works on.
ghost use Rattle.std.specs.Prelude.{◌≡◌, ◌||◌, ◌≤◌, ◌^◌, length, true, false, Ok, Err, IfOk, IfErr};
ghost use Rattle.site.specs.declared.geometry.Geometry.{Geometry};
ghost use Rattle.record_model.specs.State.{State};
ghost use Rattle.database.specs.Held.{StandsFor, records_of};
ghost use Rattle.database.specs.Opening.{HasOpened};
ghost use Rattle.database.specs.Serving.{answered, has_stopped};

use crate::unanswered::{Unanswered, Unopened};
use engine::Engine;
use record_model::Reply;
use site::{Dev, Site, Stop};
use std::alloc::Global;
use std::marker::Model;

/// A database over the devices of a site, which it owns. A call that stops closes it; each call of a closed one answers
/// [`Unanswered::Closed`] and does nothing.
#[derive(Drop)]
pub struct Database<S: Site> {
    pub(crate) engine: Engine,
    pub(crate) site: S,
    pub(crate) closed: bool,
}

impl<S: Site> Model for Database<S> {
    ghost use Rattle.std.specs.Prelude.{◌≡◌, false};
    ghost use Rattle.engine.specs.Invariant.{Invariant};
    ghost use Rattle.database.specs.Held.{Held};

    ghost Value = { Held };

    ghost view = { λ d. record { engine = d.engine; site = S.state d.site; closed = d.closed } };

    ghost invariant = { λ d. d.closed ≡ false → Invariant d.engine (S.state d.site) };
}

/// The database's answer, by its engine's. A stop closes it.
pub(crate) fn settle(closed: &mut bool, by_engine: Result<Reply, Stop>) -> Result<Reply, Unanswered>
    ensures answer { result ≡ answered by_engine }
    ensures closes { closed.new ≡ (closed.old || has_stopped by_engine) }
{
    match by_engine {
        Ok(reply) => Ok(reply),
        Err(stop) => {
            *closed = true;
            Err(Unanswered::Stopped(stop))
        }
    }
}

impl<S: Site + Drop> Database<S> {
    /// Opens what the devices hold: a restart, over a pool of so many pages, 1 to 4,096. Devices that are blank hold a
    /// table without values.
    pub fn open(alloc: Global, site: S, pool: u32) -> Result<Database<S>, Unopened<S>>
        requires pool { (1 ≤ pool) × (pool ≤ 4096) }
        ensures opened { IfOk result (λ db. HasOpened pool (Ok db) (S.state site) db.site) }
        ensures unopened { IfErr result (λ left. HasOpened pool (Err left.stop) (S.state site) (S.state left.site)) }
    {
        let mut site = site;
        match Engine::start(alloc, &mut site, pool) {
            Ok(engine) => Ok(Database {
                engine,
                site,
                closed: false,
            }),
            Err(stop) => Err(Unopened { stop, site }),
        }
    }

    /// Whether a call has stopped.
    pub fn is_closed(&self) -> bool
        ensures closed { result ≡ self.now.closed }
    {
        self.closed
    }

    /// How many records it has, 32 to 2,097,152.
    pub fn records(&self) -> Result<u32, Unanswered>
        ensures closed { self.now.closed ≡ true → result ≡ Err Unanswered.Closed }
        ensures records { self.now.closed ≡ false → result ≡ Ok (records_of self.now) }
        ensures model { (g : Geometry) (s : State) → StandsFor g s self.now → result ≡ Ok (length s.table) }
        ensures limits { IfOk result (λ records. (32 ≤ records) × (records ≤ 2 ^ 21)) }
    {
        if self.closed {
            return Err(Unanswered::Closed);
        }
        Ok((self.site.len(Dev::Disk) / 128) as u32)
    }

    /// The site.
    pub fn site(&self) -> &S
        ensures site { S.state result.now ≡ self.now.site }
    {
        &self.site
    }

    /// Ends the database, and gives back the site. Nothing is written: what was committed is stable, and sessions that
    /// are active are undone by the next restart.
    pub fn into_site(self) -> S
        ensures site { S.state result ≡ self.site }
    {
        self.site
    }
}
