// What the words ask for, as `clap` reads them.
ghost use Rattle.std.specs.Prelude.{◌≡◌, ◌↔◌, IfSome, IfNone, IfOk, IfErr, Err, ℕ, List, false, string_bytes, decimal};
ghost use Rattle.std.specs.List.{list_any};
ghost use Rattle.clap.specs.Words.{found_of, kind_of, new_rule, rule_of};
ghost use Rattle.clap.specs.declared.error.kind.ErrorKind.TheVariants.{OutOfMemory};
ghost use Rattle.command_line.specs.Program.{ArePages, AreSizes, IsFrom, IsLike, IsLoadOf, IsPool, IsReadFrom};
ghost use Rattle.command_line.specs.Program.{IsSimulationOf, IsTrialOf};
ghost use Rattle.command_line.specs.Program.{archive_words, bare, check_words, database_words, earlier_words};
ghost use Rattle.command_line.specs.Program.{load_words, new_words, program, run_words, simulate_words, text};
ghost use Rattle.command_line.specs.Program.{IsRestoringOf, restore_words, trial_words, verify_words};
ghost use Rattle.command_line.specs.Words.{HasTrialLimits, IsRight, IsRequest, HasCacheLimits, HasDash, HasLoadLimits};
ghost use Rattle.command_line.specs.Words.{HasRestoringLimits, IsOfArchive, is_dashed, words_of};
ghost use Rattle.command_line.specs.declared.request.Load.{Load};
ghost use Rattle.command_line.specs.declared.request.Restoring.{Restoring};
ghost use Rattle.command_line.specs.declared.request.Simulation.{Simulation};
ghost use Rattle.command_line.specs.declared.request.TrialSizes.{TrialSizes};
ghost use Rattle.command_line.specs.declared.request.Unread.{Unread};
ghost use Rattle.site.specs.declared.geometry.Geometry.{Geometry};

use crate::words::{
    COUNT_MAX, PAGES_MAX, POOL_MAX, geometry_of, groups_in, number_in, number_within,
    trial_geometry_of,
};
use clap::error::ErrorKind;
use clap::{Arg, ArgMatches, Command, Error};
use site::Geometry;
use std::alloc::{AllocError, Global};

/// A stated workload: so many sets, of the numbers that a generator makes of a seed, with a pool of so many frames.
#[derive(Clone, Copy, Debug, PartialEq, Eq, Drop)]
pub struct Load {
    pub count: u32,
    pub seed: u64,
    pub pool: u32,
}

/// Caches that a trace of touches is handed to, each with a flash of so many groups and a pool of so many pages.
#[derive(Clone, Copy, Debug, PartialEq, Eq, Drop)]
pub struct Simulation {
    pub groups: u32,
    pub pool: u32,
}

/// A trial: the sizes of its devices, and a pool of so many pages.
#[derive(Clone, Copy, Debug, PartialEq, Eq, Drop)]
pub struct TrialSizes {
    pub geometry: Geometry,
    pub pool: u32,
}

/// A restore of so many commits, with a pool of so many pages.
#[derive(Clone, Copy, Debug, PartialEq, Eq, Drop)]
pub struct Restoring {
    pub commits: u64,
    pub pool: u32,
}

/// What the words ask for.
#[derive(Clone, Copy, Debug, PartialEq, Eq, Drop)]
pub enum Request {
    /// The work of a run, with a pool of so many frames.
    Run(u32),
    /// A test that the devices have these sizes and are blank.
    New(Geometry),
    /// A stated workload, and its summary.
    Load(Load),
    /// The counts of three caches over a trace.
    Simulate(Simulation),
    /// Lives of a script, on devices in memory.
    Trial(TrialSizes),
    /// Whether the devices are sound.
    Check,
    /// The log's sealed blocks from this one on.
    Archive(u64),
    /// How many commits an archive has, of a database with so many pages.
    Verify(u32),
    /// The table after so many commits of an archive, on blank devices.
    Restore(Restoring),
}

/// Why words ask for nothing.
#[derive(Clone, Copy, Debug, PartialEq, Eq, Drop)]
pub enum Unread {
    /// They aren't right.
    Words,
    /// Memory was wanted to read them.
    Memory,
}

// A text that has to be there.
fn text_argument<'a>(alloc: Global, name: &'a str) -> Arg<'a>
    ensures rule { rule_of result ≡ text (new_rule name.entry.now) }
    ensures local { result.global ≡ false }
{
    Arg::new(alloc, name).required(true)
}

// The words behind `new`.
fn new_command<'a>(alloc: Global) -> Result<Command<'a>, AllocError>
    ensures { IfOk result (λ c. IsLike c new_words) }
{
    Command::new(alloc, "new")
        .arg(text_argument(alloc, "pages"))?
        .arg(text_argument(alloc, "groups"))?
        .arg(text_argument(alloc, "blocks"))
}

// The words behind `run`.
fn run_command<'a>(alloc: Global) -> Result<Command<'a>, AllocError>
    ensures { IfOk result (λ c. IsLike c run_words) }
{
    Command::new(alloc, "run").arg(text_argument(alloc, "pool"))
}

// The words behind `load`.
fn load_command<'a>(alloc: Global) -> Result<Command<'a>, AllocError>
    ensures { IfOk result (λ c. IsLike c load_words) }
{
    Command::new(alloc, "load")
        .arg(text_argument(alloc, "count"))?
        .arg(text_argument(alloc, "seed"))?
        .arg(text_argument(alloc, "pool"))
}

// The words behind `simulate`.
fn simulate_command<'a>(alloc: Global) -> Result<Command<'a>, AllocError>
    ensures { IfOk result (λ c. IsLike c simulate_words) }
{
    Command::new(alloc, "simulate")
        .arg(text_argument(alloc, "groups"))?
        .arg(text_argument(alloc, "pool"))
}

// The words behind `trial`.
fn trial_command<'a>(alloc: Global) -> Result<Command<'a>, AllocError>
    ensures { IfOk result (λ c. IsLike c trial_words) }
{
    Command::new(alloc, "trial")
        .arg(text_argument(alloc, "pages"))?
        .arg(text_argument(alloc, "groups"))?
        .arg(text_argument(alloc, "blocks"))?
        .arg(text_argument(alloc, "pool"))
}

// The word `check`.
fn check_command<'a>(alloc: Global) -> Command<'a>
    ensures { IsLike result check_words }
{
    Command::new(alloc, "check")
}

// The words behind `archive`.
fn archive_command<'a>(alloc: Global) -> Result<Command<'a>, AllocError>
    ensures { IfOk result (λ c. IsLike c archive_words) }
{
    Command::new(alloc, "archive").arg(text_argument(alloc, "from"))
}

// The words behind `verify`.
fn verify_command<'a>(alloc: Global) -> Result<Command<'a>, AllocError>
    ensures { IfOk result (λ c. IsLike c verify_words) }
{
    Command::new(alloc, "verify").arg(text_argument(alloc, "pages"))
}

// The words behind `restore`.
fn restore_command<'a>(alloc: Global) -> Result<Command<'a>, AllocError>
    ensures { IfOk result (λ c. IsLike c restore_words) }
{
    Command::new(alloc, "restore")
        .arg(text_argument(alloc, "count"))?
        .arg(text_argument(alloc, "pool"))
}

// The words are the program's without its own name, and there is no help.
fn bare_command<'a>(alloc: Global) -> Command<'a>
    ensures { IsLike result bare }
{
    Command::new(alloc, "face")
        .no_binary_name(true)
        .disable_help_flag(true)
        .disable_help_subcommand(true)
        .disable_version_flag(true)
        .subcommand_required(true)
}

// The words that ask for work on a database: `new`, `run` and `load` with their texts.
fn database_command<'a>(alloc: Global) -> Result<Command<'a>, AllocError>
    ensures { IfOk result (λ c. IsLike c database_words) }
{
    let new = new_command(alloc)?;
    let run = run_command(alloc)?;
    let load = load_command(alloc)?;
    bare_command(alloc)
        .subcommand(new)?
        .subcommand(run)?
        .subcommand(load)
}

// The words on a database, `simulate` and `trial` with their texts, and `check`.
fn earlier_command<'a>(alloc: Global) -> Result<Command<'a>, AllocError>
    ensures { IfOk result (λ c. IsLike c earlier_words) }
{
    let simulate = simulate_command(alloc)?;
    let trial = trial_command(alloc)?;
    database_command(alloc)?
        .subcommand(simulate)?
        .subcommand(trial)?
        .subcommand(check_command(alloc))
}

// The program's command line: these words, `archive` and `verify` with a text each, and `restore` with two.
fn command<'a>(alloc: Global) -> Result<Command<'a>, AllocError>
    ensures { IfOk result (λ c. IsLike c program) }
{
    let archive = archive_command(alloc)?;
    let verify = verify_command(alloc)?;
    let restore = restore_command(alloc)?;
    earlier_command(alloc)?
        .subcommand(archive)?
        .subcommand(verify)?
        .subcommand(restore)
}

fn begins_with_dash(word: &[u8]) -> bool
    ensures { result ≡ is_dashed word.now }
{
    word.first() == Some(&b'-')
}

fn has_dash(words: &[String]) -> bool
    ensures { result ≡ list_any (λ word. is_dashed (string_bytes word)) words.now }
{
    words.iter().any(|word| begins_with_dash(word.as_bytes()))
}

// Reads words as a line of the program.
fn parse<'a>(alloc: Global, words: &'a [String]) -> Result<ArgMatches<'a>, Error>
    requires { HasDash (words_of words.now) → ⊥ }
    ensures reads { IfOk result (λ m. IsReadFrom (words_of words.now) m) }
    ensures right { IfErr result (λ e. IsRight (words_of words.now) → kind_of e ≡ OutOfMemory) }
{
    let command = command(alloc)?;
    command.try_get_matches_from(words)
}

// The number of pages that the text behind `run` gives.
fn pool_in(run: &ArgMatches<'_>) -> Option<u32>
    ensures pool { IfSome result (λ pool. IsPool (found_of run.now) pool) }
    ensures none { IfNone result ((pool : ℕ) → IsPool (found_of run.now) pool → ⊥) }
{
    let Some(pool) = run.get_str("pool") else {
        return None;
    };
    number_within(pool.as_bytes(), 1, POOL_MAX)
}

// The number of the block that the text behind `archive` gives.
fn from_in(archive: &ArgMatches<'_>) -> Option<u64>
    ensures from { IfSome result (λ from. IsFrom (found_of archive.now) from) }
    ensures none { IfNone result ((from : ℕ) → IsFrom (found_of archive.now) from → ⊥) }
{
    let Some(text) = archive.get_str("from") else {
        return None;
    };
    let Some(from) = number_in(text) else {
        return None;
    };
    Some(from)
}

// The number of pages that the text behind `verify` gives.
fn archive_pages_in(verify: &ArgMatches<'_>) -> Option<u32>
    ensures pages { IfSome result (λ pages. ArePages (found_of verify.now) pages) }
    ensures none { IfNone result ((pages : ℕ) → ArePages (found_of verify.now) pages → ⊥) }
{
    let Some(pages) = verify.get_str("pages") else {
        return None;
    };
    number_within(pages.as_bytes(), 1, PAGES_MAX)
}

// The numbers that two words write, if they are within the limits.
fn restoring_of(count: &str, pool: &str) -> Option<Restoring>
    ensures restoring { IfSome result (λ r. HasRestoringLimits r × (count.now ≡ decimal r.commits)
        × (pool.now ≡ decimal r.pool)) }
    ensures none { IfNone result ((r : Restoring) → HasRestoringLimits r → count.now ≡ decimal r.commits
        → pool.now ≡ decimal r.pool → ⊥) }
{
    let Some(commits) = number_in(count) else {
        return None;
    };
    let Some(pool) = number_within(pool.as_bytes(), 1, POOL_MAX) else {
        return None;
    };
    Some(Restoring { commits, pool })
}

// The numbers that the texts behind `restore` give.
fn restoring_in(restore: &ArgMatches<'_>) -> Option<Restoring>
    ensures restoring { IfSome result (λ r. IsRestoringOf (found_of restore.now) r) }
    ensures none { IfNone result ((r : Restoring) → IsRestoringOf (found_of restore.now) r → ⊥) }
{
    let Some(count) = restore.get_str("count") else {
        return None;
    };
    let Some(pool) = restore.get_str("pool") else {
        return None;
    };
    restoring_of(count, pool)
}

// The sizes that the texts behind `new` give.
fn sizes_in(new: &ArgMatches<'_>) -> Option<Geometry>
    ensures sizes { IfSome result (λ g. AreSizes (found_of new.now) g) }
    ensures none { IfNone result ((g : Geometry) → AreSizes (found_of new.now) g → ⊥) }
{
    let Some(pages) = new.get_str("pages") else {
        return None;
    };
    let Some(groups) = new.get_str("groups") else {
        return None;
    };
    let Some(blocks) = new.get_str("blocks") else {
        return None;
    };
    geometry_of(pages.as_bytes(), groups.as_bytes(), blocks.as_bytes())
}

// The workload that three texts state, if its numbers are within the limits.
fn load_of(count: &str, seed: &str, pool: &str) -> Option<Load>
    ensures load { IfSome result (λ l. HasLoadLimits l × (count.now ≡ decimal l.count) × (seed.now ≡ decimal l.seed)
        × (pool.now ≡ decimal l.pool)) }
    ensures none { IfNone result ((l : Load) → HasLoadLimits l → count.now ≡ decimal l.count → seed.now ≡ decimal l.seed
        → pool.now ≡ decimal l.pool → ⊥) }
{
    let Some(count) = number_within(count.as_bytes(), 1, COUNT_MAX) else {
        return None;
    };
    let Some(seed) = number_in(seed) else {
        return None;
    };
    let Some(pool) = number_within(pool.as_bytes(), 1, POOL_MAX) else {
        return None;
    };
    Some(Load { count, seed, pool })
}

// The workload that the texts behind `load` state.
fn load_in(load: &ArgMatches<'_>) -> Option<Load>
    ensures load { IfSome result (λ l. IsLoadOf (found_of load.now) l) }
    ensures none { IfNone result ((l : Load) → IsLoadOf (found_of load.now) l → ⊥) }
{
    let Some(count) = load.get_str("count") else {
        return None;
    };
    let Some(seed) = load.get_str("seed") else {
        return None;
    };
    let Some(pool) = load.get_str("pool") else {
        return None;
    };
    load_of(count, seed, pool)
}

// The sizes that the texts behind `simulate` give.
fn simulation_in(simulate: &ArgMatches<'_>) -> Option<Simulation>
    ensures simulation { IfSome result (λ s. IsSimulationOf (found_of simulate.now) s) }
    ensures none { IfNone result ((s : Simulation) → IsSimulationOf (found_of simulate.now) s → ⊥) }
{
    let Some(groups) = simulate.get_str("groups") else {
        return None;
    };
    let Some(pool) = simulate.get_str("pool") else {
        return None;
    };
    simulation_of(groups.as_bytes(), pool.as_bytes())
}

// The sizes that two words write, if they are within the limits.
fn simulation_of(groups: &[u8], pool: &[u8]) -> Option<Simulation>
    ensures simulation { IfSome result (λ s. HasCacheLimits s × (groups.now ≡ decimal s.groups)
        × (pool.now ≡ decimal s.pool)) }
    ensures none { IfNone result ((s : Simulation) → HasCacheLimits s → groups.now ≡ decimal s.groups
        → pool.now ≡ decimal s.pool → ⊥) }
{
    let Some(groups) = groups_in(groups) else {
        return None;
    };
    let Some(pool) = number_within(pool, 1, POOL_MAX) else {
        return None;
    };
    Some(Simulation { groups, pool })
}

// The trial that the texts behind `trial` ask for.
fn trial_in(trial: &ArgMatches<'_>) -> Option<TrialSizes>
    ensures trial { IfSome result (λ t. IsTrialOf (found_of trial.now) t) }
    ensures none { IfNone result ((t : TrialSizes) → IsTrialOf (found_of trial.now) t → ⊥) }
{
    let Some(pages) = trial.get_str("pages") else {
        return None;
    };
    let Some(groups) = trial.get_str("groups") else {
        return None;
    };
    let Some(blocks) = trial.get_str("blocks") else {
        return None;
    };
    let Some(pool) = trial.get_str("pool") else {
        return None;
    };
    trial_of(
        pages.as_bytes(),
        groups.as_bytes(),
        blocks.as_bytes(),
        pool.as_bytes(),
    )
}

// The trial that four words ask for, if they are within the limits.
fn trial_of(pages: &[u8], groups: &[u8], blocks: &[u8], pool: &[u8]) -> Option<TrialSizes>
    ensures trial { IfSome result (λ t. HasTrialLimits t × (pages.now ≡ decimal t.geometry.pages)
        × (groups.now ≡ decimal t.geometry.groups) × (blocks.now ≡ decimal t.geometry.blocks)
        × (pool.now ≡ decimal t.pool)) }
    ensures none { IfNone result ((t : TrialSizes) → HasTrialLimits t → pages.now ≡ decimal t.geometry.pages
        → groups.now ≡ decimal t.geometry.groups → blocks.now ≡ decimal t.geometry.blocks
        → pool.now ≡ decimal t.pool → ⊥) }
{
    let Some(geometry) = trial_geometry_of(pages, groups, blocks) else {
        return None;
    };
    let Some(pool) = number_within(pool, 1, POOL_MAX) else {
        return None;
    };
    Some(TrialSizes { geometry, pool })
}

fn unread_by(kind: ErrorKind) -> Unread
    ensures { (result ≡ Unread.Memory) ↔ (kind ≡ OutOfMemory) }
{
    match kind {
        ErrorKind::OutOfMemory => Unread::Memory,
        _ => Unread::Words,
    }
}

// What words of an archive ask for that `clap` has read.
fn archive_request_in(matches: &ArgMatches<'_>) -> Option<Request>
    ensures some { (words : List (List ℕ)) → IsReadFrom words matches.now
        → IfSome result (λ request. IsRequest request words) }
    ensures none { (words : List (List ℕ)) → IsReadFrom words matches.now → IfNone result (IsOfArchive words → ⊥) }
{
    if let Some(archive) = matches.subcommand_matches("archive") {
        let Some(from) = from_in(archive) else {
            return None;
        };
        return Some(Request::Archive(from));
    }
    if let Some(verify) = matches.subcommand_matches("verify") {
        let Some(pages) = archive_pages_in(verify) else {
            return None;
        };
        return Some(Request::Verify(pages));
    }
    if let Some(restore) = matches.subcommand_matches("restore") {
        let Some(restoring) = restoring_in(restore) else {
            return None;
        };
        return Some(Request::Restore(restoring));
    }
    None
}

// What words ask for that `clap` has read.
fn request_in(matches: &ArgMatches<'_>) -> Option<Request>
    ensures some { (words : List (List ℕ)) → IsReadFrom words matches.now
        → IfSome result (λ request. IsRequest request words) }
    ensures none { (words : List (List ℕ)) → IsReadFrom words matches.now → IfNone result (IsRight words → ⊥) }
{
    if let Some(run) = matches.subcommand_matches("run") {
        let Some(pool) = pool_in(run) else {
            return None;
        };
        return Some(Request::Run(pool));
    }
    if let Some(new) = matches.subcommand_matches("new") {
        let Some(geometry) = sizes_in(new) else {
            return None;
        };
        return Some(Request::New(geometry));
    }
    if let Some(load) = matches.subcommand_matches("load") {
        let Some(load) = load_in(load) else {
            return None;
        };
        return Some(Request::Load(load));
    }
    if let Some(simulate) = matches.subcommand_matches("simulate") {
        let Some(simulation) = simulation_in(simulate) else {
            return None;
        };
        return Some(Request::Simulate(simulation));
    }
    if let Some(trial) = matches.subcommand_matches("trial") {
        let Some(trial) = trial_in(trial) else {
            return None;
        };
        return Some(Request::Trial(trial));
    }
    if let Some(_check) = matches.subcommand_matches("check") {
        return Some(Request::Check);
    }
    archive_request_in(matches)
}

/// What the words ask for. Words of which one begins with a dash aren't handed to `clap`.
pub fn read_words(alloc: Global, words: &[String]) -> Result<Request, Unread>
    ensures request { IfOk result (λ request. IsRequest request (words_of words.now)) }
    ensures unread { IfErr result (λ unread. unread ≡ Unread.Words → IsRight (words_of words.now) → ⊥) }
    ensures dashed { HasDash (words_of words.now) → result ≡ Err Unread.Words }
{
    if has_dash(words) {
        return Err(Unread::Words);
    }
    match parse(alloc, words) {
        Ok(matches) => match request_in(&matches) {
            Some(request) => Ok(request),
            None => Err(Unread::Words),
        },
        Err(error) => Err(unread_by(error.kind())),
    }
}
