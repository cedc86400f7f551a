// Why a call isn't answered, and why a database isn't opened.
use site::Stop;
use thiserror::Error;

/// Why a call isn't answered.
#[derive(Clone, Copy, Debug, PartialEq, Eq, Drop, Error)]
pub enum Unanswered {
    /// An earlier call has stopped, and nothing was done. What stands on the devices may be opened again.
    #[error("the database is closed: an earlier call has stopped")]
    Closed,
    /// It stopped, and closed the database. A commit that was asked for is made, or it isn't.
    #[error("{0}")]
    Stopped(Stop),
}

/// The restart has stopped. The site is given back.
#[derive(Drop)]
pub struct Unopened<S> {
    /// Why it has stopped.
    pub stop: Stop,
    /// What was to be opened.
    pub site: S,
}
