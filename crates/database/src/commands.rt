// The commands.
ghost use Rattle.record_model.specs.declared.words.Command.{Command};
ghost use Rattle.database.specs.Serving.{Serves};

use crate::database::{Database, settle};
use crate::unanswered::Unanswered;
use record_model::{Octets, Reply};
use site::Site;

impl<S: Site + Drop> Database<S> {
    /// A session begins.
    pub fn begin(&mut self, session: u32) -> Result<Reply, Unanswered>
        ensures serves { Serves (Command.Begin session) result self.old self.new }
    {
        if self.closed {
            return Err(Unanswered::Closed);
        }
        let answer = self.engine.begin(&mut self.site, session);
        settle(&mut self.closed, answer)
    }

    /// What a session sees at a record.
    pub fn read(&mut self, session: u32, number: u32) -> Result<Reply, Unanswered>
        ensures serves { Serves (Command.Read session number) result self.old self.new }
    {
        if self.closed {
            return Err(Unanswered::Closed);
        }
        let answer = self.engine.read(&mut self.site, session, number);
        settle(&mut self.closed, answer)
    }

    /// A session writes a value. Nobody else sees it before the session commits.
    pub fn write(&mut self, session: u32, number: u32, value: &Octets) -> Result<Reply, Unanswered>
        ensures serves { Serves (Command.Write session number value.now) result self.old self.new }
    {
        if self.closed {
            return Err(Unanswered::Closed);
        }
        let answer = self.engine.write(&mut self.site, session, number, value);
        settle(&mut self.closed, answer)
    }

    /// A session takes the value of a record away. Nobody else sees it before the session commits.
    pub fn erase(&mut self, session: u32, number: u32) -> Result<Reply, Unanswered>
        ensures serves { Serves (Command.Erase session number) result self.old self.new }
    {
        if self.closed {
            return Err(Unanswered::Closed);
        }
        let answer = self.engine.erase(&mut self.site, session, number);
        settle(&mut self.closed, answer)
    }

    /// What a session sees at so many records from a number on: those of them that have a value.
    pub fn scan(&mut self, session: u32, number: u32, count: u32) -> Result<Reply, Unanswered>
        ensures serves { Serves (Command.Scan session number count) result self.old self.new }
    {
        if self.closed {
            return Err(Unanswered::Closed);
        }
        let answer = self.engine.scan(&mut self.site, session, number, count);
        settle(&mut self.closed, answer)
    }

    /// A session's writes enter the table, and it ends. When it has answered `Committed`, they are stable.
    pub fn commit(&mut self, session: u32) -> Result<Reply, Unanswered>
        ensures serves { Serves (Command.Commit session) result self.old self.new }
    {
        if self.closed {
            return Err(Unanswered::Closed);
        }
        let answer = self.engine.commit(&mut self.site, session);
        settle(&mut self.closed, answer)
    }

    /// A session's writes are dropped, and it ends.
    pub fn abort(&mut self, session: u32) -> Result<Reply, Unanswered>
        ensures serves { Serves (Command.Abort session) result self.old self.new }
    {
        if self.closed {
            return Err(Unanswered::Closed);
        }
        let answer = self.engine.abort(&mut self.site, session);
        settle(&mut self.closed, answer)
    }

    /// A session's mark is set behind its writes that stand: `back` goes back to it.
    pub fn mark(&mut self, session: u32) -> Result<Reply, Unanswered>
        ensures serves { Serves (Command.Mark session) result self.old self.new }
    {
        if self.closed {
            return Err(Unanswered::Closed);
        }
        Ok(self.engine.mark(session))
    }

    /// A session's writes are dropped, the last one first, but for those in front of its mark, or but for the first
    /// `standing` ones. The session goes on, and keeps all its locks.
    pub fn back(&mut self, session: u32, standing: Option<u32>) -> Result<Reply, Unanswered>
        ensures serves { Serves (Command.Back session standing) result self.old self.new }
    {
        if self.closed {
            return Err(Unanswered::Closed);
        }
        let answer = self.engine.back(&mut self.site, session, standing);
        settle(&mut self.closed, answer)
    }

    /// What a record has in the table.
    pub fn get(&mut self, number: u32) -> Result<Reply, Unanswered>
        ensures serves { Serves (Command.Get number) result self.old self.new }
    {
        if self.closed {
            return Err(Unanswered::Closed);
        }
        let answer = self.engine.get(&mut self.site, number);
        settle(&mut self.closed, answer)
    }

    /// Sets a record, outside sessions. When it has answered `Committed`, the value is stable.
    pub fn set(&mut self, number: u32, value: &Octets) -> Result<Reply, Unanswered>
        ensures serves { Serves (Command.Set number value.now) result self.old self.new }
    {
        if self.closed {
            return Err(Unanswered::Closed);
        }
        let answer = self.engine.set(&mut self.site, number, value);
        settle(&mut self.closed, answer)
    }

    /// Makes a checkpoint: the log is freed of what no active session needs.
    pub fn checkpoint(&mut self) -> Result<Reply, Unanswered>
        ensures serves { Serves Command.Checkpoint result self.old self.new }
    {
        if self.closed {
            return Err(Unanswered::Closed);
        }
        let answer = self.engine.checkpoint(&mut self.site);
        settle(&mut self.closed, answer)
    }

    /// The listing of the page cache: the frames of its queue on flash, the oldest group first, and then the pages in
    /// memory.
    pub fn cache(&mut self) -> Result<Reply, Unanswered>
        ensures serves { Serves Command.Cache result self.old self.new }
    {
        if self.closed {
            return Err(Unanswered::Closed);
        }
        let answer = self.engine.cache();
        settle(&mut self.closed, answer)
    }

    /// The counts of the database.
    pub fn stat(&self) -> Result<Reply, Unanswered>
        ensures serves { Serves Command.Stat result self.now self.now }
    {
        if self.closed {
            Err(Unanswered::Closed)
        } else {
            Ok(self.engine.stat())
        }
    }
}
