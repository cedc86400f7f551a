// The pool is told which of its pages have a frame in the queue.
ghost use Rattle.std.specs.Prelude.{◌≡◌, ◌==◌};
ghost use Rattle.page_store.specs.Telling.{is_marked, is_named, TellsOf};

use crate::store::PageStore;
use byte_fields::Mark;

impl PageStore {
    // Of one page.
    fn update_framed(&mut self, page: u32)
        ensures kept { self.new ≡ record self.old {
          pool = record self.old.pool { framed = self.new.pool.framed };
        } }
        ensures told { TellsOf (λ n. n == page) self.old self.new }
    {
        let framed = self.flash.holds(page);
        self.pool.set_framed(page, framed);
    }

    /// Tells it of the pages of these marks.
    pub(crate) fn update_framed_marks(&mut self, marks: &[Mark])
        ensures kept { self.new ≡ record self.old {
          pool = record self.old.pool { framed = self.new.pool.framed };
        } }
        ensures told { TellsOf (is_marked marks.now) self.old self.new }
    {
        for mark in marks {
            self.update_framed(mark.page);
        }
    }

    /// Tells it of these pages.
    pub(crate) fn update_framed_pages(&mut self, pages: &[u32])
        ensures kept { self.new ≡ record self.old {
          pool = record self.old.pool { framed = self.new.pool.framed };
        } }
        ensures told { TellsOf (is_named pages.now) self.old self.new }
    {
        for page in pages {
            self.update_framed(*page);
        }
    }
}
