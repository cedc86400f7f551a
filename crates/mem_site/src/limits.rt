// Which changes a site in memory lets pass.
ghost use Rattle.std.specs.Prelude.{◌≡◌, ◌≢◌, ◌⊎◌, ◌≤◌, ◌<◌, ◌+◌, ◌-◌, ◌^◌, ◌↔◌, min, true, false};

const MOST_CHANGES: u64 = 10_000;

/// Whether a change passes.
#[derive(Clone, Copy, Debug, PartialEq, Eq, Drop)]
pub enum Gate {
    Open,
    /// The fuse has blown, or the call is named to fail.
    Blown,
    /// It is one change too many.
    Over,
}

/// How many changes were asked for, and what stops the next.
#[derive(Drop)]
pub struct Limits {
    pub changes: u64,
    /// The last change that the fuse lets pass.
    pub last: Option<u64>,
    pub lacked: bool,
    /// A blown fuse was renewed, or a call was named.
    pub excused: bool,
}

impl Limits {
    ghost use Rattle.mem_site.specs.Limits.{is_past, is_barred, is_spent, gate_at};

    pub fn new() -> Limits
        ensures changes { result.changes ≡ 0 }
        ensures last { result.last ≡ None }
        ensures lacked { result.lacked ≡ false }
        ensures excused { result.excused ≡ false }
    {
        Limits {
            changes: 0,
            last: None,
            lacked: false,
            excused: false,
        }
    }

    pub fn is_blown(&self) -> bool
        ensures blown { result ≡ is_past self.now.last self.now.changes }
        ensures barred { result ≡ true → is_barred self.now.changes self.now.last ≡ true }
    {
        match self.last {
            Some(last) => last < self.changes,
            None => false,
        }
    }

    /// Lets this many changes more pass.
    pub fn fuse(&mut self, k: u64)
        ensures last { self.new.last ≡ Some (min (self.old.changes + k) (2 ^ 64 - 1)) }
        ensures changes { self.new.changes ≡ self.old.changes }
        ensures lacked { self.new.lacked ≡ self.old.lacked }
        ensures named { self.old.excused ≡ true → self.new.excused ≡ true }
        ensures fresh { is_past self.old.last self.old.changes ≡ false → self.new.excused ≡ self.old.excused }
        ensures spent { is_spent self.old ≡ true → is_spent self.new ≡ true }
    {
        if self.is_blown() {
            self.excused = true;
        }
        self.last = Some(self.changes.saturating_add(k));
    }

    /// Counts one change more.
    pub fn ask(&mut self, named: bool) -> Gate
        ensures counted { self.new.changes ≡ min (self.old.changes + 1) (2 ^ 64 - 1) }
        ensures last { self.new.last ≡ self.old.last }
        ensures lacked { self.new.lacked ≡ self.old.lacked }
        ensures excused { self.new.excused ≡ self.old.excused }
        ensures gate { result ≡ gate_at self.new named }
        ensures barred { named ≡ false → (result ≡ Gate.Open → ⊥) → is_barred self.new.changes self.new.last ≡ true }
        ensures closed { (result ≡ Gate.Open → ⊥) → (named ≡ true) ⊎ (is_barred self.new.changes self.new.last ≡ true) }
        ensures opened { result ≡ Gate.Open → is_barred self.new.changes self.new.last ≡ false }
        ensures passes { result ≡ Gate.Open → named ≡ false }
        ensures over { 10000 < self.new.changes → result ≡ Gate.Over }
        ensures within { self.new.changes ≤ 10000 → result ≢ Gate.Over }
        ensures spent { is_barred self.old.changes self.old.last ≡ true
            → is_barred self.new.changes self.new.last ≡ true }
    {
        self.changes = self.changes.saturating_add(1);
        if self.changes > MOST_CHANGES {
            Gate::Over
        } else if named || self.is_blown() {
            Gate::Blown
        } else {
            Gate::Open
        }
    }
}
