// The tidy, which keeps probes short where names come and go.
ghost use Rattle.std.specs.Prelude.{◌≡◌, ◌<◌, ◌≤◌, ◌^◌};
ghost use Rattle.name_table.specs.Tidying.{tidy_ask, tidy_begun, tidy_told, tidy_changed, after_looked, after_behind};
ghost use Rattle.name_table.specs.Tidying.{after_entry, asking, looked_on, met_tombstone, passed_behind, look_on};
ghost use Rattle.name_table.specs.Tidying.{read_on, up, way, leads_over, octets_in, AsksRead, AsksChange, IsTidying};
ghost use Rattle.name_table.specs.Tidying.{IsWalk};
ghost use Rattle.name_table.specs.declared.tidying.TidyAsk.TheVariants as asks;

use crate::buckets::{bucket_in, copied, home_of};
use crate::probe::no_octets;
use record_model::{Bucket, Octets};
use std::marker::Model;

// How many buckets it looks at for a tombstone.
const LOOKS: u32 = 64;

/// What a tidy asks for next.
#[derive(Debug, Drop, PartialEq, Eq)]
pub enum TidyAsk {
    /// The value of the record of this number.
    Read(u32),
    /// That this value, of the entry in the record `entry`, is written to the record `tombstone`, and then the empty
    /// value to `entry`.
    Move {
        entry: u32,
        tombstone: u32,
        octets: Octets,
    },
    /// That the record of this number is erased.
    Free(u32),
    /// Nothing: whether it changed something, and the bucket from which the next tidy looks.
    End {
        changed: bool,
        from: u32,
    },
}

// Among how many buckets, the place from which steps are counted, how many are behind, and whether that place has the
// tombstone that was met.
#[derive(Clone, Copy, Debug)]
struct Walk {
    buckets: u32,
    from: u32,
    steps: u32,
    behind: bool,
}

/// One tidy of the names. It asks for the values of buckets and for at most one change, which takes two writes where an
/// entry moves: a tombstone on an entry's way can't be freed, so frees alone would leave probes long. No call of it
/// takes memory.
#[derive(Debug, Drop)]
pub struct Tidying {
    walk: Walk,
    next: TidyAsk,
}

impl Model for Tidying {
    ghost use Rattle.name_table.specs.Tidying as tidying;
    ghost use Rattle.name_table.specs.Tidying.{IsTidying};

    ghost Value = { tidying.Tidying };

    ghost view = { λ t. record {
      buckets = t.walk.buckets;
      from = t.walk.from;
      steps = t.walk.steps;
      behind = t.walk.behind;
      next = t.next;
    } };

    ghost invariant = { λ t. IsTidying t.walk t.next };
}

// The bucket so many steps up from a place.
fn up_from(place: u32, steps: u32, buckets: u32) -> u32
    requires among { place < buckets }
    requires fewer { steps ≤ buckets }
    requires few { buckets ≤ 2 ^ 20 }
    ensures { result ≡ up place steps buckets }
{
    (place + steps) % buckets
}

// The steps from one place up to another.
fn way_to(from: u32, to: u32, buckets: u32) -> u32
    requires begins { from < buckets }
    requires ends { to < buckets }
    requires few { buckets ≤ 2 ^ 20 }
    ensures { result ≡ way from to buckets }
{
    (to + buckets - from) % buckets
}

// Whether the way from the name's home up to this place leads over the tombstone.
fn is_over(name: &Octets, walk: Walk, place: u32) -> bool
    requires is_walk { IsWalk walk }
    requires among { place < walk.buckets }
    ensures { result ≡ leads_over name.now walk.buckets walk.from place }
{
    let home = home_of(name.as_slice(), walk.buckets);
    way_to(home, walk.from, walk.buckets) < way_to(home, place, walk.buckets)
}

// What comes after so many steps, where it looks.
fn ask_looking(walk: Walk) -> TidyAsk
    requires is_walk { IsWalk walk }
    requires fewer { walk.steps ≤ walk.buckets }
    ensures { result ≡ look_on walk.buckets walk.from walk.steps }
{
    let place = up_from(walk.from, walk.steps, walk.buckets);
    if walk.steps < LOOKS.min(walk.buckets) {
        return TidyAsk::Read(walk.buckets + place);
    }
    TidyAsk::End {
        changed: false,
        from: place,
    }
}

// What comes after so many steps behind the tombstone.
fn ask_behind(walk: Walk) -> TidyAsk
    requires is_walk { IsWalk walk }
    ensures { result ≡ read_on walk.buckets walk.from walk.steps }
{
    if walk.steps < walk.buckets {
        return TidyAsk::Read(walk.buckets + up_from(walk.from, walk.steps, walk.buckets));
    }
    TidyAsk::Free(walk.buckets + walk.from)
}

// What is in a record that has a value.
fn octets_of(value: &Option<Octets>) -> Octets
    ensures { result ≡ octets_in value.now }
{
    match value {
        Some(octets) => copied(octets),
        None => no_octets(),
    }
}

// The end where nothing is changed behind a tombstone, and where something was.
fn ended(walk: Walk, changed: bool) -> TidyAsk
    requires { IsWalk walk }
    ensures { result ≡ asks.End changed (up walk.from 1 walk.buckets) }
{
    TidyAsk::End {
        changed,
        from: up_from(walk.from, 1, walk.buckets),
    }
}

impl Tidying {
    /// Begins one among so many buckets, at most 1,048,576, that looks from this one.
    pub fn begin(from: u32, buckets: u32) -> Tidying
        requires some { 1 ≤ buckets }
        requires few { buckets ≤ 2 ^ 20 }
        ensures { result ≡ tidy_begun from buckets }
    {
        let walk = Walk {
            buckets,
            from: from % buckets,
            steps: 0,
            behind: false,
        };
        let next = TidyAsk::Read(buckets + up_from(walk.from, 0, buckets));
        Tidying { walk, next }
    }

    /// What comes next.
    pub fn ask(&self) -> TidyAsk
        ensures { result ≡ tidy_ask self.now }
    {
        match &self.next {
            TidyAsk::Read(number) => TidyAsk::Read(*number),
            TidyAsk::Move {
                entry,
                tombstone,
                octets,
            } => TidyAsk::Move {
                entry: *entry,
                tombstone: *tombstone,
                octets: copied(octets),
            },
            TidyAsk::Free(number) => TidyAsk::Free(*number),
            TidyAsk::End { changed, from } => TidyAsk::End {
                changed: *changed,
                from: *from,
            },
        }
    }

    // It looks on behind a bucket that has no tombstone.
    fn looking_on(&self) -> Tidying
        requires { AsksRead (tidy_ask self.now) }
        ensures { result ≡ looked_on self.now }
    {
        let mut walk = self.walk;
        walk.steps += 1;
        let next = ask_looking(walk);
        Tidying { walk, next }
    }

    // It reads on behind a bucket that stays as it is.
    fn passing(&self) -> Tidying
        requires { AsksRead (tidy_ask self.now) }
        ensures { result ≡ passed_behind self.now }
    {
        let mut walk = self.walk;
        walk.steps += 1;
        let next = ask_behind(walk);
        Tidying { walk, next }
    }

    // It has met a tombstone.
    fn meeting(&self) -> Tidying
        requires { AsksRead (tidy_ask self.now) }
        ensures { result ≡ met_tombstone self.now }
    {
        let walk = Walk {
            buckets: self.walk.buckets,
            from: up_from(self.walk.from, self.walk.steps, self.walk.buckets),
            steps: 1,
            behind: true,
        };
        let next = ask_behind(walk);
        Tidying { walk, next }
    }

    // It asks for this.
    fn asking(&self, next: TidyAsk) -> Tidying
        requires { AsksRead next → ⊥ }
        ensures { result ≡ asking self.now next }
    {
        Tidying {
            walk: self.walk,
            next,
        }
    }

    // What a bucket leaves where it looks.
    fn after_looked(&self, bucket: &Bucket) -> Tidying
        requires { AsksRead (tidy_ask self.now) }
        ensures { result ≡ after_looked self.now bucket.now }
    {
        match bucket {
            Bucket::Tombstone => self.meeting(),
            _ => self.looking_on(),
        }
    }

    // What an entry behind the tombstone leaves, with the octets of its record.
    fn after_entry(&self, octets: Octets, name: &Octets) -> Tidying
        requires { AsksRead (tidy_ask self.now) }
        ensures { result ≡ after_entry self.now octets name.now }
    {
        let walk = self.walk;
        let place = up_from(walk.from, walk.steps, walk.buckets);
        if is_over(name, walk, place) {
            return self.asking(TidyAsk::Move {
                entry: walk.buckets + place,
                tombstone: walk.buckets + walk.from,
                octets,
            });
        }
        self.passing()
    }

    // What a bucket behind the tombstone leaves, with the octets of its record.
    fn after_behind(&self, octets: Octets, bucket: &Bucket) -> Tidying
        requires { AsksRead (tidy_ask self.now) }
        ensures { result ≡ after_behind self.now octets bucket.now }
    {
        match bucket {
            Bucket::Free => self.asking(TidyAsk::Free(self.walk.buckets + self.walk.from)),
            Bucket::Tombstone => self.passing(),
            Bucket::Entry { name, .. } => self.after_entry(octets, name),
            Bucket::Strange => self.asking(ended(self.walk, false)),
        }
    }

    // What the value of the record leaves that was asked for.
    fn after(&self, value: Option<Octets>) -> Tidying
        requires { AsksRead (tidy_ask self.now) }
        ensures { result ≡ tidy_told self.now value }
    {
        let octets = octets_of(&value);
        let bucket = bucket_in(value);
        if self.walk.behind {
            return self.after_behind(octets, &bucket);
        }
        self.after_looked(&bucket)
    }

    /// Takes the value of the record that was asked for.
    pub fn told(&mut self, value: Option<Octets>)
        requires { AsksRead (tidy_ask self.old) }
        ensures { self.new ≡ tidy_told self.old value }
    {
        *self = self.after(value);
    }

    /// Takes that the change was made that was asked for.
    pub fn changed(&mut self)
        requires { AsksChange (tidy_ask self.old) }
        ensures { self.new ≡ tidy_changed self.old }
    {
        self.next = ended(self.walk, true);
    }
}
