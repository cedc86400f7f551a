// The probe.
ghost use Rattle.std.specs.Prelude.{◌≡◌, ◌<◌, ◌≤◌, ◌+◌, ◌%◌, ◌^◌, [], length, nat_lt, Some, None, if◌then◌else◌};
ghost use Rattle.std.specs.Option.{option_or};
ghost use Rattle.std.specs.Str.{bytes_eq};
ghost use Rattle.record_model.specs.declared.names.Job.TheVariants.{Find, Put, Remove};
ghost use Rattle.record_model.specs.Probes.{ask, begun, after_told, after_written, met, missed, record_at};
ghost use Rattle.name_table.specs.Probing.{IsWork, IsName, IsShort, IsRead, IsWrite, next_passed, next_behind};
ghost use Rattle.name_table.specs.Probing.{tombstone_behind};

use crate::buckets::{bucket_in, copied, entry_of, home_of};
use record_model::{Ask, Bucket, Job, NameAnswer, Octets};
use std::marker::Model;

// What a probe has to do, and how far it has come: its name's home, how many values it was told, and the record of the
// first tombstone among them.
#[derive(Debug, Drop)]
struct Work {
    job: Job,
    name: Octets,
    buckets: u32,
    home: u32,
    told: u32,
    tombstone: Option<u32>,
}

/// What is done with one name. It asks for the values of buckets and for at most one write, and no call of it takes
/// memory.
#[derive(Debug, Drop)]
pub struct Probe {
    work: Work,
    next: Ask,
}

impl Model for Probe {
    ghost use Rattle.record_model.specs.Probes as probes;
    ghost use Rattle.name_table.specs.Probing.{IsProbe};

    ghost Value = { probes.Probe };

    ghost view = { λ p. record {
      job = p.work.job;
      name = p.work.name;
      buckets = p.work.buckets;
      told = p.work.told;
      tombstone = p.work.tombstone;
      next = p.next;
    } };

    ghost invariant = { λ p. IsProbe p.work p.next };
}

// What was asked for, again.
fn asked(next: &Ask) -> Ask
    ensures { result ≡ next.now }
{
    match next {
        Ask::Read(number) => Ask::Read(*number),
        Ask::Write(number, value) => Ask::Write(*number, copied(value)),
        Ask::End(reached) => Ask::End(answered(reached)),
    }
}

fn answered(reached: &NameAnswer) -> NameAnswer
    ensures { result ≡ reached.now }
{
    match reached {
        NameAnswer::Found(value) => NameAnswer::Found(copied(value)),
        NameAnswer::Nothing => NameAnswer::Nothing,
        NameAnswer::Done => NameAnswer::Done,
        NameAnswer::Strange(number) => NameAnswer::Strange(*number),
        NameAnswer::NamesFull(buckets) => NameAnswer::NamesFull(*buckets),
    }
}

pub fn no_octets() -> Octets
    ensures { result ≡ [] }
{
    match Octets::from_slice(&[]) {
        Some(octets) => octets,
        None => unreachable!(),
    }
}

// The record of the bucket that is probed next.
fn record_next(work: &Work) -> u32
    requires work { IsWork work.now }
    requires left { work.now.told < work.now.buckets }
    ensures { result ≡ record_at work.now.name work.now.buckets work.now.told }
{
    work.buckets + (work.home + work.told) % work.buckets
}

// What comes where the name's entry is met, in this record and with this value.
fn when_met(work: &Work, number: u32, value: Octets) -> Ask
    requires { IsWork work.now }
    ensures { result ≡ met work.now.job work.now.name number value }
{
    match &work.job {
        Job::Find => Ask::End(NameAnswer::Found(value)),
        Job::Put(new) => Ask::Write(number, entry_of(&work.name, new)),
        Job::Remove => Ask::Write(number, no_octets()),
    }
}

// What comes where the probing ended without it, and this record, if there is one, can have a new entry.
fn when_missed(work: &Work, free: Option<u32>) -> Ask
    requires { IsWork work.now }
    ensures { result ≡ missed work.now.job work.now.name work.now.buckets free }
{
    let Job::Put(new) = &work.job else {
        return Ask::End(NameAnswer::Nothing);
    };
    match free {
        Some(number) => Ask::Write(number, entry_of(&work.name, new)),
        None => Ask::End(NameAnswer::NamesFull(work.buckets)),
    }
}

// What comes behind a bucket that the probing has passed.
fn when_passed(work: &Work) -> Ask
    requires { IsWork work.now }
    ensures { result ≡ next_passed work.now.job work.now.name work.now.buckets work.now.told work.now.tombstone }
{
    if work.told < work.buckets {
        return Ask::Read(record_next(work));
    }
    when_missed(work, work.tombstone)
}

// What comes behind an entry.
fn when_entry(work: &Work, number: u32, name: &Octets, value: Octets) -> Ask
    requires { IsWork work.now }
    ensures { result ≡ (if bytes_eq name.now work.now.name
        then met work.now.job work.now.name number value
        else next_passed work.now.job work.now.name work.now.buckets work.now.told work.now.tombstone) }
{
    if name.as_slice() == work.name.as_slice() {
        return when_met(work, number, value);
    }
    when_passed(work)
}

// What comes behind this bucket, which is in this record and counted as told.
fn when_told(work: &Work, number: u32, bucket: Bucket) -> Ask
    requires { IsWork work.now }
    ensures { result
        ≡ next_behind work.now.job work.now.name work.now.buckets work.now.told work.now.tombstone number bucket }
{
    match bucket {
        Bucket::Free => when_missed(work, work.tombstone.or(Some(number))),
        Bucket::Tombstone => when_passed(work),
        Bucket::Entry { name, value } => when_entry(work, number, &name, value),
        Bucket::Strange => Ask::End(NameAnswer::Strange(number)),
    }
}

// The first tombstone, behind this bucket.
fn first_tombstone(before: Option<u32>, number: u32, bucket: &Bucket) -> Option<u32>
    ensures { result ≡ tombstone_behind before number bucket.now }
{
    match bucket {
        Bucket::Tombstone => before.or(Some(number)),
        _ => before,
    }
}

impl Probe {
    fn begin(job: Job, name: &[u8], buckets: u32) -> Probe
        requires is_name { IsName name.now }
        requires is_short { IsShort job }
        requires some { 1 ≤ buckets }
        requires few { buckets ≤ 2 ^ 20 }
        ensures { result ≡ begun job name.now buckets }
    {
        let home = home_of(name, buckets);
        let Some(name) = Octets::from_slice(name) else {
            unreachable!();
        };
        let work = Work {
            job,
            name,
            buckets,
            home,
            told: 0,
            tombstone: None,
        };
        let next = Ask::Read(record_next(&work));
        Probe { work, next }
    }

    /// Looks up the value of a name of 1 to 32 octets among so many buckets, at most 1,048,576.
    pub fn find(name: &[u8], buckets: u32) -> Probe
        requires is_name { IsName name.now }
        requires some { 1 ≤ buckets }
        requires few { buckets ≤ 2 ^ 20 }
        ensures { result ≡ begun Find name.now buckets }
    {
        Probe::begin(Job::Find, name, buckets)
    }

    /// Gives a name a value of at most 100 octets.
    pub fn put(name: &[u8], value: &[u8], buckets: u32) -> Probe
        requires is_name { IsName name.now }
        requires is_short { length value.now ≤ 100 }
        requires some { 1 ≤ buckets }
        requires few { buckets ≤ 2 ^ 20 }
        ensures { result ≡ begun (Put value.now) name.now buckets }
    {
        let Some(value) = Octets::from_slice(value) else {
            unreachable!();
        };
        Probe::begin(Job::Put(value), name, buckets)
    }

    /// Takes a name out.
    pub fn remove(name: &[u8], buckets: u32) -> Probe
        requires is_name { IsName name.now }
        requires some { 1 ≤ buckets }
        requires few { buckets ≤ 2 ^ 20 }
        ensures { result ≡ begun Remove name.now buckets }
    {
        Probe::begin(Job::Remove, name, buckets)
    }

    /// What comes next.
    pub fn ask(&self) -> Ask
        ensures { result ≡ ask self.now }
    {
        asked(&self.next)
    }

    /// Takes the value of the record that was asked for.
    pub fn told(&mut self, value: Option<Octets>)
        requires { IsRead (ask self.old) }
        ensures { self.new ≡ after_told self.old value }
    {
        let number = record_next(&self.work);
        let bucket = bucket_in(value);
        self.work.told += 1;
        self.work.tombstone = first_tombstone(self.work.tombstone, number, &bucket);
        self.next = when_told(&self.work, number, bucket);
    }

    /// Takes that the write was made that was asked for.
    pub fn written(&mut self)
        requires { IsWrite (ask self.old) }
        ensures { self.new ≡ after_written self.old }
    {
        self.next = Ask::End(NameAnswer::Done);
    }
}
