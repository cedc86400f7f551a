use crate::value::Octets;

/// What a bucket of the names is by what its record has.
#[derive(Debug, Drop)]
pub enum Bucket {
    /// The record has no value.
    Free,
    /// The place of an entry that was taken out: an empty value.
    Tombstone,
    /// A name with its value.
    Entry { name: Octets, value: Octets },
    /// Octets that aren't of the form of an entry.
    Strange,
}

/// What is to be done with a name.
#[derive(Debug, Drop)]
pub enum Job {
    /// Its value is looked up.
    Find,
    /// It gets this value.
    Put(Octets),
    /// It is taken out.
    Remove,
}

/// What a probe asks for next.
#[derive(Debug, Drop, PartialEq, Eq)]
pub enum Ask {
    /// The value of the record of this number.
    Read(u32),
    /// That this value is written to the record of this number.
    Write(u32, Octets),
    /// Nothing: this is its answer.
    End(NameAnswer),
}

/// How the work on a name ended.
#[derive(Debug, Drop, PartialEq, Eq)]
pub enum NameAnswer {
    /// The name has this value.
    Found(Octets),
    /// The name isn't there.
    Nothing,
    /// The write was made.
    Done,
    /// The record of this number was met, whose value isn't of the form of a bucket.
    Strange(u32),
    /// Each of so many buckets has an entry of another name.
    NamesFull(u32),
}
