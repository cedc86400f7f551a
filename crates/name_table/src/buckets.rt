// What the value of a bucket's record says, and where a name's bucket is.
ghost use Rattle.std.specs.Prelude.{◌≡◌, ◌<◌, ◌≤◌, ◌∷◌, length, Some};
ghost use Rattle.record_model.specs.Names.{bucket_of, entry, home};

use arrayvec::ArrayVec;
use record_model::{Bucket, Octets, next};

/// The longest name, in octets.
pub const NAME_MAX: usize = 32;

/// The longest value of a name, in octets.
pub const VALUE_MAX: usize = 100;

/// A copy.
pub fn copied(octets: &Octets) -> Octets
    ensures { result ≡ octets.now }
{
    match Octets::from_slice(octets.as_slice()) {
        Some(octets) => octets,
        None => unreachable!(),
    }
}

/// What a bucket is by what its record has.
pub fn bucket_in(value: Option<Octets>) -> Bucket
    ensures { result ≡ bucket_of value }
{
    match value {
        None => Bucket::Free,
        Some(octets) => read_bucket(octets.as_slice()),
    }
}

fn read_bucket(octets: &[u8]) -> Bucket
    ensures { result ≡ bucket_of (Some octets.now) }
{
    let Some((size, octets)) = octets.split_first() else {
        return Bucket::Tombstone;
    };
    read_entry(usize::from(*size), octets)
}

fn read_entry(size: usize, octets: &[u8]) -> Bucket
    ensures { result ≡ bucket_of (Some (size ∷ octets.now)) }
{
    if size < 1 || size > NAME_MAX || octets.len() < size || octets.len() > size + VALUE_MAX {
        return Bucket::Strange;
    }
    let (name, value) = octets.split_at(size);
    let (Some(name), Some(value)) = (Octets::from_slice(name), Octets::from_slice(value)) else {
        unreachable!();
    };
    Bucket::Entry { name, value }
}

/// The octets of an entry.
pub fn entry_of(name: &Octets, value: &Octets) -> Octets
    requires name { length name.now ≤ 32 }
    requires value { length value.now ≤ 100 }
    ensures { result ≡ entry name.now value.now }
{
    let size = name.as_slice().len();
    let mut octets: ArrayVec<u8, 256> = ArrayVec::new();
    octets.push(size as u8);
    let Ok(()) = octets.try_extend_from_slice(name.as_slice()) else {
        unreachable!();
    };
    let Ok(()) = octets.try_extend_from_slice(value.as_slice()) else {
        unreachable!();
    };
    match Octets::from_slice(octets.as_slice()) {
        Some(octets) => octets,
        None => unreachable!(),
    }
}

/// The bucket, of so many, where the probing for a name begins.
pub fn home_of(name: &[u8], buckets: u32) -> u32
    requires { 0 < buckets }
    ensures { result ≡ home name.now buckets }
{
    let mut x = 0;
    for octet in name {
        x = next(x ^ u64::from(*octet));
    }
    ((x >> 33) % u64::from(buckets)) as u32
}
