// Values of records, as they are told and as they are written.
ghost use Rattle.std.specs.Prelude.{◌≡◌, ◌<◌, ◌↔◌, length, IsTrue, Some};
ghost use Rattle.byte_fields.specs.declared.TheConstants.{VALUE_MAX};
ghost use Rattle.record_model.specs.Step.{found};

use byte_fields::VALUE_MAX;
use record_model::{Octets, Reply};

/// The reply that tells what a record has.
pub fn found(content: Option<Octets>) -> Reply
    ensures { result ≡ found content }
{
    match content {
        None => Reply::Nothing,
        Some(value) => Reply::Value(value),
    }
}

/// Whether a value has more octets than a record may have.
pub fn is_long(value: &Octets) -> bool
    ensures { IsTrue result ↔ (VALUE_MAX < length value.now) }
{
    value.as_slice().len() > VALUE_MAX
}

/// What a record has once a value that isn't too long is written there.
pub fn value_of(value: &Octets) -> Option<Octets>
    ensures { result ≡ Some value.now }
{
    match Octets::from_slice(value.as_slice()) {
        Some(copy) => Some(copy),
        None => unreachable!(),
    }
}
