ghost use Rattle.std.specs.Prelude.{◌≡◌, ◌↔◌, ◌<◌, ◌≤◌, length, IsNone, IfSome};

use arrayvec::ArrayVec;
use std::marker::Model;

/// What a record may have: at most 256 octets. A value that is longer than the database takes is still one, so that its
/// refusal can be told from a line that is no command.
#[derive(Clone, Debug, Drop, PartialEq, Eq)]
pub struct Octets {
    octets: ArrayVec<u8, 256>,
}

impl Model for Octets {
    ghost use Rattle.std.specs.Prelude.{List, ℕ};

    ghost Value = { List ℕ };

    ghost view = { λ o. o.octets.items };

    ghost inverse = { λ xs. record { octets = record { items = xs } } };
}

impl Octets {
    /// A copy of the octets, or none where there are more than 256.
    pub fn from_slice(octets: &[u8]) -> Option<Octets>
        ensures none { IsNone result ↔ (256 < length octets.now) }
        ensures value { IfSome result (λ o. o ≡ octets.now) }
    {
        let mut kept: ArrayVec<u8, 256> = ArrayVec::new();
        match kept.try_extend_from_slice(octets) {
            Ok(()) => Some(Octets { octets: kept }),
            Err(_) => None,
        }
    }

    /// The octets.
    pub fn as_slice(&self) -> &[u8]
        ensures value { result.now ≡ self.now }
        ensures fits { length result.now ≤ 256 }
    {
        self.octets.as_slice()
    }
}
