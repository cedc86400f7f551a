// Names.
ghost use Rattle.std.specs.Prelude.{◌≡◌, ◌↔◌, IsSome, IfSome};
ghost use Rattle.name_table.specs.Probing.{IsName};

use name_table::NAME_MAX;
use record_model::Octets;
use std::marker::Model;

/// A name, of 1 to 32 octets.
#[derive(Debug, Drop)]
pub struct Name {
    octets: Octets,
}

impl Model for Name {
    ghost use Rattle.std.specs.Prelude.{List, ℕ};
    ghost use Rattle.name_table.specs.Probing.{IsName};

    ghost Value = { List ℕ };

    ghost view = { λ n. n.octets };

    ghost invariant = { λ n. IsName n.octets };
}

impl Name {
    /// The name of these octets, or none where they are none or more than 32.
    pub fn new(octets: &[u8]) -> Option<Name>
        ensures some { IsSome result ↔ IsName octets.now }
        ensures name { IfSome result (λ name. name ≡ octets.now) }
    {
        if octets.is_empty() || octets.len() > NAME_MAX {
            return None;
        }
        match Octets::from_slice(octets) {
            Some(octets) => Some(Name { octets }),
            None => unreachable!(),
        }
    }

    /// The octets.
    pub fn as_slice(&self) -> &[u8]
        ensures octets { result.now ≡ self.now }
        ensures is_name { IsName self.now }
    {
        self.octets.as_slice()
    }
}
