// Values that take the room of their octets alone.
ghost use Rattle.std.specs.Prelude.{◌≡◌, IfOk};
ghost use Rattle.log_archive.specs.Accepted.{same_content};

use record_model::Octets;
use std::alloc::{AllocError, Global};
use std::marker::Model;

/// A value in its length.
#[derive(Drop)]
pub struct Kept {
    octets: Vec<u8>,
}

impl Model for Kept {
    ghost use Rattle.std.specs.Prelude.{List, ℕ};

    ghost Value = { List ℕ };

    ghost view = { λ k. k.octets.items };
}

impl Kept {
    // A copy of these octets.
    fn of(alloc: Global, octets: &[u8]) -> Result<Kept, AllocError>
        ensures { IfOk result (λ kept. kept ≡ octets.now) }
    {
        let mut kept = Vec::with_capacity(alloc, octets.len())?;
        kept.extend_from_slice(octets)?;
        Ok(Kept { octets: kept })
    }

    /// The octets.
    pub fn as_slice(&self) -> &[u8]
        ensures { result.now ≡ self.now }
    {
        self.octets.as_slice()
    }
}

/// A copy of what a record has.
pub fn copy_of(alloc: Global, content: &Option<Octets>) -> Result<Option<Kept>, AllocError>
    ensures { IfOk result (λ kept. kept ≡ content.now) }
{
    match content {
        Some(octets) => {
            let kept = Kept::of(alloc, octets.as_slice())?;
            Ok(Some(kept))
        }
        None => Ok(None),
    }
}

/// Whether what a record has is what was kept.
pub fn is_same(content: &Option<Octets>, kept: &Option<Kept>) -> bool
    ensures { result ≡ same_content content.now kept.now }
{
    match (content, kept) {
        (Some(octets), Some(kept)) => octets.as_slice() == kept.as_slice(),
        (None, None) => true,
        _ => false,
    }
}
