ghost use Rattle.std.specs.Prelude.{◌≡◌, ◌<◌, ◌≤◌, ◌↔◌, IsTrue, None, length, replicate, slice_set, slice_index_or};
ghost use Rattle.std.specs.Prelude.{option_copied};
ghost use Rattle.slotted_page.specs.Layout.{lsn_of, slots_of, content_length, IsSound, FitsPage};
ghost use Rattle.slotted_page.specs.Laws.{IsBlank};

use crate::heap::blank;
use crate::soundness::is_sound;
use crate::{PAGE_LEN, directory, heap, room};
use byte_fields::VALUE_MAX;
use std::marker::Model;

/// A page: 4,096 octets, of any form until it is known to be sound. It never allocates, and contracts see its octets.
#[derive(Clone, Debug, Drop, PartialEq, Eq)]
pub struct Page {
    octets: [u8; PAGE_LEN],
}

impl Model for Page {
    ghost use Rattle.std.specs.Prelude.{◌≡◌, List, ℕ, length};

    ghost Value = { List ℕ };

    ghost view = { λ p. p.octets };

    ghost invariant = { λ p. length p.octets ≡ 4096 };

    ghost inverse = { λ xs. record { octets = xs } };
}

impl Page {
    /// A page of zeros: no slot has a value, and the LSN is 0.
    pub fn empty() -> Page
        ensures zeros { result ≡ replicate 4096 0 }
        ensures blank { IsBlank result }
    {
        Page { octets: blank() }
    }

    /// The page that consists of these octets, of which there are 4,096.
    pub fn from_bytes(bytes: &[u8]) -> Page
        requires { length bytes.now ≡ 4096 }
        ensures { result ≡ bytes.now }
    {
        let mut octets = [0; PAGE_LEN];
        octets.copy_from_slice(bytes);
        Page { octets }
    }

    /// The octets of the page.
    pub fn bytes(&self) -> &[u8]
        ensures octets { result.now ≡ self.now }
        ensures size { length result.now ≡ 4096 }
    {
        &self.octets
    }

    /// Whether the page is sound: the octets 10 to 15 are zero, the heap takes up no more octets than there are, an
    /// empty slot's entry is zero, and each value lies in the heap, has at most 200 octets, and overlaps with no other.
    pub fn sound(&self) -> bool
        ensures { IsTrue result ↔ IsSound self.now }
    {
        is_sound(&self.octets)
    }

    /// The LSN of the last change.
    pub fn lsn(&self) -> u64
        ensures { result ≡ lsn_of self.now }
    {
        directory::lsn_of(&self.octets)
    }

    /// What a slot, below 32, of a sound page has.
    pub fn get(&self, slot: u8) -> Option<&[u8]>
        requires sound { IsSound self.now }
        requires slot { slot < 32 }
        ensures content { option_copied result ≡ slice_index_or (slots_of self.now) slot None }
        ensures short { content_length (option_copied result) ≤ VALUE_MAX }
    {
        directory::content_of(&self.octets, slot)
    }

    /// Whether a content has room in a slot, below 32, of a sound page: the lengths of the other slots' values and of
    /// this one are together at most 3,952.
    pub fn fits(&self, slot: u8, value: Option<&[u8]>) -> bool
        requires sound { IsSound self.now }
        requires slot { slot < 32 }
        ensures { IsTrue result ↔ FitsPage (slots_of self.now) slot (option_copied value.entry) }
    {
        room::fits(&self.octets, slot, value)
    }

    /// Gives a slot, below 32, of a sound page another content, and the page another LSN. A value has at most 200
    /// octets, and fits. All other slots stay, and the page stays sound.
    pub fn set(&mut self, slot: u8, value: Option<&[u8]>, lsn: u64)
        requires sound { IsSound self.old }
        requires slot { slot < 32 }
        requires short { content_length (option_copied value) ≤ VALUE_MAX }
        requires fits { FitsPage (slots_of self.old) slot (option_copied value) }
        ensures sound { IsSound self.new }
        ensures slots { slots_of self.new ≡ slice_set (slots_of self.old) slot (option_copied value.entry) }
        ensures lsn { lsn_of self.new ≡ lsn }
    {
        heap::set(&mut self.octets, slot, value, lsn);
    }
}
