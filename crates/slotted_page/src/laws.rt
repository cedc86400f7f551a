// Laws of pages, for the proofs of code above. They do nothing when called.
ghost use Rattle.std.specs.Prelude.{ℕ, List};
ghost use Rattle.slotted_page.specs.Laws.{HasSlots, AreShort};

/// A page has 32 slots, and in a sound one no value is longer than values are.
pub fn slots_of_a_page()
    ensures slots { (octets : List ℕ) → HasSlots octets }
    ensures short { AreShort }
{}
