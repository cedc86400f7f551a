// Laws of heads, for the proofs of code above. They do nothing when called.
ghost use Rattle.byte_fields.specs.Laws.{HaveForm, PresentAreFirst};

/// The heads of a group can be written, and those that are present are the first.
pub fn group_heads()
    ensures form { HaveForm }
    ensures first { PresentAreFirst }
{}
