// Laws of the format and of logs, for the proofs of code above. They do nothing when called.
ghost use Rattle.log_records.specs.Laws.{OneForm, WrittenIsSpelled, OneSpelled};

/// No record's spelling begins another one's, whatever follows it.
pub fn one_form()
    ensures { OneForm }
{}

/// So a record that was written is read again, and no other one in its place.
pub fn read_again()
    ensures spelled { WrittenIsSpelled }
    ensures only { OneSpelled }
{}
