// Facts about probes. The functions do nothing: each states its law as a clause.
ghost use Rattle.name_table.specs.Laws.{NamesAreAMap, BlankIsWellFormed, StrangeIsTold, FullIsTold, ReadsAreFew};
ghost use Rattle.name_table.specs.Laws.{MetIsTold, MissedIsTold};
ghost use Rattle.record_model.specs.declared.names.Job.TheVariants.{Find, Remove};

/// Over a well-formed table the names are a map: find answers what stands under the name; put and remove, with the
/// write made that they ask for, leave a well-formed table that differs under that name alone, in one record at most.
pub fn names_are_a_map()
    ensures { NamesAreAMap }
{}

/// A table without values is well formed.
pub fn blank_is_well_formed()
    ensures { BlankIsWellFormed }
{}

/// Find ends with Found exactly where the probing meets the name, with its value. Find and remove end with Nothing
/// exactly where it ends without the name and with no strange bucket.
pub fn meetings_are_told()
    ensures met { MetIsTold }
    ensures find { MissedIsTold Find }
    ensures remove { MissedIsTold Remove }
{}

/// Strange comes exactly where the value of a probed record isn't of the form, and carries the first such record.
pub fn strange_is_told()
    ensures { StrangeIsTold }
{}

/// NamesFull comes, for put alone, exactly where each bucket has the entry of another name, and carries their number.
pub fn full_is_told()
    ensures { FullIsTold }
{}

/// A probe is told at most as many values as there are buckets, and behind a write it answers Done.
pub fn reads_are_few()
    ensures { ReadsAreFew }
{}
