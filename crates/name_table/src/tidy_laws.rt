// Facts about tidies. The functions do nothing: each states its law as a clause.
ghost use Rattle.name_table.specs.Tidies.{TidiesAreTold, TidiesKeepNames, FindsStay};
ghost use Rattle.name_table.specs.TidyRows.{EndOfARun, MovingBack, AroundTheEnd, AtHome, FullTable, NothingToDo};
ghost use Rattle.name_table.specs.TidyRows.{StrangeBuckets};

/// Over any table a tidy comes to the first tombstone, of 64 buckets at most, and frees it, or moves into it the first
/// entry behind it, before the next free bucket, whose way from home leads over it. It reads at most 63 values more
/// than there are buckets.
pub fn tidies_are_told()
    ensures { TidiesAreTold }
{}

/// Over a well-formed table a tidy, with the change made that it asks for, leaves a well-formed table with the same
/// names, and one tombstone fewer where it freed one.
pub fn tidies_keep_names()
    ensures { TidiesKeepNames }
{}

/// Over any table each find answers behind a tidy what it answered before.
pub fn finds_stay()
    ensures { FindsStay }
{}

/// Tidies that were worked out by hand.
pub fn rows_of_tidies()
    ensures end_of_a_run { EndOfARun }
    ensures moving_back { MovingBack }
    ensures around_the_end { AroundTheEnd }
    ensures at_home { AtHome }
    ensures full_table { FullTable }
    ensures nothing_to_do { NothingToDo }
    ensures strange_buckets { StrangeBuckets }
{}
