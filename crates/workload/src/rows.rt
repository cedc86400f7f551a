// Numbers and scripts that were worked out by hand. The functions do nothing: each states rows as clauses.
ghost use Rattle.workload.specs.Rows.{FirstOfOne, ThreeLives, OneLife, EndsWithoutNewline, NoStops, AtMost31};

/// The first number behind 1, and the set that it makes.
pub fn rows_of_generated_numbers()
    ensures { FirstOfOne }
{}

/// Scripts with two stop lines, with none, with one at the end, and with one more than end a life; lines that end none.
pub fn rows_of_scripts()
    ensures three_lives { ThreeLives }
    ensures one_life { OneLife }
    ensures without_newline { EndsWithoutNewline }
    ensures no_stops { NoStops }
    ensures at_most_31 { AtMost31 }
{}
