// Runs that were worked out by hand, whose texts are as they should be. The functions do nothing: each states rows as
// clauses.
ghost use Rattle.shell_text.specs.Rows.{LongestValue, WrongLines, LongestLine, UpperCaseIsRead, ScanAmongWrites};
ghost use Rattle.shell_text.specs.Rows.{CacheListed, LastLine, QuitEnds, ThreeSessions, LastAlone, GoingBack};

/// Values that are as long as can be, too long, empty, and absent; and hexadecimal digits of both cases.
pub fn rows_of_values()
    ensures longest_value { LongestValue }
    ensures upper_case { UpperCaseIsRead }
{}

/// Lines that are no commands, the longest line, the last line, and the end by `quit`.
pub fn rows_of_lines()
    ensures wrong_lines { WrongLines }
    ensures longest_line { LongestLine }
    ensures last_line { LastLine }
    ensures quit_ends { QuitEnds }
{}

/// Replies of several lines.
pub fn rows_of_lists()
    ensures scan_among_writes { ScanAmongWrites }
    ensures cache_listed { CacheListed }
{}

/// Three sessions that are typed in turns, and one of them alone; and one that goes back.
pub fn rows_of_sessions()
    ensures three_sessions { ThreeSessions }
    ensures last_alone { LastAlone }
    ensures going_back { GoingBack }
{}
