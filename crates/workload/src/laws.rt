// Facts about scripts. The functions do nothing: each states its laws as clauses.
ghost use Rattle.workload.specs.Laws.{StopLinesAreRead, ScriptsAreCut};

/// A line is read as a stop line exactly where it is `stop K SEED` with two numbers, each written in decimal with at
/// most nine digits.
pub fn stop_lines_are_read()
    ensures { StopLinesAreRead }
{}

/// The lines of a script are those of its lives, one after the other, each life but the last with its stop line behind
/// it. No line of a life is a stop line, but for the last life behind 31 of them.
pub fn scripts_are_cut()
    ensures { ScriptsAreCut }
{}
