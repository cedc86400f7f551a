// Facts about lines. The functions do nothing: each states its laws as clauses.
ghost use Rattle.shell_text.specs.Laws.{LinesAreRead, LinesAreOneCommand, EndsAtNewline, WaitsForNewline};
ghost use Rattle.shell_text.specs.Laws.{EndsWithInput, WholeLinesStay};
ghost use Rattle.shell_text.specs.Serial.{SerialIsTold};

/// What a line says is a command exactly where the grammar has the line as that command.
pub fn lines_are_read()
    ensures { LinesAreRead }
{}

/// No line is two commands.
pub fn lines_are_one_command()
    ensures { LinesAreOneCommand }
{}

/// The input is cut at its newlines; octets behind the last one are a line where the input has ended and there are any.
pub fn lines_are_cut()
    ensures at_newline { EndsAtNewline }
    ensures waits { WaitsForNewline }
    ensures at_end { EndsWithInput }
    ensures whole_stay { WholeLinesStay }
{}

/// What a run tells is in serial order: the texts of each transaction that commits are those that its lines alone are
/// told, on the table of the commits before its own and with room enough in the log and in pages, whatever the
/// interleaving of the sessions.
/// Which lines these are can be read from the texts. The same holds, at each moment, of what an active session was
/// told.
pub fn serial_is_told()
    ensures { SerialIsTold }
{}
