// The lines that say that a block isn't there.
ghost use Rattle.std.specs.Prelude.{◌≡◌};
ghost use Rattle.archive_report.specs.Archives.{ahead_line, gone_line};

use shell_text::Line;

/// The line that names the oldest block that is there, where an older one is asked for.
pub fn gone(oldest: u64) -> Line
    ensures { result ≡ gone_line oldest }
{
    let mut line = Line::new();
    line.push(b"gone ");
    line.push_number(oldest);
    line.push(b"\n");
    line
}

/// The line that names the block that comes next, where one behind it is asked for.
pub fn ahead(next: u64) -> Line
    ensures { result ≡ ahead_line next }
{
    let mut line = Line::new();
    line.push(b"ahead ");
    line.push_number(next);
    line.push(b"\n");
    line
}
