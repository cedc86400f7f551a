// Begins, of which a log may be full: they are found by their octet, and not read as other records are.
ghost use Rattle.std.specs.Prelude.{◌+◌, ◌<◌, ◌≤◌, length, IsTrue};
ghost use Rattle.log_records.specs.declared.log_record.LogRecord.TheVariants.{Begin};
ghost use Rattle.log_records.specs.Spelling.{IsSpelledAt};

/// Whether the record that begins at a place, before a limit, is a Begin.
pub fn begins_at(content: &[u8], at: usize, end: usize) -> bool
    requires order { at < end }
    requires inside { end ≤ length content.now }
    ensures { IsTrue result → IsSpelledAt content.now at end Begin (at + 1) }
{
    content[at] == 1
}
