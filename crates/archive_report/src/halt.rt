// Why an archive isn't told, or not all of it.
ghost use Rattle.std.specs.Prelude.{◌≡◌};
ghost use Rattle.archive_report.specs.Halts.{halt_line, halt_status};

/// Why what is asked for isn't told, or not all of it.
#[derive(Clone, Copy, Debug, PartialEq, Eq, Drop)]
pub enum Halt {
    /// A call on the log's device failed.
    Log,
    /// Telling failed.
    Output,
    /// The devices have no sizes, or the log has no ring of blocks.
    Foreign,
}

impl Halt {
    /// The line that is told; none where telling failed.
    pub fn line(self) -> &'static [u8]
        ensures { result.now ≡ halt_line self }
    {
        match self {
            Halt::Log => b"fault log\n",
            Halt::Output => b"",
            Halt::Foreign => b"fault foreign\n",
        }
    }

    /// The status that the program ends with.
    pub fn status(self) -> u8
        ensures { result ≡ halt_status self }
    {
        match self {
            Halt::Log => 3,
            Halt::Output => 6,
            Halt::Foreign => 9,
        }
    }
}
