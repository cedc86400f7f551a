// Why no count is told, and what is told.
ghost use Rattle.std.specs.Prelude.{◌≡◌};
ghost use Rattle.stream_lines.specs.declared.source.Fault.{Fault};
ghost use Rattle.stream_report.specs.Contract.{halt_line, halt_status, halt_of};
ghost use Rattle.stream_report.specs.Streams.{verified_line};

use shell_text::Line;
use stream_lines::Fault;

/// Why no count of commits is told.
#[derive(Clone, Copy, Debug, PartialEq, Eq, Drop)]
pub enum Halt {
    /// Memory was wanted.
    Memory,
    /// Taking the input failed.
    Input,
    /// More octets were taken than an input may have.
    Limit,
    /// The line of this number, counted from 1, isn't accepted.
    Stream(u64),
}

impl Halt {
    /// The line that is told.
    pub fn line(self) -> Line
        ensures { result ≡ halt_line self }
    {
        let mut line = Line::new();
        match self {
            Halt::Memory => line.push(b"fault memory\n"),
            Halt::Input => line.push(b"fault input\n"),
            Halt::Limit => line.push(b"fault limit\n"),
            Halt::Stream(number) => {
                line.push(b"fault stream ");
                line.push_number(number);
                line.push(b"\n");
            }
        }
        line
    }

    /// The status that the program ends with.
    pub fn status(self) -> u8
        ensures { result ≡ halt_status self }
    {
        match self {
            Halt::Memory => 4,
            Halt::Input => 5,
            Halt::Limit => 7,
            Halt::Stream(_) => 13,
        }
    }
}

/// What a fault of the input is.
pub fn halt_by(fault: Fault) -> Halt
    ensures { result ≡ halt_of fault }
{
    match fault {
        Fault::Input => Halt::Input,
        Fault::Limit => Halt::Limit,
    }
}

/// The line that is told of so many commits.
pub fn verified(commits: u64) -> Line
    ensures { result ≡ verified_line commits }
{
    let mut line = Line::new();
    line.push(b"verified ");
    line.push_number(commits);
    line.push(b"\n");
    line
}
