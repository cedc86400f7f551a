ghost use Rattle.std.specs.Prelude.{◌≡◌, ◌≤◌, length};
ghost use Rattle.trace_report.specs.Contract.{halt_line, halt_status};

use shell_text::Line;

/// Why no report is told of a trace.
#[derive(Clone, Copy, Debug, PartialEq, Eq, Drop)]
pub enum Halt {
    /// Memory was wanted.
    Memory,
    /// Taking the input failed.
    Input,
    /// The line of this number, counted from 1, is no touch, or is one too many.
    Trace(u64),
}

impl Halt {
    /// The line that is told.
    pub fn line(self) -> Line
        ensures { result ≡ halt_line self }
    {
        let mut line = Line::new();
        match self {
            Halt::Memory => line.push(b"fault memory\n"),
            Halt::Input => line.push(b"fault input\n"),
            Halt::Trace(number) => {
                line.push(b"fault trace ");
                line.push_number(number);
                line.push(b"\n");
            }
        }
        line
    }

    /// The status that the program ends with.
    pub fn status(self) -> u8
        ensures { result ≡ halt_status self }
    {
        match self {
            Halt::Memory => 4,
            Halt::Input => 5,
            Halt::Trace(_) => 16,
        }
    }
}
