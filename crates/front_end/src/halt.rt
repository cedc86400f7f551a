// Why a run halts.
ghost use Rattle.std.specs.Prelude.{◌≡◌};
ghost use Rattle.front_end.specs.Texts.{fault_line, status_of};

use site::{Dev, Stop};

/// Why a run halts before its input has ended.
#[derive(Clone, Copy, Debug, PartialEq, Eq, Drop)]
pub enum Halt {
    /// A device failed, memory was wanted, a ring was worn, or the devices aren't sound.
    Stop(Stop),
    /// Taking input failed.
    Input,
    /// Telling a reply failed.
    Output,
    /// The input is longer than a run may take.
    Limit,
}

impl Halt {
    /// The line that is told where a run halts; none where telling failed.
    pub fn line(self) -> &'static [u8]
        ensures { result.now ≡ fault_line self }
    {
        match self {
            Halt::Stop(Stop::Device(Dev::Log)) => b"fault log\n",
            Halt::Stop(Stop::Device(Dev::Flash)) => b"fault flash\n",
            Halt::Stop(Stop::Device(Dev::Disk)) => b"fault disk\n",
            Halt::Stop(Stop::Memory) => b"fault memory\n",
            Halt::Stop(Stop::Worn(Dev::Log)) => b"fault worn log\n",
            Halt::Stop(Stop::Worn(Dev::Flash)) => b"fault worn flash\n",
            Halt::Stop(Stop::Worn(Dev::Disk)) => b"fault worn disk\n",
            Halt::Stop(Stop::Foreign) => b"fault foreign\n",
            Halt::Input => b"fault input\n",
            Halt::Output => b"",
            Halt::Limit => b"fault limit\n",
        }
    }

    /// The status that the program ends with.
    pub fn status(self) -> u8
        ensures { result ≡ status_of self }
    {
        match self {
            Halt::Stop(Stop::Device(_)) => 3,
            Halt::Stop(Stop::Memory) => 4,
            Halt::Input => 5,
            Halt::Output => 6,
            Halt::Limit => 7,
            Halt::Stop(Stop::Worn(_)) => 8,
            Halt::Stop(Stop::Foreign) => 9,
        }
    }
}
