// Why a restore ends before its last commit.
ghost use Rattle.std.specs.Prelude.{◌≡◌, ◌≤◌, ◌++◌, codes, decimal, length, IsTrue, OnOk};
ghost use Rattle.site.specs.Telling.{TellsOnly};
ghost use Rattle.front_end.specs.Tells.{Tells};
ghost use Rattle.archive_restore.specs.Texts.{fault_line, fault_status, restored_line};

use front_end::{Halt, Unfit, tell_halt, tell_unfit};
use shell_text::Line;
use site::{Failed, Site, tell_all};

/// Why a restore ends before its last commit.
#[derive(Clone, Copy, Debug, PartialEq, Eq, Drop)]
pub enum Fault {
    /// The devices aren't blank, or a read of one failed while that was tested.
    Unfit(Unfit),
    /// The work of a run halts.
    Halt(Halt),
    /// This line, counted from 1, doesn't follow the lines before it as one of an archive.
    Stream(u64),
    /// The input has ended after so many commits.
    Short(u64),
    /// The database hasn't the room for the next commit.
    Full,
}

impl Fault {
    /// The status that the program ends with.
    pub fn status(self) -> u8
        ensures { result ≡ fault_status self }
    {
        match self {
            Fault::Unfit(unfit) => unfit.status(),
            Fault::Halt(halt) => halt.status(),
            Fault::Stream(_) => 13,
            Fault::Short(_) => 14,
            Fault::Full => 15,
        }
    }
}

// A line with a number at its end.
fn numbered_line(words: &[u8], number: u64) -> Line
    requires { length words.now ≤ 20 }
    ensures { result ≡ words.now ++ decimal number ++ codes "\n" }
{
    let mut line = Line::new();
    line.push(words);
    line.push_number(number);
    line.push(b"\n");
    line
}

/// Tells why a restore has ended; nothing where telling failed.
pub fn tell_fault<S: Site>(site: &mut S, fault: Fault) -> Result<(), Failed>
    ensures { Tells (fault_line fault) (S.state site.old) (S.state site.new) result }
{
    match fault {
        Fault::Unfit(unfit) => tell_unfit(site, unfit),
        Fault::Halt(halt) => tell_halt(site, halt),
        Fault::Stream(number) => tell_all(site, numbered_line(b"fault stream ", number).as_slice()),
        Fault::Short(commits) => tell_all(site, numbered_line(b"fault short ", commits).as_slice()),
        Fault::Full => tell_all(site, b"fault full\n"),
    }
}

/// Tells that all is restored.
pub fn tell_restored<S: Site>(site: &mut S, count: u64) -> Result<(), Failed>
    ensures tells { Tells (restored_line count) (S.state site.old) (S.state site.new) result }
    // With no call but those that tell, at most one an octet.
    ensures only { IsTrue (S.state site.old).honest
        → OnOk result (TellsOnly (length (restored_line count)) (S.state site.old) (S.state site.new)) }
{
    tell_all(site, numbered_line(b"restored ", count).as_slice())
}
