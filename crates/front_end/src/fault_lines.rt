// The lines that the program tells besides the replies: each by a function of its own.
ghost use Rattle.std.specs.Prelude.{◌≡◌, ◌≤◌, length, codes};
ghost use Rattle.front_end.specs.Texts.{dev_name, fault_line};
ghost use Rattle.image_check.specs.declared.verdict.Verdict.{Verdict};
ghost use Rattle.front_end.specs.Check.{unsound_line, verdict_line};
ghost use Rattle.front_end.specs.New.{ready_line, unfit_line};
ghost use Rattle.front_end.specs.declared.new_database.Unfit.{Unfit};
ghost use Rattle.front_end.specs.Tells.{Tells};

use crate::halt::Halt;
use crate::new_database::Unfit;
use image_check::Verdict;
use shell_text::Line;
use site::{Dev, Failed, Geometry, Site, tell_all};

fn name_of(dev: Dev) -> &'static [u8]
    ensures name { result.now ≡ dev_name dev }
    ensures short { length result.now ≤ 5 }
{
    match dev {
        Dev::Log => b"log",
        Dev::Flash => b"flash",
        Dev::Disk => b"disk",
    }
}

fn not_blank_line(dev: Dev, place: u64) -> Line
    ensures { result ≡ unfit_line (Unfit.NotBlank dev place) }
{
    let mut line = Line::new();
    line.push(b"fault notblank ");
    line.push(name_of(dev));
    line.push(b" ");
    line.push_number(place);
    line.push(b"\n");
    line
}

fn sizes_line(geometry: &Geometry) -> Line
    ensures { result ≡ ready_line geometry.now }
{
    let mut line = Line::new();
    line.push(b"ready ");
    line.push_number(u64::from(geometry.pages));
    line.push(b" ");
    line.push_number(u64::from(geometry.groups));
    line.push(b" ");
    line.push_number(u64::from(geometry.blocks));
    line.push(b"\n");
    line
}

fn sound_line(records: u64, commits: u64) -> Line
    ensures { result ≡ verdict_line (Verdict.Sound records commits) }
{
    let mut line = Line::new();
    line.push(b"sound records ");
    line.push_number(records);
    line.push(b" commits ");
    line.push_number(commits);
    line.push(b"\n");
    line
}

fn unsound_line(rule: u8) -> Line
    ensures { result ≡ unsound_line rule }
{
    let mut line = Line::new();
    line.push(b"unsound S");
    line.push_number(u64::from(rule));
    line.push(b"\n");
    line
}

fn line_of(verdict: Verdict) -> Line
    ensures { result ≡ verdict_line verdict }
{
    match verdict {
        Verdict::Sound { records, commits } => sound_line(records, commits),
        Verdict::Unsound { rule, .. } => unsound_line(rule),
    }
}

/// Tells that the words aren't right.
pub fn tell_words<S: Site>(site: &mut S) -> Result<(), Failed>
    ensures { Tells (codes "fault words\n") (S.state site.old) (S.state site.new) result }
{
    tell_all(site, b"fault words\n")
}

/// Tells that memory was wanted.
pub fn tell_memory<S: Site>(site: &mut S) -> Result<(), Failed>
    ensures { Tells (codes "fault memory\n") (S.state site.old) (S.state site.new) result }
{
    tell_all(site, b"fault memory\n")
}

/// Tells why a run halts.
pub fn tell_halt<S: Site>(site: &mut S, halt: Halt) -> Result<(), Failed>
    ensures { Tells (fault_line halt) (S.state site.old) (S.state site.new) result }
{
    tell_all(site, halt.line())
}

/// Tells that a device failed.
pub fn tell_device<S: Site>(site: &mut S, dev: Dev) -> Result<(), Failed>
    ensures { Tells (unfit_line (Unfit.Failed dev)) (S.state site.old) (S.state site.new) result }
{
    match dev {
        Dev::Log => tell_all(site, b"fault log\n"),
        Dev::Flash => tell_all(site, b"fault flash\n"),
        Dev::Disk => tell_all(site, b"fault disk\n"),
    }
}

/// Tells that the devices hold something foreign, or don't have the lengths.
pub fn tell_foreign<S: Site>(site: &mut S) -> Result<(), Failed>
    ensures { Tells (codes "fault foreign\n") (S.state site.old) (S.state site.new) result }
{
    tell_all(site, b"fault foreign\n")
}

/// Tells where the first octet stands that isn't zero.
pub fn tell_not_blank<S: Site>(site: &mut S, dev: Dev, place: u64) -> Result<(), Failed>
    ensures { Tells (unfit_line (Unfit.NotBlank dev place)) (S.state site.old) (S.state site.new) result }
{
    tell_all(site, not_blank_line(dev, place).as_slice())
}

/// Tells why devices aren't fit for a new database.
pub fn tell_unfit<S: Site>(site: &mut S, unfit: Unfit) -> Result<(), Failed>
    ensures { Tells (unfit_line unfit) (S.state site.old) (S.state site.new) result }
{
    match unfit {
        Unfit::Foreign => tell_foreign(site),
        Unfit::Failed(dev) => tell_device(site, dev),
        Unfit::NotBlank(dev, place) => tell_not_blank(site, dev, place),
    }
}

/// Tells that a new database is ready.
pub fn tell_ready<S: Site>(site: &mut S, geometry: &Geometry) -> Result<(), Failed>
    ensures { Tells (ready_line geometry.now) (S.state site.old) (S.state site.new) result }
{
    tell_all(site, sizes_line(geometry).as_slice())
}

/// Tells a verdict on the devices.
pub fn tell_verdict<S: Site>(site: &mut S, verdict: Verdict) -> Result<(), Failed>
    ensures { Tells (verdict_line verdict) (S.state site.old) (S.state site.new) result }
{
    tell_all(site, line_of(verdict).as_slice())
}
