// The work of `check`: whether the devices are sound, or which is the first rule that fails.
ghost use Rattle.std.specs.Prelude.{◌≡◌, IsTrue, IfOk, Ok, None};
ghost use Rattle.site.specs.Calls.{Preserves};
ghost use Rattle.site.specs.Work.{OnlyReads};
ghost use Rattle.image_check.specs.Deciding.{log_checked, pages_checked};
ghost use Rattle.image_check.specs.Judgement.{IsVerdictOn};
ghost use Rattle.image_form.specs.declared.place.Place.{Place};
ghost use Rattle.image_check.specs.declared.verdict.Verdict.{Verdict};
ghost use Rattle.image_form.specs.Counted.{ReadsBySizes};
ghost use Rattle.image_form.specs.Findings.{SizesAre};
ghost use Rattle.front_end.specs.Faults.{FirstDecides, SameFaults};
ghost use Rattle.front_end.specs.Check.{CheckContract, verdict_status};

use crate::fault_lines::{tell_halt, tell_verdict};
use crate::halt::Halt;
use image_check::{Verdict, check_image, one_reading};
use image_form::{Place, rule_lengths};
use site::{Site, Stop};
use std::alloc::Global;

// The status of a verdict that was told.
fn status_of(verdict: Verdict) -> u8
    ensures { result ≡ verdict_status verdict }
{
    match verdict {
        Verdict::Sound { .. } => 0,
        Verdict::Unsound { .. } => 11,
    }
}

// The verdict on the devices. Nothing is changed, and of devices without sizes nothing is read.
fn judge<S: Site>(alloc: Global, site: &mut S) -> Result<Verdict, Stop>
    ensures verdict { IsTrue (S.state site.old).honest
        → IfOk result (λ verdict. IsVerdictOn (S.state site.old).image verdict) }
    ensures looks { ReadsBySizes log_checked pages_checked (S.state site.old) (S.state site.new) }
    ensures reads { OnlyReads result (S.state site.old) (S.state site.new) }
    ensures sizes { SizesAre None (S.state site.old).image
        → (result ≡ Ok (Verdict.Unsound 1 Place.Lengths)) × (S.state site.new ≡ S.state site.old) }
{
    if rule_lengths(site).is_none() {
        return Ok(Verdict::Unsound {
            rule: 1,
            place: Place::Lengths,
        });
    }
    check_image(alloc, site)
}

/// The work of `check`: tells whether the devices are sound, or the first rule that fails, and changes nothing. The
/// answer is the status: 0 where they are sound, 3 where a device failed, 4 for want of memory, 6 where telling failed,
/// 11 where they aren't sound. Devices without sizes fail the first rule. Each log block is read seven times at most,
/// each page's version five times, and each group's heads and frames a few times.
pub fn serve_check<S: Site>(alloc: Global, site: &mut S) -> u8
    ensures check { CheckContract (S.state site.old) (S.state site.new) result }
    ensures preserves { Preserves (S.state site.old) (S.state site.new) }
    ensures faults { result ≡ 0 → SameFaults (S.state site.old) (S.state site.new) }
    ensures first { FirstDecides result (S.state site.old) (S.state site.new) }
{
    one_reading();
    match judge(alloc, site) {
        Ok(verdict) => match tell_verdict(site, verdict) {
            Ok(()) => status_of(verdict),
            Err(_) => 6,
        },
        Err(stop) => {
            let halt = Halt::Stop(stop);
            let _ = tell_halt(site, halt);
            halt.status()
        }
    }
}
