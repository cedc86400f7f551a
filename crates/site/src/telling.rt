// Telling a whole piece.
ghost use Rattle.std.specs.Prelude.{◌≡◌, ◌++◌, length, IsTrue, OnOk, OnErr};
ghost use Rattle.site.specs.Calls.{Preserves, SameReads, Rose};
ghost use Rattle.site.specs.Faults.{TellFaults};
ghost use Rattle.site.specs.Moments.{EachMoment};
ghost use Rattle.site.specs.Telling.{HandsRest, TellsOnly, TellsPart, SameDevices};

use crate::outside::{Failed, Site};

/// Tells a piece, by as many calls as it takes. After an error some front of it was told.
pub fn tell_all<S: Site>(site: &mut S, piece: &[u8]) -> Result<(), Failed>
    // A crash at any moment leaves the devices as they were, and some front of the piece told.
    ensures any_moment { IsTrue (S.state site.old).honest
        → EachMoment (S.state site.old) (S.state site.new) (TellsPart piece.now (S.state site.old)) }
    // Each call is handed all that wasn't told of it yet.
    ensures hands { IsTrue (S.state site.old).honest
        → EachMoment (S.state site.old) (S.state site.new) (HandsRest piece.now (S.state site.old)) }
    ensures told { IsTrue (S.state site.old).honest
        → OnOk result ((S.state site.new).told ≡ (S.state site.old).told ++ piece.now) }
    // It takes no more calls than the piece has octets, and none but tells.
    ensures tells_only { IsTrue (S.state site.old).honest
        → OnOk result (TellsOnly (length piece.now) (S.state site.old) (S.state site.new)) }
    ensures same { IsTrue (S.state site.old).honest → SameDevices (S.state site.old) (S.state site.new) }
    ensures reads { SameReads (S.state site.old) (S.state site.new) }
    ensures preserves { Preserves (S.state site.old) (S.state site.new) }
    ensures cause { OnErr result (Rose (S.state site.old).output_faults (S.state site.new).output_faults) }
    ensures faults { TellFaults result (S.state site.old) (S.state site.new) }
{
    let mut at = 0;
    while at < piece.len() {
        match site.tell(&piece[at..]) {
            Ok(count) => at += count,
            Err(failed) => return Err(failed),
        }
    }
    Ok(())
}
