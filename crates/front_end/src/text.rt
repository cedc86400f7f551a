// Replies are told.
ghost use Rattle.std.specs.Prelude.{◌≡◌, ◌++◌, length, IsTrue, OnOk, OnErr};
ghost use Rattle.site.specs.Faults.{TellFaults};
ghost use Rattle.site.specs.Calls.{Preserves, Rose, SameReads};
ghost use Rattle.site.specs.Moments.{EachMoment};
ghost use Rattle.site.specs.Telling.{TellsOnly, TellsPart, SameDevices};
ghost use Rattle.shell_text.specs.Texts.{reply_lines, reply_text};
ghost use Rattle.front_end.specs.Tells.{HandsLines};

use record_model::Reply;
use shell_text::{line_count, reply_line};
use site::{Failed, Site, tell_all};

/// Tells the lines of a reply, each as one piece with its newline. A crash at any moment leaves the devices as they
/// were, and some front of the reply's text told.
pub fn tell_reply<S: Site>(site: &mut S, reply: &Reply) -> Result<(), Failed>
    ensures any_moment { IsTrue (S.state site.old).honest
        → EachMoment (S.state site.old) (S.state site.new) (TellsPart (reply_text reply.now) (S.state site.old)) }
    ensures lines { IsTrue (S.state site.old).honest → EachMoment (S.state site.old) (S.state site.new)
        (HandsLines (reply_lines reply.now) (S.state site.old).told) }
    ensures told { IsTrue (S.state site.old).honest
        → OnOk result ((S.state site.new).told ≡ (S.state site.old).told ++ reply_text reply.now) }
    // It takes no more calls than the text has octets, and none but tells.
    ensures tells_only { IsTrue (S.state site.old).honest
        → OnOk result (TellsOnly (length (reply_text reply.now)) (S.state site.old) (S.state site.new)) }
    ensures same { IsTrue (S.state site.old).honest → SameDevices (S.state site.old) (S.state site.new) }
    ensures reads { SameReads (S.state site.old) (S.state site.new) }
    ensures preserves { Preserves (S.state site.old) (S.state site.new) }
    ensures cause { OnErr result (Rose (S.state site.old).output_faults (S.state site.new).output_faults) }
    ensures faults { TellFaults result (S.state site.old) (S.state site.new) }
{
    for place in 0..line_count(reply) {
        match tell_all(site, reply_line(reply, place).as_slice()) {
            Ok(()) => {}
            Err(failed) => return Err(failed),
        }
    }
    Ok(())
}
