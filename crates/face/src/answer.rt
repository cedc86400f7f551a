// A line is carried out, and its reply is told.
ghost use Rattle.std.specs.Prelude.{List};
ghost use Rattle.site.specs.State.{IsQuiet};
ghost use Rattle.record_model.specs.declared.words.CacheLine.{CacheLine};
ghost use Rattle.record_model.specs.State.{State};
ghost use Rattle.engine.specs.Invariant.{Invariant, sizes_of};
ghost use Rattle.engine.specs.Representation.{Matches};
ghost use Rattle.engine.specs.Listings.{listing_of};
ghost use Rattle.site.specs.Moments.{EachMoment};
ghost use Rattle.shell_text.specs.Texts.{reply_lines};
ghost use Rattle.face.specs.Carrying.{CarriesOut, HandsReply, TellsAnswer};
ghost use Rattle.face.specs.Run.{step, IsAsked};

use crate::commands::carry_out;
use engine::Engine;
use front_end::{Halt, tell_reply};
use record_model::Command;
use site::Site;

/// Carries out a line and tells its reply. A crash at any moment leaves the table before the line and nothing told of
/// its reply, or the table after it and some front of its reply.
pub fn answer<S: Site>(engine: &mut Engine, site: &mut S, line: Option<Command>) -> Result<(), Halt>
    requires going { Invariant engine.old (S.state site.old) }
    ensures course { CarriesOut result line engine.old engine.new (S.state site.old) (S.state site.new) }
    // Of an honest site that the database fits.
    ensures tells { (s : State) (listing : List CacheLine) → IsAsked line (listing_of engine.old) listing
        → Matches engine.old (S.state site.old) s
        → IsQuiet (S.state site.old)
        → TellsAnswer result (sizes_of engine.old.store) s (step s line listing) (S.state site.old) (S.state site.new) }
    // Nothing is told of it before it is carried out, and its reply line by line.
    ensures hands { (s : State) (listing : List CacheLine) → IsAsked line (listing_of engine.old) listing
        → Matches engine.old (S.state site.old) s
        → IsQuiet (S.state site.old)
        → EachMoment (S.state site.old) (S.state site.new) (HandsReply line engine.old engine.new
        (reply_lines (step s line listing).reply) (S.state site.old)) }
{
    let reply = match carry_out(engine, site, line) {
        Ok(reply) => reply,
        Err(halt) => return Err(halt),
    };
    match tell_reply(site, &reply) {
        Ok(()) => Ok(()),
        Err(_) => Err(Halt::Output),
    }
}
