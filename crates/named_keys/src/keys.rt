// Lines about names.
ghost use Rattle.std.specs.Prelude.{◌≡◌};
ghost use Rattle.record_model.specs.declared.names.Job.TheVariants.{Find, Remove};
ghost use Rattle.record_model.specs.declared.names.Ask.{Ask};
ghost use Rattle.record_model.specs.Probes.{ask};
ghost use Rattle.named_keys.specs.Lines.{RefusesLong, ServesName, ServesPut};
ghost use Rattle.named_keys.specs.Going.{IsGoing, LineOf, Step};

use crate::name::Name;
use crate::reply::NameReply;
use database::{Database, Unanswered};
use name_table::{Ask, Probe, VALUE_MAX};
use record_model::{Octets, Reply, Why};
use site::Site;

// Makes the read that a probe asks for, and tells it the value. Where it is refused, the line is answered so.
fn read_for<S: Site + Drop>(
    db: &mut Database<S>,
    session: u32,
    number: u32,
    probe: &mut Probe,
) -> Result<Option<NameReply>, Unanswered>
    requires asks { ask probe.old ≡ Ask.Read number }
    ensures step { Step session probe.old probe.new result db.old db.new }
{
    let reply = match db.read(session, number) {
        Ok(reply) => reply,
        Err(why) => return Err(why),
    };
    match reply {
        Reply::Value(value) => {
            probe.told(Some(value));
            Ok(None)
        }
        Reply::Nothing => {
            probe.told(None);
            Ok(None)
        }
        refused => Ok(Some(NameReply::Refused(refused))),
    }
}

// Makes the write that a probe asks for, and tells it. Where it is refused, the line is answered so.
fn write_for<S: Site + Drop>(
    db: &mut Database<S>,
    session: u32,
    number: u32,
    value: &Octets,
    probe: &mut Probe,
) -> Result<Option<NameReply>, Unanswered>
    requires asks { ask probe.old ≡ Ask.Write number value.now }
    ensures step { Step session probe.old probe.new result db.old db.new }
{
    let reply = match db.write(session, number, value) {
        Ok(reply) => reply,
        Err(why) => return Err(why),
    };
    match reply {
        Reply::Done => {
            probe.written();
            Ok(None)
        }
        refusal => Ok(Some(NameReply::Refused(refusal))),
    }
}

// Makes the call that a probe asks for, or gives its answer.
fn make_call<S: Site + Drop>(
    db: &mut Database<S>,
    session: u32,
    probe: &mut Probe,
) -> Result<Option<NameReply>, Unanswered>
    ensures step { Step session probe.old probe.new result db.old db.new }
{
    match probe.ask() {
        Ask::Read(number) => read_for(db, session, number, probe),
        Ask::Write(number, value) => write_for(db, session, number, &value, probe),
        Ask::End(answer) => Ok(Some(NameReply::Answer(answer))),
    }
}

// Makes the calls that a probe asks for, up to its answer.
fn carry_out<S: Site + Drop>(
    db: &mut Database<S>,
    session: u32,
    probe: Probe,
) -> Result<NameReply, Unanswered>
    requires going { IsGoing probe }
    ensures line { LineOf session probe result db.old db.new }
{
    let mut probe = probe;
    loop {
        match make_call(db, session, &mut probe) {
            Ok(None) => {}
            Ok(Some(reply)) => return Ok(reply),
            Err(why) => return Err(why),
        }
    }
}

/// What a session sees under a name.
pub fn find<S: Site + Drop>(
    db: &mut Database<S>,
    session: u32,
    name: &Name,
) -> Result<NameReply, Unanswered>
    ensures serves { ServesName Find session name.now result db.old db.new }
{
    let buckets = db.records()? / 2;
    carry_out(db, session, Probe::find(name.as_slice(), buckets))
}

/// A session gives a name a value of at most 100 octets. Nobody else sees it before the session commits.
pub fn put<S: Site + Drop>(
    db: &mut Database<S>,
    session: u32,
    name: &Name,
    value: &Octets,
) -> Result<NameReply, Unanswered>
    ensures serves { ServesPut session name.now value.now result db.old db.new }
{
    if value.as_slice().len() > VALUE_MAX {
        return refuse_long(db, session);
    }
    let buckets = db.records()? / 2;
    carry_out(
        db,
        session,
        Probe::put(name.as_slice(), value.as_slice(), buckets),
    )
}

// Refuses a value that is too long, where the session is active.
fn refuse_long<S: Site + Drop>(db: &mut Database<S>, session: u32) -> Result<NameReply, Unanswered>
    ensures refuses { RefusesLong session result db.old db.new }
{
    let reply = match db.scan(session, 0, 0) {
        Ok(reply) => reply,
        Err(why) => return Err(why),
    };
    match reply {
        Reply::Items(_) => Ok(NameReply::Refused(Reply::Refused(Why::TooLong))),
        refused => Ok(NameReply::Refused(refused)),
    }
}

/// A session takes a name out. Nobody else sees it before the session commits.
pub fn remove<S: Site + Drop>(
    db: &mut Database<S>,
    session: u32,
    name: &Name,
) -> Result<NameReply, Unanswered>
    ensures serves { ServesName Remove session name.now result db.old db.new }
{
    let buckets = db.records()? / 2;
    carry_out(db, session, Probe::remove(name.as_slice(), buckets))
}
