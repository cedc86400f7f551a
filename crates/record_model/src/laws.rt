// Facts about the model. The functions do nothing: each states its law as a clause.
ghost use Rattle.record_model.specs.Laws.{RefusalsAreTold, SizesStay, SessionsStaySound, BackToTheMark};
ghost use Rattle.record_model.specs.Laws.{PagesStayFit, TableFits, SeenFits};
ghost use Rattle.record_model.specs.Laws.{EachLineHasATurn, TurnsFollow};
ghost use Rattle.record_model.specs.Serial.{GetsAreSerial, Serial};

/// A command was accepted exactly where its reply is neither `Busy` nor `Full` nor `Refused`.
pub fn refusals_are_told()
    ensures { RefusalsAreTold }
{}

/// No line changes how many records, sessions and blocks there are.
pub fn sizes_stay()
    ensures { SizesStay }
{}

/// What a session's standing writes are of it has written, and its mark is among them: each line keeps that.
pub fn sessions_stay_sound()
    ensures { SessionsStaySound }
{}

/// A back to a session's mark leaves standing what stood at the mark, whatever came in between.
pub fn back_to_the_mark()
    ensures { BackToTheMark }
{}

/// In no page do the records come to need more octets together than it has room for: each line keeps that. So the
/// values of its records have room there, those of the table and those that any session sees.
pub fn pages_stay_fit()
    ensures stay { PagesStayFit }
    ensures table { TableFits }
    ensures seen { SeenFits }
{}

/// Where no line quits, each line of a run has its turn.
pub fn each_line_has_a_turn()
    ensures { EachLineHasATurn }
{}

/// Each turn of a run answers its own line, from the state that the turns before it left.
pub fn turns_follow()
    ensures { TurnsFollow }
{}

/// An accepted `get` answers what the table of the commits before it has.
pub fn gets_are_serial()
    ensures { GetsAreSerial }
{}

/// Whatever the interleaving of the sessions, each transaction answers as if it had run alone, on the table of the
/// commits before its own and with room enough in the log, and leaves there the table that its commit made in the run.
/// An active session has at each moment been answered as alone on the table of that moment.
pub fn serial_order()
    ensures { Serial }
{}
