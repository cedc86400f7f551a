// The law on calls of a database. It does nothing when called.
ghost use Rattle.database.specs.Course.{CallsAreDurable};

/// Law: of calls one after the other on a database that stands for a state. Each is answered as the record model
/// answers it, up to one that stops, behind which all find the database closed. At each moment a crash leaves the table
/// after some of the commits, at least those that were answered and at most one more, which is asked for. The
/// transactions are in the serial order of their commits.
pub fn calls_are_durable()
    ensures { CallsAreDurable }
{}
