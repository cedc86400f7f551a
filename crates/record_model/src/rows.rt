// Runs that were worked out by hand, which the model answers as it should. The functions do nothing: each states rows
// as clauses.
ghost use Rattle.record_model.specs.Rows.{LongestValue, LastRecord, WriteKeepsReadersOff, ReadKeepsWritersOff};
ghost use Rattle.record_model.specs.Rows.{SessionsRefused, ScanAmongWrites, ErasedBeforeCommit, QuitEnds};
ghost use Rattle.record_model.specs.Rows.{CheckpointMakesRoom, HundredSets, EightSessions};
ghost use Rattle.record_model.specs.Rows.{RoomFromTheStart, CheckpointOnDemand};
ghost use Rattle.record_model.specs.Rows.{BackToAMark, BackMakesRecords, MarkCountsWhatStands, BackToANumber};
ghost use Rattle.record_model.specs.Rows.{FullToTheLastOctet, RoomAtTheCommit, RoomForPendingWrites, FullLogFirst};
ghost use Rattle.record_model.specs.Rows.{TouchesOfTwoReaders, TouchesOfAnAbort};
ghost use Rattle.record_model.specs.Rows.{TouchesOfABack, TouchesOfAFullPage};
ghost use Rattle.record_model.specs.Rows.{AcknowledgedNone, AskedForOne, AcknowledgedOne, AskedForTwo, AskedForNone};
ghost use Rattle.record_model.specs.Rows.{AskedForAll, SecondTransaction, AnsweredAmongOthers, AnsweredAlone};
ghost use Rattle.record_model.specs.Rows.{ThreeSessions, ScanningAlone, WritingAlone, ReadingAlone};
ghost use Rattle.record_model.specs.Rows.{TakingBackAlone};
ghost use Rattle.record_model.specs.Faults.{ReadLocksKeepWritersOff, ReadsDifferWithoutLocks, ScanLocksItsRange};
ghost use Rattle.record_model.specs.Faults.{ScansDifferWithFewLocks, GetKeptOff, GetSeesWhatIsNotThere};

/// The longest value, one octet more, the empty value, and the last record.
pub fn rows_of_values()
    ensures longest_value { LongestValue }
    ensures last_record { LastRecord }
{}

/// Sessions that keep each other off, scans, erasures, refused sessions, and the end by `quit`.
pub fn rows_of_sessions()
    ensures write_keeps_readers_off { WriteKeepsReadersOff }
    ensures read_keeps_writers_off { ReadKeepsWritersOff }
    ensures sessions_refused { SessionsRefused }
    ensures scan_among_writes { ScanAmongWrites }
    ensures erased_before_commit { ErasedBeforeCommit }
    ensures quit_ends { QuitEnds }
{}

/// The log's budget, and what checkpoints free of it.
pub fn rows_of_the_budget()
    ensures checkpoint_makes_room { CheckpointMakesRoom }
    ensures hundred_sets { HundredSets }
    ensures eight_sessions { EightSessions }
    ensures room_from_the_start { RoomFromTheStart }
    ensures checkpoint_on_demand { CheckpointOnDemand }
{}

/// Marks, and what sessions take back.
pub fn rows_of_marks()
    ensures back_to_a_mark { BackToAMark }
    ensures back_makes_records { BackMakesRecords }
    ensures mark_counts_what_stands { MarkCountsWhatStands }
    ensures back_to_a_number { BackToANumber }
{}

/// Pages that are full, and which writes they have room for.
pub fn rows_of_full_pages()
    ensures full_to_the_last_octet { FullToTheLastOctet }
    ensures room_at_the_commit { RoomAtTheCommit }
    ensures room_for_pending_writes { RoomForPendingWrites }
    ensures full_log_first { FullLogFirst }
{}

/// What runs ask of the page cache.
pub fn rows_of_touches()
    ensures touches_of_two_readers { TouchesOfTwoReaders }
    ensures touches_of_an_abort { TouchesOfAnAbort }
    ensures touches_of_a_back { TouchesOfABack }
    ensures touches_of_a_full_page { TouchesOfAFullPage }
{}

/// Which commits may be left where a run was cut off.
pub fn rows_of_ranges()
    ensures acknowledged_none { AcknowledgedNone }
    ensures asked_for_one { AskedForOne }
    ensures acknowledged_one { AcknowledgedOne }
    ensures asked_for_two { AskedForTwo }
    ensures asked_for_none { AskedForNone }
    ensures asked_for_all { AskedForAll }
{}

/// Transactions among others, and alone: of two sessions, of three, and of one whose page another session makes full.
pub fn rows_of_serial_order()
    ensures second_transaction { SecondTransaction }
    ensures answered_among_others { AnsweredAmongOthers }
    ensures answered_alone { AnsweredAlone }
    ensures three_sessions { ThreeSessions }
    ensures scanning_alone { ScanningAlone }
    ensures writing_alone { WritingAlone }
    ensures reading_alone { ReadingAlone }
    ensures taking_back_alone { TakingBackAlone }
{}

/// What the locks are for: with a step that takes no read locks, whose scans lock only what they find, or whose `get`
/// sees pending writes, there are runs that aren't in serial order.
pub fn rows_of_faulty_steps()
    ensures read_locks { ReadLocksKeepWritersOff }
    ensures without_read_locks { ReadsDifferWithoutLocks }
    ensures scan_locks { ScanLocksItsRange }
    ensures few_scan_locks { ScansDifferWithFewLocks }
    ensures get_kept_off { GetKeptOff }
    ensures pending_seen { GetSeesWhatIsNotThere }
{}
