// Runs that were worked out by hand, and by a program in another language. The function does nothing.
ghost use Rattle.ring_machine.specs.Rows.{OneBlockForEachSet, PushedPagesWait, UndonePagesWait, OneTailForAll};
ghost use Rattle.ring_machine.specs.Rows.{BackEndsNothing, MarksAskNothing, FullTailIsSealed};

/// Which blocks runs append to the log.
pub fn rows_of_blocks()
    ensures sets { OneBlockForEachSet }
    ensures writes { PushedPagesWait }
    ensures abort { UndonePagesWait }
    ensures tail { OneTailForAll }
    ensures back { BackEndsNothing }
    ensures mark { MarksAskNothing }
    ensures full { FullTailIsSealed }
{}
