// Facts about the machine. The functions do nothing: each states its laws as clauses.
ghost use Rattle.second_chance.specs.Laws.{EvictionIsPlanned, FlushIsPlanned, StagedIsPlanned, PushSavesAPage};
ghost use Rattle.second_chance.specs.Laws.{FlushGoesOn, FlushEnds, FlushSavesAll, ChancesStand, ChancesFew};
ghost use Rattle.second_chance.specs.Groups.{FlushPushesChanged, LinesCounted, LinesPushFew, NearlyAllArePushed};
ghost use Rattle.second_chance.specs.Groups.{TouchPushesOne, WorkPushesFew};
ghost use Rattle.second_chance.specs.Laws.{ChancesAreNotStaged};

/// To do what a plan says is the push of the machine: its new group, the pages that leave the pool or are saved, and
/// the frames that are staged.
pub fn plans_are_pushes()
    ensures eviction { EvictionIsPlanned }
    ensures flush { FlushIsPlanned }
    ensures staged { StagedIsPlanned }
{}

/// A flush goes push by push: each saves at least one page, and at its end no page of the pool is changed.
pub fn flushes_save_all()
    ensures saves_a_page { PushSavesAPage }
    ensures goes_on { FlushGoesOn }
    ensures ends { FlushEnds }
    ensures saves_all { FlushSavesAll }
{}

/// Each second chance stands in the front group, valid and referenced; there are at most seven; and none of them is
/// staged: with the staged frames they are no more than the front group has.
pub fn second_chances_stand()
    ensures stand { ChancesStand }
    ensures few { ChancesFew }
    ensures not_staged { ChancesAreNotStaged }
{}

/// A touch pushes at most one group, a flush at most one for each changed page. So work pushes no more than one group
/// for each touch and one for each change; and some work pushes nearly as many.
pub fn work_pushes_few()
    ensures touch { TouchPushesOne }
    ensures flush { FlushPushesChanged }
    ensures work { WorkPushesFew }
    ensures reached { NearlyAllArePushed }
{}

/// The lines of a run ask for no more than one group for each record that they read, and two for each that they log.
pub fn lines_push_few()
    ensures lines { LinesPushFew }
    ensures counted { LinesCounted }
{}
