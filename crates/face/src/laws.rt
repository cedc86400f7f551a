// Laws on what an image stands for; their lemmas stand in proofs/.
ghost use Rattle.face.specs.Openings.{OpeningIsSound, SoundOpens};
ghost use Rattle.face.specs.Image.{OneMeaning, OneOpening, OpensWhereItStands, BlankLaw};
ghost use Rattle.face.specs.Lives.{LawOfLives, LawOfLoads};
ghost use Rattle.face.specs.RingNumbers.{LivesHaveRoom, LoadsAreComplete, NumbersOfLives, RunsAreComplete};

/// Law: an image stands for one table and one number of commits only.
pub fn one_meaning()
    ensures { OneMeaning }
{
    image_meaning::one_master_stands();
}

/// Law: a run over an image opens with one state only.
pub fn one_opening()
    ensures { OneOpening }
{
    image_meaning::one_master_stands();
}

/// Law: where an image stands for a table, a run over it opens with this table.
pub fn opens_where_it_stands()
    ensures { OpensWhereItStands }
{}

/// Law: a run over blank devices opens with the table without values, and no commit.
pub fn blank_stands()
    ensures { BlankLaw }
{
    image_meaning::blank_stands();
}

/// Law: a run over an image opens exactly where all rules hold for it, as `check` finds: with so many values after so
/// many commits.
pub fn sound_opens()
    ensures opens { SoundOpens }
    ensures sound { OpeningIsSound }
{
    image_check::sound_is_standing();
}

/// Law: what a run leaves opens again, with the table after some commits in the range of what was told: what a crash at
/// any moment of it leaves, on any honest and quiet site, and the site itself, once nothing of it is loose.
pub fn what_is_left_opens()
    ensures { LawOfLives }
{}

/// Law: what a load leaves opens again, with the table after a number of its commits that what was told allows: none
/// before its opening is told, all of them once its last line is.
pub fn what_a_load_leaves_opens()
    ensures { LawOfLoads }
{}

/// Law: over lives that begin with blank devices, each of them a run or a load on what the one before may have left, no
/// ring gives more numbers than the lives' work needs. That of the log's blocks: one for each record that they log, and
/// for each life as many as a log has blocks. That of the master units: one for each checkpoint and each life. That of
/// groups: one for each record that they read, two for each that they log, and for each life 42 for each block. So a
/// next run or load comes to the end of none until these sums pass 2^40, and is complete till then.
pub fn rings_last_for_lives()
    ensures numbers { NumbersOfLives }
    ensures room { LivesHaveRoom }
    ensures run { RunsAreComplete }
    ensures load { LoadsAreComplete }
{
    sealed_ring::blank_is_ring();
    second_chance::work_pushes_few();
    second_chance::lines_push_few();
}
