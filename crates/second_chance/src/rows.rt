// Runs that were worked out by hand, after which the machine stands as it should. The functions do nothing: each states
// rows as clauses.
ghost use Rattle.second_chance.specs.Rows.{EvictedPageIsPushed, ReadPageHasSecondChance, ReadPageStaysOffTheDisk};
ghost use Rattle.second_chance.specs.Rows.{ReadPageLeaves, ReadPageIsStaged, SevenHaveSecondChances, EighthIsStaged};
ghost use Rattle.second_chance.specs.Rows.{MixedWithChances, MixedWithChancesStages, MixedWithout, MixedWithoutStages};

/// An evicted page is pushed, a page that was read is given a second chance, and no more than seven of a group are.
pub fn rows_of_second_chances()
    ensures evicted_page_is_pushed { EvictedPageIsPushed }
    ensures read_page_has_second_chance { ReadPageHasSecondChance }
    ensures read_page_stays_off_the_disk { ReadPageStaysOffTheDisk }
    ensures seven_have_second_chances { SevenHaveSecondChances }
    ensures eighth_is_staged { EighthIsStaged }
    ensures mixed { MixedWithChances }
    ensures mixed_stages { MixedWithChancesStages }
{}

/// Without second chances a page leaves with its group.
pub fn rows_of_the_plain_machine()
    ensures read_page_leaves { ReadPageLeaves }
    ensures read_page_is_staged { ReadPageIsStaged }
    ensures mixed { MixedWithout }
    ensures mixed_stages { MixedWithoutStages }
{}
