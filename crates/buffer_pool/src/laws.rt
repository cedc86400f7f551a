// Laws of pools, for the proofs of code above. They do nothing when called.
ghost use Rattle.buffer_pool.specs.Laws.{TouchKeepsFrames, WithoutTakesOne, ClearedKeepsFrames, LastIsItsPages};
ghost use Rattle.buffer_pool.specs.Laws.{ChangeKeepsOthers};

/// Where each page's frame is after a touch, after a page was taken out, after a mark was cleared, before the last
/// frame was taken out, and after a change of the front.
pub fn frames_of_pages()
    ensures touched { TouchKeepsFrames }
    ensures without { WithoutTakesOne }
    ensures cleared { ClearedKeepsFrames }
    ensures last { LastIsItsPages }
    ensures changed { ChangeKeepsOthers }
{}
