// Laws on pushes and versions, for the proofs of code above; their lemmas stand in proofs/. They do nothing when
// called.
ghost use Rattle.flash_cache.specs.Laws.{UnframedIsDisk};

/// Law: a page that has no frame in the queue has its disk page as its version.
pub fn unframed_is_disk()
    ensures { UnframedIsDisk }
{}
