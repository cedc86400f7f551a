// Laws on a new master.
ghost use Rattle.image_meaning.specs.Beside.{RingsSaved};
ghost use Rattle.image_meaning.specs.Checkpoints.{SavedOctets};
ghost use Rattle.image_meaning.specs.Checkpoints.{SavedLogicalImage, SavedIsSound, SavedMeans, SavedIsOrderly};

/// Appending a master unit keeps an image sound, and what it stands for, from the new oldest kept block on, and leaves
/// an orderly log: its octets stay sound, and its logical image is the one before with the new master.
pub fn master_saved()
    ensures octets { SavedOctets }
    ensures rings { RingsSaved }
    ensures logical_image { SavedLogicalImage }
    ensures sound { SavedIsSound }
    ensures means { SavedMeans }
    ensures orderly { SavedIsOrderly }
{}
