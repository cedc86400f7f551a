// Laws on changes of images, one after the other.
ghost use Rattle.std.specs.Prelude.{Option};
ghost use Rattle.image_meaning.specs.Beside.{RingsKeptUnder};
ghost use Rattle.checkpoint.specs.declared.master.Master.{Master};

/// So they do under whatever master is the newest.
pub fn rings_kept_under()
    ensures { (newest : Option Master) → RingsKeptUnder newest }
{}
