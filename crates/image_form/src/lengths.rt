// Whether the devices' lengths are those of sizes.
ghost use Rattle.image_form.specs.Findings.{SizesAre};

use site::{Dev, Geometry, Site};

/// The sizes within the limits whose devices have these lengths, or `None` exactly where there are none.
pub fn rule_lengths<S: Site>(site: &S) -> Option<Geometry>
    ensures { SizesAre result (S.state site.now).image }
{
    Geometry::of_lengths(
        site.len(Dev::Log),
        site.len(Dev::Flash),
        site.len(Dev::Disk),
    )
}
