// Laws of the lines about names. The functions do nothing when called: each states its law as a clause.
ghost use Rattle.named_keys.specs.Laws.{LinesAreProbes, LinesKeepTheMap};

use database::calls_are_durable;
use name_table::names_are_a_map;

/// Law: of a line that nothing refused, over a database that stands for a state. Its answer is where the probe comes to
/// over the table as the session sees it, and behind it the session sees the write too that the probe asks for. Nobody
/// else sees it: table and commits stay.
pub fn lines_are_probes()
    ensures { LinesAreProbes }
{
    calls_are_durable();
}

/// Law: where the session sees well-formed buckets, find answers what stands under the name; behind put and remove it
/// sees well-formed buckets that differ under that name alone.
pub fn lines_keep_the_map()
    ensures { LinesKeepTheMap }
{
    lines_are_probes();
    names_are_a_map();
}
