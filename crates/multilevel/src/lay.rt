// The site's own lists, laid into the work slice as the finest level.
ghost use Rattle.multilevel.specs.Room.{SiteFits, SiteLaid};

use links::copy_part;
use stages::HierarchyLevel;

// The lists and the workloads into l's parts.
pub(crate) fn lay_site(
    work: &mut [u32],
    l: HierarchyLevel,
    offsets: &[u32],
    neighbors: &[u32],
    workloads: &[u32],
)
    requires { SiteFits work.old l offsets.now neighbors.now workloads.now }
    ensures { SiteLaid work.old work.new l offsets.now neighbors.now workloads.now }
{
    copy_part(work, l.offsets, l.offsets + (l.vertices + 1), offsets);
    copy_part(work, l.neighbors, l.neighbors + l.entries, neighbors);
    copy_part(work, l.weights, l.weights + l.vertices, workloads);
}
