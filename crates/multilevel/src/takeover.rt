// A finer level takes over its groups' owners.
ghost use Rattle.multilevel.specs.Room.{Stacked, TakenOver};

use stages::HierarchyLevel;

// Each vertex of l gets the owner of its group, a vertex of the coarser level.
pub(crate) fn take_over(work: &mut [u32], l: HierarchyLevel, coarse: HierarchyLevel)
    requires { Stacked work.old l coarse }
    ensures { TakenOver work.old work.new l coarse }
{
    for v in 0..l.vertices {
        let g = work[l.fine_to_coarse + v] as usize;
        work[l.owners + v] = work[coarse.owners + g];
    }
}
