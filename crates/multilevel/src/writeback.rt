// The owners that a division ends with, written to the lent owner slice.
ghost use Rattle.std.specs.Prelude.{◌≡◌, ◌++◌, ◌+◌, ◌≤◌, length, drop};
ghost use Rattle.stages.specs.Level.{owners_at};

use links::copy_into;
use stages::HierarchyLevel;

// l's owners over the front; the rest stays.
pub(crate) fn write_owners(owners: &mut [u32], work: &[u32], l: HierarchyLevel)
    requires { (l.owners + l.vertices ≤ length work.now) × (l.vertices ≤ length owners.old) }
    ensures { owners.new ≡ owners_at work.now l ++ drop l.vertices owners.old }
{
    let a = l.owners;
    let e = a + l.vertices;
    copy_into(owners, &work[a..e]);
}
