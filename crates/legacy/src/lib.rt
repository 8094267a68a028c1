// Steps 1 to 6 of the old edition, one after the other: from the lists handed in to the groups of corners, as met and in triangle order.
// Groundwork of request E13: no public call uses it yet.
#![tactic(auto)]

ghost use Rattle.std.specs.Prelude.{◌*◌, ◌≤◌, length};
ghost use Rattle.mesh.specs.Parts.{given};
ghost use Rattle.definition.specs.Limits.{face_limit};
ghost use Rattle.table.specs.Columns.{columns, rows_of};
ghost use Rattle.legacy.specs.Links.{LeftByOldFive};
ghost use Rattle.legacy.specs.Grouped.{LeftByOldSix};

use grouped::MeshCounts;
use listing::TriangleCounts;
use mesh::Mesh;

// Steps 1 to 5; the columns are spoken for where no corner is bad.
pub fn link_old_mesh(mesh: &Mesh, work: &mut [u32]) -> TriangleCounts
    requires { (length mesh.now.sizes.now ≤ face_limit) × (columns * rows_of (length mesh.now.sizes.now) ≤ length work.old) }
    ensures { LeftByOldFive (given mesh.now) result.sound result.all work.old work.new }
{
    let rows = 6 * mesh.sizes.len();
    mesh.single();
    let counts = listing::list_triangles(work, mesh);
    let n = 3 * counts.all;
    merge::merge_rows(work, rows, n, mesh);
    merge::name_rows(work, rows, n);
    let sound = counts.sound;
    edges::link_old_sides(work, rows, sound);
    counts
}

// Steps 1 to 6; the columns are spoken for where no corner is bad.
pub fn group_old_mesh(mesh: &Mesh, work: &mut [u32]) -> MeshCounts
    requires { (length mesh.now.sizes.now ≤ face_limit) × (columns * rows_of (length mesh.now.sizes.now) ≤ length work.old) }
    ensures { LeftByOldSix (given mesh.now) result work.old work.new }
{
    let rows = 6 * mesh.sizes.len();
    let triangles = link_old_mesh(mesh, work);
    grouped::group_sides(work, rows, triangles)
}
