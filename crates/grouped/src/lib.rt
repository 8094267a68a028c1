// Steps 1 to 6, one after the other: from the lists handed in to the groups of corners, as met and in triangle order.
#![tactic(auto)]

ghost use Rattle.std.specs.Prelude.{◌≡◌, ℕ, ◌*◌, ◌≤◌, ◌<◌, length};
ghost use Rattle.mesh.specs.Parts.{given};
ghost use Rattle.definition.specs.Limits.{face_limit};
ghost use Rattle.table.specs.Table.{cell};
ghost use Rattle.table.specs.Columns.{columns, rows_of, link_column};
ghost use Rattle.grouped.specs.Links.{LeftByFive};
ghost use Rattle.grouped.specs.Grouped.{SidesGrouped, LeftBySix};

use listing::TriangleCounts;
use mesh::Mesh;

// How many triangles are sound, and how many there are; how many groups there are, and members of them all.
#[derive(Clone, Copy)]
pub struct MeshCounts {
    pub sound: usize,
    pub all: usize,
    pub groups: u32,
    pub members: usize,
}

// Steps 1 to 5; the columns are spoken for where no corner is bad.
pub fn link_mesh(mesh: &Mesh, work: &mut [u32]) -> TriangleCounts
    requires { (length mesh.now.sizes.now ≤ face_limit) × (columns * rows_of (length mesh.now.sizes.now) ≤ length work.old) }
    ensures { LeftByFive (given mesh.now) result.sound result.all work.old work.new }
{
    let rows = 6 * mesh.sizes.len();
    mesh.single();
    let counts = listing::list_triangles(work, mesh);
    weld::weld(work, rows, 3 * counts.all, mesh);
    let sound = counts.sound;
    neighbors::link_sides(work, rows, sound);
    counts
}

// Step 6 for sides that are linked, and its members in triangle order: for any links that the column stands for.
pub fn group_sides(work: &mut [u32], rows: usize, triangles: TriangleCounts) -> MeshCounts
    requires { (3 * triangles.sound ≤ rows) × (columns * rows ≤ length work.old) × (rows < 4294967295) × ((r : ℕ) → r < 3 * triangles.sound → cell rows link_column r work.old ≤ 3 * triangles.sound) }
    ensures { SidesGrouped rows triangles.sound triangles.all result work.old work.new }
{
    let sound = triangles.sound;
    let counts = flat::build_4_rule_groups(work, rows, sound);
    let met = counts.groups;
    let members = counts.members;
    members::order_members(work, rows, counts);
    MeshCounts {
        sound,
        all: triangles.all,
        groups: met,
        members,
    }
}

// Steps 1 to 6; the columns are spoken for where no corner is bad.
pub fn group_mesh(mesh: &Mesh, work: &mut [u32]) -> MeshCounts
    requires { (length mesh.now.sizes.now ≤ face_limit) × (columns * rows_of (length mesh.now.sizes.now) ≤ length work.old) }
    ensures { LeftBySix (given mesh.now) result work.old work.new }
{
    let rows = 6 * mesh.sizes.len();
    let triangles = link_mesh(mesh, work);
    group_sides(work, rows, triangles)
}
