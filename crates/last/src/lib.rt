// Steps 7 to 9, one after the other, for either edition: what steps 1 to 6 left is handed in by what it stands for.
#![tactic(auto)]

ghost use Rattle.std.specs.Prelude.{◌≡◌, true, ◌*◌, ◌<◌, ◌≤◌, length};
ghost use Rattle.table.specs.Columns.{columns};
ghost use Rattle.view.specs.Frame.{outside};
ghost use Rattle.view.specs.Contributions.{contribution_columns};
ghost use Rattle.subgroups.specs.Subgroups.{Ranged};
ghost use Rattle.last.specs.Last as spec;

use grouped::MeshCounts;
use groups::GroupCounts;
use mesh::Mesh;

// The answer list shows absent slots, and then the final readings. The numbers of the corners that step 7 reads stand in column k.
pub fn finish_frames(
    work: &mut [u32],
    rows: usize,
    k: usize,
    counts: MeshCounts,
    mesh: &Mesh,
    threshold: f32,
    answer: &mut [u32],
)
    requires { (k < columns) × (outside contribution_columns k ≡ true) × (counts.sound ≤ counts.all) × (3 * counts.all ≤ rows) × (counts.groups ≤ rows) × (counts.members ≤ rows) × (columns * rows ≤ length work.old) × Ranged rows counts.members work.old }
    ensures { spec.Finished rows k counts mesh.now.positions.now mesh.now.normals.now threshold work.old work.new answer.old answer.new }
{
    mesh.single();
    contributions::contribute_all(work, rows, k, counts.sound, mesh);
    let met = GroupCounts {
        groups: counts.groups,
        members: counts.members,
    };
    spaces::generate_tangent_spaces(work, rows, threshold, answer, met);
    copies::copy_frames(work, rows, counts.sound, counts.all, mesh.positions, answer);
}
