// Request E9: the islands of a mesh, by themselves. A public call.
#![tactic(auto)]

ghost use Rattle.std.specs.Prelude.{◌≡◌, cond, ◌+◌, ◌≤◌, ◌<◌, eqb, length, get_or};
ghost use Rattle.std.proofs.Math.Option.{none};
ghost use Rattle.definition.specs.Handed.{handed};
ghost use Rattle.definition.specs.Limits.{face_limit};
ghost use Rattle.mesh.specs.Parts.{given};
ghost use Rattle.labels.specs.Labels as spec;

use desk::Refusal;
use mesh::Mesh;

// What the call says: the number of a refusal and its place, or 0 and 0; and how many islands there are.
#[repr(C)]
#[derive(Clone, Copy)]
pub struct Labelled {
    pub number: u32,
    pub place: u32,
    pub islands: u32,
}

// How many islands there are, or why the call was refused, as it is handed out.
impl From<Result<u32, Refusal>> for Labelled {
    ghost from_gives = { λ made labelled. labelled ≡ spec.labelled_of made };

    #[tactic(auto, unfolding(crate::specs::Labels::labelled_of))]
    fn from(made: Result<u32, Refusal>) -> Labelled {
        match made {
            Ok(islands) => Labelled {
                number: 0,
                place: 0,
                islands,
            },
            Err(refusal) => Labelled {
                number: refusal.number(),
                place: refusal.place(),
                islands: 0,
            },
        }
    }
}

// One more, if a face has its own number.
fn counted(count: u32, label: u32, face: usize) -> u32
    requires { count < face_limit }
    ensures { result ≡ count + cond (eqb label face) 1 0 }
{
    let own = label as usize == face;
    count + u32::from(own)
}

// How many of the first faces have their own number.
fn count_islands(labels: &[u32], faces: usize) -> u32
    requires { (faces ≤ length labels.now) × (faces ≤ face_limit) }
    ensures { result ≡ spec.own_numbers faces (λ f. get_or labels.now f 0) }
{
    let mut count = 0;
    for f in 0..faces {
        count = counted(count, labels[f], f);
    }
    count
}

// The numbers of a mesh that the desk accepts; the result is how many islands there are.
fn number_faces(mesh: &Mesh, work: &mut [u32], labels: &mut [u32]) -> u32
    requires { spec.labels_verdict (given mesh.now) (length labels.old) (length work.old) ≡ none }
    ensures { spec.left (record { number = 0; place = 0; islands = result }) labels.new work.new ≡ spec.accepted_labels (given mesh.now) labels.old work.old }
{
    let faces = mesh.sizes.len();
    islands::label(mesh, labels, work);
    table::clear_first(work, definition::WORK_WORDS * faces);
    count_islands(labels, faces)
}

// The desk, the list for the numbers, and then the numbers: how many islands there are, or why not.
fn try_labels(mesh: &Mesh, labels: &mut [u32], work: &mut [u32]) -> Result<u32, Refusal>
    ensures { spec.left (spec.labelled_of result) labels.new work.new ≡ spec.labels_outcome (given mesh.now) labels.old work.old }
{
    desk::judge(mesh, 0.0, mikktspace::LONGEST_ANSWER, work.len())?;
    let few = labels.len() < mesh.sizes.len();
    if few {
        return Err(Refusal::ShortOwn);
    }
    Ok(number_faces(mesh, work, labels))
}

// The lowest face number of its island for each face of 3 or 4, and FFFFFFFF for every other face. The work list is lent, and WORK_WORDS words a face of it are cleared.
// A refusal (1, 2, 4, 7 or 6 as for frames, and 9 where there is less than one label a face) alters neither list.
pub fn label_faces(
    sizes: &[u8],
    positions: &[f32],
    normals: &[f32],
    texture: &[f32],
    labels: &mut [u32],
    work: &mut [u32],
) -> Labelled
    ensures { spec.Labels (handed sizes.now positions.now normals.now texture.now) labels.old work.old result labels.new work.new }
{
    let mesh = Mesh {
        sizes,
        positions,
        normals,
        texture,
    };
    Labelled::from(try_labels(&mesh, labels, work))
}
