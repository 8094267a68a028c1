// The public call: the desk, then steps 1 to 9.
// Carried over from mikktspace.rs (generate_tangent_space) of the Rust crate bevy_mikktspace and ALTERED: written anew in Rattle, over lists that are lent. See NOTICE.
#![tactic(auto)]

ghost use Rattle.std.specs.Prelude.{◌≡◌, ◌*◌, ◌≤◌, length};
ghost use Rattle.std.proofs.Math.Option.{none};
ghost use Rattle.definition.specs.Handed.{call, handed};
ghost use Rattle.definition.specs.Desk.{shown, verdict};
ghost use Rattle.definition.specs.Outcome.{accepted, outcome};
ghost use Rattle.mesh.specs.Parts.{given};
ghost use Rattle.mikktspace.specs.Contract as spec;

use desk::Refusal;
use mesh::Mesh;

// The words of the longest answer list that a mesh can need: four slots a face.
pub const LONGEST_ANSWER: usize = tangent::SLOT_WORDS * (4 * definition::FACE_LIMIT);

// What the call says: the number of a refusal and its place, or 0 and 0; and how many slots were written.
#[repr(C)]
#[derive(Clone, Copy)]
pub struct Outcome {
    pub number: u32,
    pub place: u32,
    pub slots: u32,
}

// How many slots were written, or why none were, as it is handed out.
impl From<Result<u32, Refusal>> for Outcome {
    ghost from_gives = { λ made outcome. outcome ≡ spec.outcome_of made };

    #[tactic(auto, unfolding(crate::specs::Contract::outcome_of))]
    fn from(made: Result<u32, Refusal>) -> Outcome {
        match made {
            Ok(slots) => Outcome {
                number: 0,
                place: 0,
                slots,
            },
            Err(refusal) => Outcome {
                number: refusal.number(),
                place: refusal.place(),
                slots: 0,
            },
        }
    }
}

// The first words of a list that is lent, zeros; the rest stands.
#[tactic(auto, unfolding(crate::specs::Contract::cleared_first))]
fn clear_first(list: &mut [u32], count: usize)
    requires { count ≤ length list.old }
    ensures { list.new ≡ spec.cleared_first count list.old }
{
    table::clear_first(list, count);
}

// Steps 1 to 9 for a mesh that the desk accepts; the result is how many slots there are.
pub fn make_frames(mesh: &Mesh, work: &mut [u32], answer: &mut [u32], threshold: f32) -> u32
    requires { verdict (shown (given mesh.now) threshold (length answer.old) (length work.old)) ≡ none }
    ensures { spec.left (record { number = 0; place = 0; slots = result }) answer.new work.new ≡ accepted (call (given mesh.now) threshold answer.old work.old) }
{
    let faces = mesh.sizes.len();
    let slots = mesh::slots_before(mesh.sizes, definition::FACE_LIMIT);
    clear_first(answer, tangent::SLOT_WORDS * slots);
    let counts = grouped::group_mesh(mesh, work);
    last::finish_frames(
        work,
        6 * faces,
        table::CORNER,
        counts,
        mesh,
        threshold,
        answer,
    );
    clear_first(work, definition::WORK_WORDS * faces);
    slots as u32
}

// The desk, then steps 1 to 9: how many slots were written, or why none were.
fn try_frames(
    mesh: &Mesh,
    threshold: f32,
    answer: &mut [u32],
    work: &mut [u32],
) -> Result<u32, Refusal>
    ensures { spec.left (spec.outcome_of result) answer.new work.new ≡ outcome (call (given mesh.now) threshold answer.old work.old) }
{
    desk::judge(mesh, threshold, answer.len(), work.len())?;
    Ok(make_frames(mesh, work, answer, threshold))
}

// Tangent frames of a mesh: faces of these sizes, their corners' positions, normals and texture coordinates, at a threshold for the cosine of an angle. SLOT_WORDS words for each slot are written to the answer list; the work list is lent, and WORK_WORDS words a face of it are cleared.
// A refusal (a number from 1 to 7) alters neither list.
pub fn generate_tangent_space(
    sizes: &[u8],
    positions: &[f32],
    normals: &[f32],
    texture: &[f32],
    threshold: f32,
    answer: &mut [u32],
    work: &mut [u32],
) -> Outcome
    ensures { spec.Contract (call (handed sizes.now positions.now normals.now texture.now) threshold answer.old work.old) result answer.new work.new }
{
    let mesh = Mesh {
        sizes,
        positions,
        normals,
        texture,
    };
    Outcome::from(try_frames(&mesh, threshold, answer, work))
}
