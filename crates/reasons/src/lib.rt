// Why a slot is absent: a public call that makes the frames and says of each absent slot which of three reasons it has.
// A trial tells them apart: step 9 over an answer list in which every slot has a frame. A slot that has none afterwards had nothing to copy; one
// that has a copy copies; any other is a sound triangle's own.
#![tactic(auto)]

ghost use Rattle.std.specs.Prelude.{◌≡◌, ◌++◌, ◌+◌, ◌*◌, ◌≤◌, length, get_or, drop};
ghost use Rattle.std.proofs.Math.Option.{none};
ghost use Rattle.lists.specs.Loops.{list_of};
ghost use Rattle.lists.specs.Parts.{joined};
ghost use Rattle.tangent.specs.Slot.{slot_words};
ghost use Rattle.table.specs.Columns.{columns, rows_of};
ghost use Rattle.definition.specs.Handed.{call, handed, mesh_of, slot_count};
ghost use Rattle.definition.specs.Limits.{face_limit};
ghost use Rattle.definition.specs.Desk.{not_finite};
ghost use Rattle.definition.specs.Outcome.{answer_words};
ghost use Rattle.mesh.specs.Parts.{given};
ghost use Rattle.mikktspace.specs.Contract.{outcome_of};
ghost use Rattle.reasons.specs.Trial as trial;
ghost use Rattle.reasons.specs.Reasons as spec;
ghost use Rattle.reasons.specs.Contract as contract;

use desk::Refusal;
use mesh::Mesh;
use mikktspace::Outcome;

// The slot is there.
pub const PRESENT: u8 = 0;

// Its corner is one of a degenerate triangle whose face is no marked quad, and no sound corner is welded to it.
pub const UNWELDED: u8 = 1;

// It copies a corner that is absent itself.
pub const COPIES_ABSENT: u8 = 2;

// It belongs to sound triangles, all of them `group_with_any`, and no group reached it.
pub const UNREACHED: u8 = 3;

// The word of a slot that tells where its frame comes from.
const ORIGIN: usize = 10;

// ---- the trial

// A frame in each of `count` slots, which no triangle stands behind.
fn fill(answer: &mut [u32], count: usize)
    requires { slot_words * count ≤ length answer.old }
    ensures { answer.new ≡ joined count (λ s. trial.tried_words) ++ drop (slot_words * count) answer.old }
{
    for s in 0..count {
        slots::put(
            answer,
            s,
            [1, 0, 0, 0, 0, 0, 0, 0, 0, 0, tangent::SINGLE, 0],
        );
    }
}

// Step 9 where every slot has a frame.
fn try_copies(mesh: &Mesh, work: &mut [u32], answer: &mut [u32], slots: usize)
    requires { (length mesh.now.sizes.now ≤ face_limit) × (columns * rows_of (length mesh.now.sizes.now) ≤ length work.old) × (slot_words * slot_count mesh.now.sizes.now ≤ length answer.old) × (slots ≡ slot_count mesh.now.sizes.now) × (not_finite (given mesh.now) ≡ none) }
    ensures { (answer.new ≡ answer_words (trial.trial (mesh_of (given mesh.now))) ++ drop (slot_words * slot_count mesh.now.sizes.now) answer.old) × (drop (columns * rows_of (length mesh.now.sizes.now)) work.new ≡ drop (columns * rows_of (length mesh.now.sizes.now)) work.old) }
{
    fill(answer, slots);
    let rows = 6 * mesh.sizes.len();
    let counts = grouped::link_mesh(mesh, work);
    copies::copy_frames(work, rows, counts.sound, counts.all, mesh.positions, answer);
}

// ---- bytes

// The reason that a slot has where it is absent, by the origin of what it has in the trial.
#[tactic(auto, unfolding(crate::specs::Reasons::reason_by))]
fn reason_by(origin: u32) -> u8
    ensures { result ≡ spec.reason_by origin }
{
    match origin {
        0 => UNWELDED,
        tangent::SINGLE => UNREACHED,
        _ => COPIES_ABSENT,
    }
}

// Those of `count` slots of the trial.
fn note_reasons(answer: &[u32], reasons: &mut [u8], count: usize)
    requires { (slot_words * count ≤ length answer.now) × (count ≤ length reasons.old) }
    ensures { reasons.new ≡ list_of count (λ s. spec.reason_by (get_or answer.now (slot_words * s + spec.origin_word) 0)) ++ drop count reasons.old }
{
    for s in 0..count {
        reasons[s] = reason_by(answer[tangent::SLOT_WORDS * s + ORIGIN]);
    }
}

// A slot's reason, by its word 0: none where it is there.
#[tactic(auto, unfolding(crate::specs::Reasons::only_absent))]
fn reason_of(there: u32, noted: u8) -> u8
    ensures { result ≡ spec.only_absent there noted }
{
    match there {
        0 => noted,
        _ => PRESENT,
    }
}

// The reasons of `count` slots that are absent; the others have none.
fn strike(answer: &[u32], reasons: &mut [u8], count: usize)
    requires { (slot_words * count ≤ length answer.now) × (count ≤ length reasons.old) }
    ensures { reasons.new ≡ list_of count (λ s. spec.only_absent (get_or answer.now (slot_words * s) 0) (get_or reasons.old s 0)) ++ drop count reasons.old }
{
    for s in 0..count {
        reasons[s] = reason_of(answer[tangent::SLOT_WORDS * s], reasons[s]);
    }
}

// ---- the call

// The desk, the list for the reasons, the trial, and then the frames: how many slots were written, or why none were.
fn try_reasons(
    mesh: &Mesh,
    threshold: f32,
    answer: &mut [u32],
    work: &mut [u32],
    reasons: &mut [u8],
) -> Result<u32, Refusal>
    ensures { contract.left (outcome_of result) answer.new work.new reasons.new ≡ contract.reasons_outcome (call (given mesh.now) threshold answer.old work.old) reasons.old }
{
    desk::judge(mesh, threshold, answer.len(), work.len())?;
    let slots = mesh::slots_before(mesh.sizes, definition::FACE_LIMIT);
    let few = reasons.len() < slots;
    if few {
        return Err(Refusal::ShortOwn);
    }
    try_copies(mesh, work, answer, slots);
    note_reasons(answer, reasons, slots);
    let made = mikktspace::make_frames(mesh, work, answer, threshold);
    strike(answer, reasons, slots);
    Ok(made)
}

// Tangent frames of a mesh, as mikktspace::generate_tangent_space makes them, and a byte for each slot: why it is absent, or 0.
// A refusal (1 to 7 as for frames, and 9 where there is less than one byte a slot) alters no list.
pub fn explain(
    sizes: &[u8],
    positions: &[f32],
    normals: &[f32],
    texture: &[f32],
    threshold: f32,
    answer: &mut [u32],
    work: &mut [u32],
    reasons: &mut [u8],
) -> Outcome
    ensures { contract.Explains (call (handed sizes.now positions.now normals.now texture.now) threshold answer.old work.old) reasons.old result answer.new work.new reasons.new }
{
    let mesh = Mesh {
        sizes,
        positions,
        normals,
        texture,
    };
    Outcome::from(try_reasons(&mesh, threshold, answer, work, reasons))
}
