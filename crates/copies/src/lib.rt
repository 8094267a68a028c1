// Step 9: corners of degenerate triangles copy, then the missing corners of marked quads.
// Carried over from mikktspace.rs (generate_tangent_spaces_for_degenerate_triangles, generate_tangent_spaces_for_partially_degenerate_quads) of the Rust crate bevy_mikktspace and ALTERED: written anew in Rattle, over columns: the first corner welded to a corner is a word, so nothing is searched. See NOTICE.
#![tactic(auto)]

ghost use Rattle.std.specs.Prelude.{◌≡◌, ◌+◌, ◌*◌, ◌^◌, ◌≤◌, ◌<◌, length};
ghost use Rattle.table.specs.Table.{cell};
ghost use Rattle.table.specs.Columns.{columns, corner_column, name_column};
ghost use Rattle.definition.specs.Handed.{vector_at};
ghost use Rattle.copies.specs.Copies as spec;

use math::Vec3;

// ---- degenerate triangles

// The corner at row r: what the first sound corner welded to it has, absent or not; absent where there is none.
#[tactic(auto, unfolding(crate::specs::Copies::corner_copied))]
fn copy_corner(work: &[u32], rows: usize, sound: usize, r: usize, answer: &mut [u32])
    requires { (r < rows) × (3 * sound ≤ rows) × (columns * rows ≤ length work.now) }
    ensures { answer.new ≡ spec.corner_copied rows sound work.now r answer.old }
{
    let first = work[table::VERTEX * rows + r] as usize;
    let to = records::slot_at(work, rows, r) as usize;
    if first < 3 * sound {
        let from = records::slot_at(work, rows, first) as usize;
        slots::copy(answer, from, to, false);
    } else {
        slots::clear(answer, to);
    }
}

// The three corners of triangle t, unless its quad is marked.
#[tactic(auto, unfolding(crate::specs::Copies::triangle_copied))]
fn copy_triangle(work: &[u32], rows: usize, sound: usize, t: usize, answer: &mut [u32])
    requires { (3 * t + 3 ≤ rows) × (3 * sound ≤ rows) × (columns * rows ≤ length work.now) }
    ensures { answer.new ≡ spec.triangle_copied rows sound work.now t answer.old }
{
    if records::is_marked(work, rows, t) {
        return;
    }
    let at = 3 * t;
    copy_corner(work, rows, sound, at, answer);
    copy_corner(work, rows, sound, at + 1, answer);
    copy_corner(work, rows, sound, at + 2, answer);
}

// All degenerate triangles: those from number sound on.
fn copy_degenerate(work: &[u32], rows: usize, sound: usize, all: usize, answer: &mut [u32])
    requires { (sound ≤ all) × (3 * all ≤ rows) × (columns * rows ≤ length work.now) }
    ensures { answer.new ≡ spec.broken_copied rows sound work.now all answer.old }
{
    for t in sound..all {
        copy_triangle(work, rows, sound, t, answer);
    }
}

// ---- marked quads

// The number of the corner (or slot) that a triangle misses, from that of its first corner, which is 0 in its quad unless 0 is the missing one.
#[tactic(auto, unfolding(crate::specs::Copies::missed))]
fn missed(first: usize, missing: usize) -> usize
    requires { (first < 2 ^ 32) × (missing < 2 ^ 32) }
    ensures { (result ≡ spec.missed first missing) × (result < 2 ^ 33) }
{
    if missing == 0 {
        first.saturating_sub(1)
    } else {
        first + missing
    }
}

// That of triangle t, from the number of its first corner, or of its slot.
fn missed_of(work: &[u32], rows: usize, t: usize, first: u32) -> usize
    requires { (3 * t + 3 ≤ rows) × (columns * rows ≤ length work.now) }
    ensures { (result ≡ spec.missed first (cell rows name_column (3 * t + 2) work.now)) × (result < 2 ^ 33) }
{
    missed(first as usize, records::missing_at(work, rows, t) as usize)
}

// The position of corner number i: mesh::vector_at for a number that may take 33 bits.
#[tactic(auto, unfolding(definition::specs::Handed::vector_at))]
fn place_at(positions: &[f32], i: usize) -> Vec3
    requires { i < 2 ^ 33 }
    ensures { result ≡ vector_at positions.now i }
{
    let at = i * 3;
    Vec3 {
        x: mesh::number_at(positions, at),
        y: mesh::number_at(positions, at + 1),
        z: mesh::number_at(positions, at + 2),
    }
}

// The position of the corner at row r.
fn corner_place(work: &[u32], rows: usize, positions: &[f32], r: usize) -> Vec3
    requires { (r < rows) × (columns * rows ≤ length work.now) }
    ensures { result ≡ vector_at positions.now (cell rows corner_column r work.now) }
{
    place_at(positions, records::corner_at(work, rows, r) as usize)
}

// The row of the first corner of triangle t at a position; its last where it is neither of the others.
#[tactic(auto, unfolding(crate::specs::Copies::kept_at, math::specs::Vector::equals))]
fn kept_at(work: &[u32], rows: usize, positions: &[f32], t: usize, place: Vec3) -> usize
    requires { (3 * t + 3 ≤ rows) × (columns * rows ≤ length work.now) }
    ensures { (result ≡ spec.kept_at rows positions.now work.now t place) × (result < rows) }
{
    let at = 3 * t;
    if corner_place(work, rows, positions, at) == place {
        at
    } else if corner_place(work, rows, positions, at + 1) == place {
        at + 1
    } else {
        at + 2
    }
}

// The row of the first corner of triangle t at the position of the corner that it misses.
fn equal_at(work: &[u32], rows: usize, positions: &[f32], t: usize) -> usize
    requires { (3 * t + 3 ≤ rows) × (columns * rows ≤ length work.now) }
    ensures { (result ≡ spec.equal_at rows positions.now work.now t) × (result < rows) }
{
    let gone = missed_of(work, rows, t, records::corner_at(work, rows, 3 * t));
    kept_at(work, rows, positions, t, place_at(positions, gone))
}

// The missing corner of the quad of triangle t, if that is marked.
#[tactic(auto, unfolding(crate::specs::Copies::missing_copied))]
fn copy_missing(work: &[u32], rows: usize, positions: &[f32], t: usize, answer: &mut [u32])
    requires { (3 * t + 3 ≤ rows) × (columns * rows ≤ length work.now) }
    ensures { answer.new ≡ spec.missing_copied rows positions.now work.now t answer.old }
{
    if records::is_marked(work, rows, t) {
        let row = equal_at(work, rows, positions, t);
        let kept = records::slot_at(work, rows, row) as usize;
        let gone = missed_of(work, rows, t, records::slot_at(work, rows, 3 * t));
        slots::copy(answer, kept, gone, true);
    }
}

// Of all sound triangles.
fn copy_all_missing(work: &[u32], rows: usize, sound: usize, positions: &[f32], answer: &mut [u32])
    requires { (3 * sound ≤ rows) × (columns * rows ≤ length work.now) }
    ensures { answer.new ≡ spec.missings_copied rows positions.now work.now sound answer.old }
{
    for t in 0..sound {
        copy_missing(work, rows, positions, t, answer);
    }
}

// ---- the step

// The answer list shows what was brought to each slot, and then its final reading.
#[tactic(auto, using(crate::proofs::Turns::copied_frames), unfolding(crate::specs::Copies::frames_copied))]
pub fn copy_frames(
    work: &[u32],
    rows: usize,
    sound: usize,
    all: usize,
    positions: &[f32],
    answer: &mut [u32],
)
    requires { (sound ≤ all) × (3 * all ≤ rows) × (columns * rows ≤ length work.now) }
    ensures { spec.Copied rows sound all positions.now work.now answer.old answer.new }
{
    copy_degenerate(work, rows, sound, all, answer);
    copy_all_missing(work, rows, sound, positions, answer);
}
