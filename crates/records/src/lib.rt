// A triangle's record in the columns of the work list, in one place: how it is stored, and how each of its fields is read.
// Carried over from mikktspace.rs (TriangleInfo) of the Rust crate bevy_mikktspace and ALTERED: written anew in Rattle, over columns. See NOTICE.
// Columns 2 to 9 of crate `table`. Read elsewhere as well: ORIENTATION, which step 6 alters, and ANY in `groups`, `flat` and `fellows`; ORIENTATION in `spaces` and `examine`.
#![tactic(auto)]

ghost use Rattle.std.specs.Prelude.{◌≡◌, [], ◌∷◌, ◌+◌, ◌*◌, ◌<◌, ◌≤◌, eqb, length, get_or};
ghost use Rattle.std.proofs.lemmas.List.Edits.{sets};
ghost use Rattle.bits.specs.Word.{number};
ghost use Rattle.math.specs.Held.{HeldVec};
ghost use Rattle.tangent.specs.Slot.{flag, vector_of};
ghost use Rattle.tangent.specs.Held.{HeldSpace};
ghost use Rattle.table.specs.Columns.{columns, corner_column, slot_column, name_column, magnitude_column, any_column};
ghost use Rattle.table.specs.Table.{cell};
ghost use Rattle.view.specs.Stores.{storing};
ghost use Rattle.view.specs.Records.{numbers, names, three_of, lengths};
ghost use Rattle.records.specs.Fields as fields;
ghost use Rattle.records.specs.Stored as spec;

use definition::Triangle;
use math::Vec3;
use tangent::RawTangentSpace;

// ---- stored

// Three words from a place on.
#[tactic(auto, using(crate::proofs::Parts::part_set))]
fn put_three(work: &mut [u32], at: usize, words: [u32; 3])
    requires { at + 3 ≤ length work.old }
    ensures { work.new ≡ sets work.old at words }
{
    work[at..at + 3].copy_from_slice(&words);
}

// The numbers of a triangle's corners, or of their slots, where those of its face start at number base.
fn put_numbers(work: &mut [u32], at: usize, base: u32, x: Triangle)
    requires { (at + 3 ≤ length work.old) × spec.Small base x }
    ensures { work.new ≡ sets work.old at (numbers base x) }
{
    put_three(
        work,
        at,
        [base + x.a.which, base + x.b.which, base + x.c.which],
    );
}

// Its face, whether it is the second of it, the corner it misses.
fn put_names(work: &mut [u32], at: usize, x: Triangle)
    requires { at + 3 ≤ length work.old }
    ensures { work.new ≡ sets work.old at (names x) }
{
    put_three(work, at, [x.face, tangent::flag(x.second), x.missing]);
}

// A vector's three numbers.
fn put_vec(work: &mut [u32], at: usize, v: Vec3)
    requires { at + 3 ≤ length work.old }
    ensures { (work.new ≡ sets work.old at (three_of v)) × HeldVec v }
{
    put_three(
        work,
        at,
        [bits::word(v.x), bits::word(v.y), bits::word(v.z)],
    );
}

// The two magnitudes, and whether the quad is marked.
fn put_lengths(work: &mut [u32], at: usize, g: RawTangentSpace, m: bool)
    requires { at + 3 ≤ length work.old }
    ensures { (work.new ≡ sets work.old at (lengths g m)) × spec.Fits g.s_magnitude × spec.Fits g.t_magnitude }
{
    put_three(
        work,
        at,
        [
            bits::word(g.s_magnitude),
            bits::word(g.t_magnitude),
            tangent::flag(m),
        ],
    );
}

// The tangent in its three columns.
#[tactic(auto, unfolding(view::specs::Stores::storing))]
fn put_tangent(work: &mut [u32], rows: usize, t: usize, g: RawTangentSpace, m: bool)
    requires { (3 * t + 3 ≤ rows) × (columns * rows ≤ length work.old) }
    ensures { (work.new ≡ storing rows (spec.tangent_entries t g m) work.old) × HeldSpace g }
{
    put_vec(work, table::TANGENT_S * rows + 3 * t, g.s);
    put_vec(work, table::TANGENT_T * rows + 3 * t, g.t);
    put_lengths(work, table::MAGNITUDE * rows + 3 * t, g, m);
}

// The names and numbers in their three columns.
#[tactic(auto, unfolding(view::specs::Stores::storing))]
fn put_places(work: &mut [u32], rows: usize, t: usize, base: u32, slot: u32, x: Triangle)
    requires { (3 * t + 3 ≤ rows) × (columns * rows ≤ length work.old) × spec.Small base x × spec.Small slot x }
    ensures { work.new ≡ storing rows (spec.place_entries t base slot x) work.old }
{
    put_numbers(work, table::CORNER * rows + 3 * t, base, x);
    put_numbers(work, table::SLOT * rows + 3 * t, slot, x);
    put_names(work, table::NAME * rows + 3 * t, x);
}

// The orientation and `group_with_any`, at the triangle's own row.
#[tactic(auto, unfolding(view::specs::Stores::storing))]
fn put_flags(work: &mut [u32], rows: usize, t: usize, way: bool, any: bool)
    requires { (3 * t + 3 ≤ rows) × (columns * rows ≤ length work.old) }
    ensures { work.new ≡ storing rows (spec.flag_entries t way any) work.old }
{
    work[table::ORIENTATION * rows + t] = tangent::flag(way);
    work[table::ANY * rows + t] = tangent::flag(any);
}

// A triangle, whole.
#[tactic(auto, unfolding(crate::specs::Stored::stored))]
pub fn store(work: &mut [u32], rows: usize, t: usize, base: u32, slot: u32, x: Triangle)
    requires { (3 * t + 3 ≤ rows) × (columns * rows ≤ length work.old) × spec.Small base x × spec.Small slot x }
    ensures { (work.new ≡ spec.stored rows t base slot x work.old) × HeldSpace x.tangent }
{
    put_places(work, rows, t, base, slot, x);
    put_tangent(work, rows, t, x.tangent, x.marked);
    put_flags(work, rows, t, x.orientation, x.any);
}

// ---- read

// The number of the corner at row r.
pub fn corner_at(work: &[u32], rows: usize, r: usize) -> u32
    requires { (r < rows) × (columns * rows ≤ length work.now) }
    ensures { result ≡ cell rows corner_column r work.now }
{
    work[table::CORNER * rows + r]
}

// The number of its slot.
pub fn slot_at(work: &[u32], rows: usize, r: usize) -> u32
    requires { (r < rows) × (columns * rows ≤ length work.now) }
    ensures { result ≡ cell rows slot_column r work.now }
{
    work[table::SLOT * rows + r]
}

// The face of triangle t.
pub fn face_at(work: &[u32], rows: usize, t: usize) -> u32
    requires { (3 * t < rows) × (columns * rows ≤ length work.now) }
    ensures { result ≡ cell rows name_column (3 * t) work.now }
{
    work[table::NAME * rows + 3 * t]
}

// The corner of its face that triangle t misses.
pub fn missing_at(work: &[u32], rows: usize, t: usize) -> u32
    requires { (3 * t + 3 ≤ rows) × (columns * rows ≤ length work.now) }
    ensures { result ≡ cell rows name_column (3 * t + 2) work.now }
{
    work[table::NAME * rows + (3 * t + 2)]
}

// Whether triangle t is of a quad with exactly one degenerate triangle.
#[tactic(auto, unfolding(crate::specs::Fields::marked_at))]
pub fn is_marked(work: &[u32], rows: usize, t: usize) -> bool
    requires { (3 * t + 3 ≤ rows) × (columns * rows ≤ length work.now) }
    ensures { result ≡ fields.marked_at rows work.now t }
{
    work[table::MAGNITUDE * rows + (3 * t + 2)] == 1
}

// Whether triangle t is `group_with_any`.
pub fn is_any(work: &[u32], rows: usize, t: usize) -> bool
    requires { (t < rows) × (columns * rows ≤ length work.now) }
    ensures { result ≡ eqb (cell rows any_column t work.now) 1 }
{
    work[table::ANY * rows + t] == 1
}

// The magnitude of the s of its first-order tangent.
pub fn s_magnitude_at(work: &[u32], rows: usize, t: usize) -> f32
    requires { (3 * t < rows) × (columns * rows ≤ length work.now) }
    ensures { result ≡ number (cell rows magnitude_column (3 * t) work.now) }
{
    bits::number(work[table::MAGNITUDE * rows + 3 * t])
}

// The magnitude of its t.
pub fn t_magnitude_at(work: &[u32], rows: usize, t: usize) -> f32
    requires { (3 * t < rows) × (columns * rows ≤ length work.now) }
    ensures { result ≡ number (cell rows magnitude_column (3 * t + 1) work.now) }
{
    bits::number(work[table::MAGNITUDE * rows + (3 * t + 1)])
}

// The vector of three words.
#[tactic(auto, unfolding(tangent::specs::Slot::vector_of))]
pub fn vector_of(work: &[u32], x: usize, y: usize, z: usize) -> Vec3
    requires { (x < length work.now) × (y < length work.now) × (z < length work.now) }
    ensures { result ≡ vector_of (get_or work.now x 0) (get_or work.now y 0) (get_or work.now z 0) }
{
    Vec3::new(
        bits::number(work[x]),
        bits::number(work[y]),
        bits::number(work[z]),
    )
}

// The vector of three words from a place on.
fn vector_from(work: &[u32], at: usize) -> Vec3
    requires { at + 3 ≤ length work.now }
    ensures { result ≡ vector_of (get_or work.now at 0) (get_or work.now (at + 1) 0) (get_or work.now (at + 2) 0) }
{
    vector_of(work, at, at + 1, at + 2)
}

// The first-order tangent of triangle t.
#[tactic(auto, unfolding(crate::specs::Fields::tangent_at))]
pub fn tangent_at(work: &[u32], rows: usize, t: usize) -> RawTangentSpace
    requires { (3 * t + 3 ≤ rows) × (columns * rows ≤ length work.now) }
    ensures { result ≡ fields.tangent_at rows t work.now }
{
    RawTangentSpace {
        s: vector_from(work, table::TANGENT_S * rows + 3 * t),
        t: vector_from(work, table::TANGENT_T * rows + 3 * t),
        s_magnitude: s_magnitude_at(work, rows, t),
        t_magnitude: t_magnitude_at(work, rows, t),
    }
}
