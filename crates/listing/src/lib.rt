// The triangles of all faces in columns of the work list: sound ones first, then degenerate ones, each in slot order (steps 1 to 3, and the order of step 4).
// Carried over from mikktspace.rs (generate_triangle_info_list, generate_tangent_space) of the Rust crate bevy_mikktspace and ALTERED: written anew in Rattle. See NOTICE.
#![tactic(auto)]

ghost use Rattle.std.specs.Prelude.{◌≡◌, [], ◌∷◌, ◌+◌, ◌*◌, ◌<◌, ◌≤◌, length};
ghost use Rattle.definition.specs.Handed.{corner_at, corners_from};
ghost use Rattle.definition.specs.Limits.{face_limit};
ghost use Rattle.definition.specs.Triangles.{nook, pieces};
ghost use Rattle.mesh.specs.Parts.{given};
ghost use Rattle.table.specs.Columns.{columns, rows_of};
ghost use Rattle.records.specs.Stored.{Small};
ghost use Rattle.listing.specs.Listing as spec;

use definition::{Kept, Triangle};
use mesh::Mesh;
use triangles::Two;

// ---- the triangles of a face

// A triangle that this pass asks for is added after the others.
fn add_one(
    work: &mut [u32],
    rows: usize,
    tris: usize,
    want: bool,
    base: u32,
    slot: u32,
    x: Triangle,
) -> usize
    requires { (3 * (tris + length (spec.pick want (x ∷ []))) ≤ rows) × (columns * rows ≤ length work.old) × Small base x × Small slot x }
    ensures { (result ≡ tris + length (spec.pick want (x ∷ []))) × spec.One rows want tris result base slot x work.old work.new }
{
    if x.degenerate == want {
        records::store(work, rows, tris, base, slot, x);
        return tris + 1;
    }
    tris
}

// Corner number which of the face whose corners start at number base.
fn kept_at(mesh: &Mesh, base: u32, which: u32) -> Kept
    requires { base + which < 4294967296 }
    ensures { result ≡ nook which (corner_at mesh.now.positions.now mesh.now.normals.now mesh.now.texture.now (base + which)) }
{
    Kept {
        which,
        corner: mesh.corner_at(base + which),
    }
}

// The triangles of a face: one of a face of three, two of a face of four, none of any other.
fn add_face(
    work: &mut [u32],
    rows: usize,
    mesh: &Mesh,
    want: bool,
    face: u32,
    size: u8,
    base: u32,
    slot: u32,
    tris: usize,
) -> usize
    requires { (base + 3 < 4294967296) × (slot + 3 < 4294967296) × (columns * rows ≤ length work.old) × (3 * (tris + length (spec.pick want (pieces face (corners_from mesh.now.positions.now mesh.now.normals.now mesh.now.texture.now base size)))) ≤ rows) }
    ensures { spec.Done rows want mesh.now.positions.now mesh.now.normals.now mesh.now.texture.now face base slot (pieces face (corners_from mesh.now.positions.now mesh.now.normals.now mesh.now.texture.now base size)) tris result work.old work.new }
{
    if size == 3 {
        let k0 = kept_at(mesh, base, 0);
        let k1 = kept_at(mesh, base, 1);
        let k2 = kept_at(mesh, base, 2);
        let x = triangles::make(face, false, 3, k0, k1, k2);
        return add_one(work, rows, tris, want, base, slot, x);
    }
    if size == 4 {
        let c0 = mesh.corner_at(base);
        let c1 = mesh.corner_at(base + 1);
        let c2 = mesh.corner_at(base + 2);
        let c3 = mesh.corner_at(base + 3);
        let Two { first, second } = triangles::quad(face, c0, c1, c2, c3);
        let k = add_one(work, rows, tris, want, base, slot, first);
        return add_one(work, rows, k, want, base, slot, second);
    }
    tris
}

// ---- the triangles of all faces

// One pass over the faces: the sound triangles, or the degenerate ones, after the first tris.
fn pass(work: &mut [u32], rows: usize, mesh: &Mesh, want: bool, tris: usize) -> usize
    requires { (length mesh.now.sizes.now ≤ face_limit) × (columns * rows ≤ length work.old) × (3 * (tris + length (spec.pick want (spec.rest_from mesh.now.positions.now mesh.now.normals.now mesh.now.texture.now 0 0 mesh.now.sizes.now))) ≤ rows) }
    ensures { spec.Added rows (given mesh.now) (spec.pick want (spec.rest_from mesh.now.positions.now mesh.now.normals.now mesh.now.texture.now 0 0 mesh.now.sizes.now)) tris result work.old work.new }
{
    let mut base: u32 = 0;
    let mut slot: u32 = 0;
    let mut k = tris;
    for (f, &size) in mesh.sizes.iter().enumerate() {
        k = add_face(work, rows, mesh, want, f as u32, size, base, slot, k);
        base += size as u32;
        slot += mesh::slots_of(size) as u32;
    }
    k
}

// How many triangles a face of a size has.
#[tactic(auto, unfolding(crate::specs::Listing::pieces_of))]
fn pieces_of(size: u8) -> usize
    ensures { (result ≡ spec.pieces_of size) × (result ≤ 2) }
{
    match size {
        3 => 1,
        4 => 2,
        _ => 0,
    }
}

// How many triangles all faces have.
fn pieces_in(sizes: &[u8]) -> usize
    requires { length sizes.now ≤ face_limit }
    ensures { result ≡ spec.piece_count sizes.now }
{
    let mut sum = 0;
    for &size in sizes {
        sum += pieces_of(size);
    }
    sum
}

// How many triangles are sound, and how many there are.
#[derive(Clone, Copy)]
pub struct TriangleCounts {
    pub sound: usize,
    pub all: usize,
}

// Steps 1 to 3, and the order of step 4.
pub fn list_triangles(work: &mut [u32], mesh: &Mesh) -> TriangleCounts
    requires { (length mesh.now.sizes.now ≤ face_limit) × (columns * rows_of (length mesh.now.sizes.now) ≤ length work.old) }
    ensures { spec.Listed (given mesh.now) result.sound result.all work.old work.new }
{
    let rows = 6 * mesh.sizes.len();
    let sound = pass(work, rows, mesh, false, 0);
    if pieces_in(mesh.sizes) <= sound {
        return TriangleCounts { sound, all: sound }; // none is degenerate
    }
    let all = pass(work, rows, mesh, true, sound);
    TriangleCounts { sound, all }
}
