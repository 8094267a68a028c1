// Request E9: the mesh in islands.
#![tactic(auto)]

ghost use Rattle.std.specs.Prelude.{◌≡◌, true, cond, List, [], ◌∷◌, ℕ, ◌+◌, ◌*◌, ◌-◌, ◌/◌, ◌<◌, ◌≤◌, ◌^◌, length, drop};
ghost use Rattle.definition.specs.Handed.{used};
ghost use Rattle.mesh.specs.Parts.{given as mesh_given};
ghost use Rattle.definition.specs.Limits.{face_limit};
ghost use Rattle.table.specs.Columns.{columns, rows_of};
ghost use Rattle.view.specs.Frame.{Only};
ghost use Rattle.unions.specs.Unions.{Downward, United};
ghost use Rattle.islands.specs.Islands.{no_island};
ghost use Rattle.islands.specs.Rows as spec;

use mesh::Mesh;

// ---- the corners in rows

// A face of 3 or 4, as number k of them: its corners at rows 4k to 4k + 3 (a face of three has its last twice), its number at row k.
fn add_face(work: &mut [u32], rows: usize, k: usize, face: u32, base: u32, size: u8)
    requires { (4 * k + 4 ≤ rows) × (columns * rows ≤ length work.old) × (base + 255 < 2 ^ 32) × (3 ≤ size) }
    ensures { work.new ≡ spec.added rows k face base size work.old }
{
    let at = table::CORNER * rows + 4 * k;
    work[at] = base;
    work[at + 1] = base + 1;
    work[at + 2] = base + 2;
    work[at + 3] = base + (size as u32 - 1);
    work[table::NAME * rows + k] = face;
}

// One face more; the result is how many are of 3 or 4 by now.
fn list_face(work: &mut [u32], rows: usize, k: usize, face: u32, base: u32, size: u8) -> usize
    requires { (4 * k + 4 ≤ rows) × (columns * rows ≤ length work.old) × (base + 255 < 2 ^ 32) }
    ensures { (result ≡ cond (used size) (k + 1) k) × (work.new ≡ cond (used size) (spec.added rows k face base size work.old) work.old) }
{
    if mesh::slots_of(size) == 0 {
        return k;
    }
    add_face(work, rows, k, face, base, size);
    k + 1
}

// All faces; the result is how many are of 3 or 4.
fn list_faces(sizes: &[u8], work: &mut [u32]) -> usize
    requires { (length sizes.now ≤ face_limit) × (columns * rows_of (length sizes.now) ≤ length work.old) }
    ensures { spec.FacesListed sizes.now (length sizes.now) result (spec.corner_row (rows_of (length sizes.now)) work.new) (spec.face_row (rows_of (length sizes.now)) work.new) × Only spec.list_columns (rows_of (length sizes.now)) work.old work.new }
{
    let rows = 6 * sizes.len();
    let mut k = 0;
    let mut base: u32 = 0;
    for (f, &size) in sizes.iter().enumerate() {
        k = list_face(work, rows, k, f as u32, base, size);
        base += size as u32;
    }
    k
}

// ---- faces united

// The face of a row and that of its vertex are in one island.
fn unite_row(work: &[u32], rows: usize, r: usize, labels: &mut [u32], count: usize)
    requires { (r < rows) × (columns * rows ≤ length work.now) × (count ≤ length labels.old) × Downward count labels.old × (spec.vertex_row rows work.now r ≤ r) × (spec.face_row rows work.now (r / 4) < count) × (spec.face_row rows work.now (spec.vertex_row rows work.now r / 4) < count) }
    ensures { United count labels.old labels.new (spec.face_row rows work.now (r / 4)) (spec.face_row rows work.now (spec.vertex_row rows work.now r / 4)) }
{
    let v = work[table::VERTEX * rows + r] as usize;
    let a = work[table::NAME * rows + r / 4];
    let b = work[table::NAME * rows + v / 4];
    unions::unite(labels, count, a, b);
}

// The same of the first n rows.
fn unite_rows(work: &[u32], rows: usize, n: usize, labels: &mut [u32], count: usize)
    requires { (n ≤ rows) × (columns * rows ≤ length work.now) × (count ≤ length labels.old) × Downward count labels.old × spec.Readable count rows n (spec.face_row rows work.now) (spec.vertex_row rows work.now) }
    ensures { spec.Woven count (spec.face_row rows work.now) (spec.vertex_row rows work.now) labels.old labels.new n }
{
    for r in 0..n {
        unite_row(work, rows, r, labels, count);
    }
}

// ---- labels

// What a face that is not of 3 or 4 is given in place of an island's number.
const NO_ISLAND: u32 = 0xffff_ffff;

// What a face of a size is given: its number where it is of 3 or 4, FFFFFFFF else.
fn given(size: u8, label: u32) -> u32
    ensures { result ≡ cond (used size) label no_island }
{
    if mesh::slots_of(size) == 0 {
        return NO_ISLAND;
    }
    label
}

// The same of all faces.
fn strike(sizes: &[u8], labels: &mut [u32])
    requires { length sizes.now ≤ length labels.old }
    ensures { spec.Struck sizes.now labels.old labels.new }
{
    for (f, &size) in sizes.iter().enumerate() {
        labels[f] = given(size, labels[f]);
    }
}

// The lowest face number of the island of each face of 3 or 4, and FFFFFFFF for the others.
pub fn label(mesh: &Mesh, labels: &mut [u32], work: &mut [u32])
    requires { (length mesh.now.sizes.now ≤ face_limit) × (length mesh.now.sizes.now ≤ length labels.old) × (columns * rows_of (length mesh.now.sizes.now) ≤ length work.old) }
    ensures { (labels.new ≡ spec.labelled (mesh_given mesh.now) labels.old) × (length work.new ≡ length work.old) × (drop (columns * rows_of (length mesh.now.sizes.now)) work.new ≡ drop (columns * rows_of (length mesh.now.sizes.now)) work.old) }
{
    let faces = mesh.sizes.len();
    let rows = 6 * faces;
    unions::alone(labels, faces);
    let k = list_faces(mesh.sizes, work);
    weld::weld(work, rows, 4 * k, mesh);
    unite_rows(work, rows, 4 * k, labels, faces);
    unions::settle(labels, faces);
    strike(mesh.sizes, labels);
}
