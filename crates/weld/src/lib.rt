// Step 4: corners with the same bits in all eight numbers are welded to the first of them.
// Carried over from mikktspace/weld_vertices.rs of the Rust crate bevy_mikktspace and ALTERED: written anew in Rattle, by buckets. See NOTICE.
// Each corner is compared with those of its bucket; on a mesh whose corners all fall into one bucket that is every corner with every other.
#![tactic(auto)]

ghost use Rattle.std.specs.Prelude.{◌≡◌, List, ℕ, ◌+◌, ◌*◌, ◌<◌, ◌≤◌, length};
ghost use Rattle.bits.specs.Word.{word};
ghost use Rattle.table.specs.Columns.{columns, corner_column, next_column};
ghost use Rattle.table.specs.Table.{column};
ghost use Rattle.definition.specs.Handed.{handed};
ghost use Rattle.definition.specs.declared.Triangle.{Triangle};
ghost use Rattle.definition.specs.Step4Order.{same_bits, same_vector, welded};
ghost use Rattle.view.specs.Frame.{Only};
ghost use Rattle.view.specs.Records.{three_of, Held};
ghost use Rattle.view.specs.Weld.{Vertices};
ghost use Rattle.weld.specs.Welding as spec;

use definition::Corner;
use math::Vec3;
use mesh::Mesh;

// ---- the same bits

// Whether two numbers have the same bits: -0.0 and 0.0 differ.
#[tactic(auto, unfolding(definition::specs::Step4Order::same_bits))]
fn same(x: f32, y: f32) -> bool
    ensures { result ≡ same_bits x y }
{
    bits::word(x) == bits::word(y)
}

// Whether two vectors have them in all three numbers.
#[tactic(auto, unfolding(definition::specs::Step4Order::same_vector))]
fn same_vector(a: Vec3, b: Vec3) -> bool
    ensures { result ≡ same_vector a b }
{
    same(a.x, b.x) & same(a.y, b.y) & same(a.z, b.z)
}

// Whether two corners have them in all eight, and one tag: then they are welded.
#[tactic(auto, unfolding(definition::specs::Step4Order::welded, definition::specs::Step4Order::same_numbers))]
fn same_corner(a: Corner, b: Corner) -> bool
    ensures { result ≡ welded a b }
{
    same_vector(a.place, b.place)
        & same_vector(a.normal, b.normal)
        & same(a.u, b.u)
        & same(a.v, b.v)
        & (a.tag == b.tag)
}

// ---- buckets

// A number's word mixed into h: the upper half of the product is added to the lower, since small whole numbers have their bits at the top.
#[tactic(auto, unfolding(crate::specs::Welding::mix))]
fn mixed(h: u64, x: f32) -> u64
    requires { h < 4294967296 }
    ensures { (result ≡ spec.mix h (word x)) × (result < 4294967296) }
{
    let p = (h + bits::word(x) as u64) % 0x1_0000_0000 * 0x9e37_79b1;
    (p / 0x1_0000_0000 + p) % 0x1_0000_0000
}

// The words of a vector's three numbers mixed into h.
#[tactic(auto, unfolding(crate::specs::Welding::mixture))]
fn mixed_vector(h: u64, a: Vec3) -> u64
    requires { h < 4294967296 }
    ensures { (result ≡ spec.mixture h (three_of a)) × (result < 4294967296) }
{
    mixed(mixed(mixed(h, a.x), a.y), a.z)
}

// The bucket of a corner, by the words of its eight numbers.
#[tactic(auto, unfolding(crate::specs::Welding::bucket_of, crate::specs::Welding::mixture))]
fn bucket(c: Corner, rows: usize) -> usize
    requires { 0 < rows }
    ensures { (result ≡ spec.bucket_of rows c) × (result < rows) }
{
    let h = mixed_vector(mixed_vector(0, c.place), c.normal);
    (mixed(mixed(h, c.u), c.v) % (rows as u64)) as usize
}

// ---- chains

// The corner whose number stands at row r.
fn corner_of(work: &[u32], rows: usize, r: usize, mesh: &Mesh) -> Corner
    requires { (r < rows) × (columns * rows ≤ length work.now) }
    ensures { result ≡ spec.corner_in mesh.now.positions.now mesh.now.normals.now mesh.now.texture.now (column rows corner_column work.now) r }
{
    mesh.corner_at(records::corner_at(work, rows, r))
}

// The first row of a chain whose corner has the bits of c, and one; 0 where there is none.
fn find(work: &[u32], rows: usize, mesh: &Mesh, c: Corner, from: u32) -> u32
    requires { (columns * rows ≤ length work.now) × (from < rows) × spec.Chain (column rows next_column work.now) from }
    ensures { spec.Finds (column rows next_column work.now) (λ k. welded c (spec.corner_in mesh.now.positions.now mesh.now.normals.now mesh.now.texture.now (column rows corner_column work.now) k)) from result }
{
    let mut p = from;
    while p != 0 {
        let r = (p - 1) as usize;
        let d = corner_of(work, rows, r, mesh);
        if same_corner(c, d) {
            return p;
        }
        p = work[table::NEXT * rows + r];
    }
    0
}

// ---- rows

// A row is its own vertex, and is put first into bucket b.
fn put_first(work: &mut [u32], rows: usize, row: u32, b: usize)
    requires { (columns * rows ≤ length work.old) × (row < rows) × (b < rows) × (rows < 4294967295) }
    ensures { work.new ≡ spec.put_first rows row b work.old }
{
    let r = row as usize;
    work[table::NEXT * rows + r] = work[table::HEAD * rows + b];
    work[table::HEAD * rows + b] = row + 1;
    work[table::VERTEX * rows + r] = row;
}

// One row more: its vertex is the row that its bucket has for its corner, or itself.
fn turn(work: &mut [u32], rows: usize, row: u32, mesh: &Mesh)
    requires { (columns * rows ≤ length work.old) × (row < rows) × (rows < 4294967295) × spec.GoingIn rows row mesh.now.positions.now mesh.now.normals.now mesh.now.texture.now work.old }
    ensures { spec.GoingIn rows (row + 1) mesh.now.positions.now mesh.now.normals.now mesh.now.texture.now work.new × Only spec.weld_columns rows work.old work.new }
{
    let r = row as usize;
    let c = corner_of(work, rows, r, mesh);
    let b = bucket(c, rows);
    let head = work[table::HEAD * rows + b];
    let p = find(work, rows, mesh, c, head);
    if p != 0 {
        work[table::VERTEX * rows + r] = p - 1;
        return;
    }
    put_first(work, rows, row, b);
}

// The corners of the first n rows: the vertex of each is the first row with the same bits in all eight numbers.
pub fn weld(work: &mut [u32], rows: usize, n: usize, mesh: &Mesh)
    requires { (n ≤ rows) × (columns * rows ≤ length work.old) × (rows < 4294967295) }
    ensures { spec.Welded rows n mesh.now.positions.now mesh.now.normals.now mesh.now.texture.now work.old work.new × ((sizes : List ℕ) (xs : List Triangle) (d : Triangle) → 3 * length xs ≡ n → Held rows (handed sizes mesh.now.positions.now mesh.now.normals.now mesh.now.texture.now) xs d work.old → Vertices rows xs d work.new) }
{
    table::clear(work, rows, table::HEAD);
    for r in 0..n {
        turn(work, rows, r as u32, mesh);
    }
}
