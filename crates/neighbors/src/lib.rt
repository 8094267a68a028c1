// The side beyond each side: step 5 on the columns of the work list, by a sort and then a number of steps that is linear in the sides.
// Carried over from mikktspace.rs (build_neighbors) of the Rust crate bevy_mikktspace and ALTERED: written anew in Rattle. See NOTICE.
#![tactic(auto)]

ghost use Rattle.std.specs.Prelude.{◌≡◌, List, [], ◌∷◌, ℕ, ◌*◌, ◌≤◌, ◌<◌, min, max, length, IfSome};
ghost use Rattle.table.specs.Columns.{columns, link_column};
ghost use Rattle.lists.specs.Loops.{up_to};
ghost use Rattle.table.specs.Table.{cell};
ghost use Rattle.definition.specs.declared.Triangle.{Triangle};
ghost use Rattle.definition.specs.Step5Links.{links};
ghost use Rattle.definition.specs.Names.{Names};
ghost use Rattle.view.specs.Frame.{Only};
ghost use Rattle.view.specs.Weld.{Welds, Sharp};
ghost use Rattle.view.specs.Links.{Linked};
ghost use Rattle.neighbors.specs.Links as spec;
ghost use Rattle.neighbors.specs.Links.{Ready};
ghost use Rattle.neighbors.specs.Cursors.{Stands, Moves};
ghost use Rattle.neighbors.specs.Sides as sides;

// Two places in the order of the sides: of the side that looks for a mate, and of the one that it looks at.
#[derive(Clone, Copy)]
struct Cursors {
    near: usize,
    far: usize,
}

// A word as an index, for the crates that read words so.
pub fn wide(x: u32) -> usize
    ensures { result ≡ x }
{
    x as usize
}

// The side beyond side r.
pub fn link_at(work: &[u32], rows: usize, n: usize, r: usize) -> Option<usize>
    requires { (r < n) × (n ≤ rows) × (columns * rows ≤ length work.now) × (cell rows link_column r work.now ≤ n) }
    ensures { (result ≡ spec.link_of (cell rows link_column r work.now)) × IfSome result (λ u. u < n) }
{
    (work[table::LINK * rows + r] as usize).checked_sub(1)
}

// ---- the sides in their columns

// The row of the corner in which the side of row r ends.
#[tactic(auto, unfolding(crate::specs::Sides::end_row))]
pub fn end_of(r: usize) -> usize
    requires { r < 4294967295 }
    ensures { result ≡ sides.end_row r }
{
    if r % 3 == 2 { r - 2 } else { r + 1 }
}

// The side of row r: its ends by the words of a column, its place in the order, no link.
#[tactic(auto, unfolding(crate::specs::Sides::with_side))]
fn put_side(work: &mut [u32], rows: usize, column: usize, tris: usize, r: usize)
    requires { (column < columns) × (r < 3 * tris) × (3 * tris ≤ rows) × (columns * rows ≤ length work.old) × (rows < 4294967295) }
    ensures { work.new ≡ sides.with_side rows column r work.old }
{
    let a = work[column * rows + r];
    let b = work[column * rows + end_of(r)];
    work[table::LOWER * rows + r] = a.min(b);
    work[table::HIGHER * rows + r] = a.max(b);
    work[table::ORDER * rows + r] = r as u32;
    work[table::LINK * rows + r] = 0;
}

// All sides of the triangles, their ends by the words of a column.
pub fn put_sides(work: &mut [u32], rows: usize, column: usize, tris: usize)
    requires { (column < columns) × (3 * tris ≤ rows) × (columns * rows ≤ length work.old) × (rows < 4294967295) }
    ensures { work.new ≡ up_to (3 * tris) (sides.with_side rows column) work.old }
{
    // by the row's number, since a turn writes to four columns of the list, which no iterator lends together
    for r in 0..3 * tris {
        put_side(work, rows, column, tris, r);
    }
}

// All sides of the triangles in their order, none of them linked.
pub fn order_sides(work: &mut [u32], rows: usize, tris: usize)
    requires { (3 * tris ≤ rows) × (columns * rows ≤ length work.old) × (rows < 4294967295) }
    ensures { sides.Sorted rows tris work.old work.new }
{
    put_sides(work, rows, table::VERTEX, tris);
    sort::sort(work, rows, 0, 3 * tris);
}

// ---- linking

// The side at place a of the order.
fn side_at(work: &[u32], rows: usize, n: usize, a: usize) -> usize
    requires { (a < n) × Ready rows n work.now }
    ensures { (result ≡ spec.side_at rows work.now a) × (result < n) }
{
    work[table::ORDER * rows + a] as usize
}

// Whether two sides have the same ends.
#[tactic(auto, unfolding(crate::specs::Links::same_ends))]
pub fn same_ends(work: &[u32], rows: usize, s: usize, u: usize) -> bool
    requires { (s < rows) × (u < rows) × (columns * rows ≤ length work.now) }
    ensures { result ≡ spec.same_ends rows s u work.now }
{
    work[table::LOWER * rows + s] == work[table::LOWER * rows + u]
        && work[table::HIGHER * rows + s] == work[table::HIGHER * rows + u]
}

// Whether side u is unlinked and starts at another vertex than side s.
#[tactic(auto, unfolding(crate::specs::Links::suits))]
fn suits(work: &[u32], rows: usize, s: usize, u: usize) -> bool
    requires { (s < rows) × (u < rows) × (columns * rows ≤ length work.now) }
    ensures { result ≡ spec.suits rows s u work.now }
{
    work[table::LINK * rows + u] == 0
        && work[table::VERTEX * rows + s] != work[table::VERTEX * rows + u]
}

// Links two sides, each to the other.
fn join(work: &mut [u32], rows: usize, n: usize, s: usize, u: usize)
    requires { (s < n) × (u < n) × Ready rows n work.old }
    ensures { work.new ≡ spec.join rows s (Some u) work.old }
{
    work[table::LINK * rows + s] = (u + 1) as u32;
    work[table::LINK * rows + u] = (s + 1) as u32;
}

// A step where the side s at `near` is unlinked and looks at the one at `far`.
fn look(work: &mut [u32], rows: usize, n: usize, s: usize, c: Cursors) -> Cursors
    requires near_lt_far { (c.near < c.far) × (c.far < n) × Stands rows n c.near c.far work.old }
    requires s_value { (s ≡ spec.side_at rows work.old c.near) × (s < n) × (cell rows link_column (spec.side_at rows work.old c.near) work.old ≡ 0) }
    ensures { Moves rows n c.near c.far result.near result.far work.old work.new }
{
    let u = side_at(work, rows, n, c.far);
    if !same_ends(work, rows, s, u) {
        return Cursors {
            near: c.near + 1,
            ..c
        };
    }
    let fits = suits(work, rows, s, u);
    if !fits {
        return Cursors {
            far: c.far + 1,
            ..c
        };
    }
    join(work, rows, n, s, u);
    Cursors {
        near: c.near + 1,
        far: c.far + 1,
    }
}

// A step of the cursors. The unlinked sides from `near` up to `far` run the same way, so none is another's mate, and `far` need not go back.
fn step(work: &mut [u32], rows: usize, n: usize, c: Cursors) -> Cursors
    requires { (c.near < n) × Stands rows n c.near c.far work.old }
    ensures { Moves rows n c.near c.far result.near result.far work.old work.new }
{
    let s = side_at(work, rows, n, c.near);
    if link_at(work, rows, n, s).is_some() {
        return Cursors {
            near: c.near + 1,
            ..c
        };
    }
    if c.far <= c.near {
        return Cursors {
            far: c.near + 1,
            ..c
        };
    }
    if c.far == n {
        return Cursors {
            near: c.near + 1,
            ..c
        };
    }
    look(work, rows, n, s, c)
}

// Links all sides, in their order.
pub fn link_all(work: &mut [u32], rows: usize, n: usize)
    requires { Ready rows n work.old }
    ensures work { work.new ≡ up_to n (spec.turn rows n) work.old }
    ensures ready { Ready rows n work.new }
    ensures only { Only (link_column ∷ []) rows work.old work.new }
{
    let mut c = Cursors { near: 0, far: 0 };
    while c.near < n {
        c = step(work, rows, n, c);
    }
}

// Step 5: sides of sound triangles sorted by lower corner, higher corner, triangle, each unlinked one linked with the first later one that runs the opposite way.
pub fn link_sides(work: &mut [u32], rows: usize, tris: usize)
    requires { (3 * tris ≤ rows) × (columns * rows ≤ length work.old) × (rows < 4294967295) }
    ensures linked { (ss : List Triangle) (d : Triangle) → length ss ≡ tris → Names ss → Sharp ss d → Welds rows ss d work.old → Linked rows ss d (links ss) work.new }
    ensures range { (r : ℕ) → r < 3 * tris → cell rows link_column r work.new ≤ 3 * tris }
    ensures only { Only sides.step_columns rows work.old work.new }
{
    order_sides(work, rows, tris);
    link_all(work, rows, 3 * tris);
}
