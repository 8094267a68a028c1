// Somebody else's links, which are not trusted (request E10): objections 2 to 5.
#![tactic(auto)]

ghost use Rattle.std.specs.Prelude.{◌≡◌, true, false, ℕ, ◌*◌, ◌≤◌, ◌<◌, length, get_or, IfSome, unwrap_or};
ghost use Rattle.table.specs.Columns.{columns, vertex_column, order_column};
ghost use Rattle.view.specs.Frame.{Only};
ghost use Rattle.neighbors.specs.Links.{same_ends};
ghost use Rattle.neighbors.specs.Sides.{step_columns};
ghost use Rattle.examiner.specs.Scan.{OrderOf, Reads, Turns};
ghost use Rattle.table.specs.Table.{cell};
ghost use Rattle.neighbors.specs.Sides.{end_row};
ghost use Rattle.asked.specs.Lowest.{None, Finds, Tells};
ghost use Rattle.asked.specs.Links as links;
ghost use Rattle.asked.specs.Links.{Equal};
ghost use Rattle.examiner.specs.OnLinks.{OnLinks};
ghost use Rattle.examiner.specs.Said.{number_of, number_in, place_in, refusal, Refuses};

// What may be wrong with somebody else's lists, by the number that C is told, in the order in which it is asked.
#[derive(Clone, Copy, Debug, PartialEq, Eq)]
pub enum Fault {
    Misfit = 1,
    Wide,
    Crooked,
    OneSided,
    LeftOver,
    NoFlag,
    Turned,
    Loose,
    OtherVertex,
    OtherWay,
    Parted,
    Severed,
}

impl From<Fault> for u32 {
    ghost from_gives = { λ fault n. n ≡ number_of fault };

    fn from(fault: Fault) -> u32 {
        fault as u32
    }
}

// What the examiner says against the lists: a fault and the lowest place that has it.
#[derive(Clone, Copy, Debug, PartialEq, Eq)]
pub struct Objection {
    pub fault: Fault,
    pub place: u32,
}

// An objection at the place that was found, if one was.
pub fn refuse(fault: Fault, found: Option<usize>) -> Result<(), Objection>
    requires { IfSome found (λ r. r < 4294967296) }
    ensures { result ≡ refusal fault found }
{
    match found {
        None => Ok(()),
        Some(r) => Err(Objection {
            fault,
            place: r as u32,
        }),
    }
}

// The word at a row of a list that was handed in.
pub fn word_at(given: &[u32], r: usize) -> usize
    requires { r < length given.now }
    ensures { result ≡ get_or given.now r 0 }
{
    given[r] as usize
}

// The vertex of the corner at row r.
pub fn vertex_at(work: &[u32], rows: usize, r: usize) -> u32
    requires { (r < rows) × (columns * rows ≤ length work.now) }
    ensures { result ≡ cell rows vertex_column r work.now }
{
    work[table::VERTEX * rows + r]
}

// ---- links

// Objection 2: a word names no side.
fn refuse_wide(given: &[u32], n: usize) -> Result<(), Objection>
    requires { (n < 4294967295) × (n ≤ length given.now) }
    ensures { Refuses Fault.Wide (links.Wide n given.now) n result }
{
    refuse(Fault::Wide, (0..n).find(|&r| n < word_at(given, r)))
}

// Whether two sides have not the same two ends, run opposite ways.
fn unlike(work: &[u32], rows: usize, tris: usize, r: usize, q: usize) -> bool
    requires { (r < 3 * tris) × (q < 3 * tris) × (3 * tris ≤ rows) × (columns * rows ≤ length work.now) × (rows < 4294967295) }
    ensures { Tells (links.Opposed (Equal (λ x. cell rows vertex_column x work.now)) r q → ⊥) result }
{
    let e = neighbors::end_of(r);
    let f = neighbors::end_of(q);
    let a = vertex_at(work, rows, r);
    let b = vertex_at(work, rows, f);
    let c = vertex_at(work, rows, e);
    let d = vertex_at(work, rows, q);
    let start_differs = a != b;
    let end_differs = c != d;
    start_differs || end_differs
}

// Whether objection 3 applies at row r.
fn crooked(work: &[u32], rows: usize, tris: usize, given: &[u32], r: usize) -> bool
    requires { (r < 3 * tris) × (3 * tris ≤ rows) × (columns * rows ≤ length work.now) × (rows < 4294967295) × (3 * tris ≤ length given.now) × (get_or given.now r 0 ≤ 3 * tris) }
    ensures { Tells (links.Crooked (3 * tris) (Equal (λ x. cell rows vertex_column x work.now)) given.now r) result }
{
    let word = word_at(given, r);
    if word == 0 {
        return false;
    }
    unlike(work, rows, tris, r, word - 1)
}

// Objection 3: a link joins sides that have not the same two ends, run opposite ways.
fn refuse_crooked(work: &[u32], rows: usize, tris: usize, given: &[u32]) -> Result<(), Objection>
    requires { (3 * tris ≤ rows) × (columns * rows ≤ length work.now) × (rows < 4294967295) × (3 * tris ≤ length given.now) × None (links.Wide (3 * tris) given.now) (3 * tris) }
    ensures { Refuses Fault.Crooked (links.Crooked (3 * tris) (Equal (λ x. cell rows vertex_column x work.now)) given.now) (3 * tris) result }
{
    let found = (0..3 * tris).find(|&r| crooked(work, rows, tris, given, r));
    refuse(Fault::Crooked, found)
}

// Whether objection 4 applies at row r.
fn one_sided(given: &[u32], n: usize, r: usize) -> bool
    requires { (r < n) × (n < 4294967295) × (n ≤ length given.now) × (get_or given.now r 0 ≤ n) }
    ensures { Tells (links.OneSided given.now r) result }
{
    let word = word_at(given, r);
    if word == 0 {
        return false;
    }
    let back = word_at(given, word - 1);
    back != r + 1
}

// Objection 4: a link is not mutual.
fn refuse_one_sided(given: &[u32], n: usize) -> Result<(), Objection>
    requires { (n < 4294967295) × (n ≤ length given.now) × None (links.Wide n given.now) n }
    ensures { Refuses Fault.OneSided (links.OneSided given.now) n result }
{
    refuse(Fault::OneSided, (0..n).find(|&r| one_sided(given, n, r)))
}

// The first unlinked side of the last run of equal ends that has one, and the lowest side that is left over.
#[derive(Clone, Copy)]
struct Seen {
    first: Option<usize>,
    best: Option<usize>,
}

// The side at place a of the order.
pub fn order_at(work: &[u32], rows: usize, a: usize) -> usize
    requires { (a < rows) × (columns * rows ≤ length work.now) }
    ensures { result ≡ cell rows order_column a work.now }
{
    work[table::ORDER * rows + a] as usize
}

// The turn of an unlinked side r with the same ends as the first of the last run.
fn scan_run(
    work: &[u32],
    rows: usize,
    tris: usize,
    given: &[u32],
    a: usize,
    r: usize,
    first: usize,
    best: Option<usize>,
) -> Option<usize>
    requires { (a < 3 * tris) × (first < 3 * tris) × IfSome best (λ b. b < 3 * tris) × (3 * tris ≤ rows) × (columns * rows ≤ length work.now) × (r ≡ cell rows order_column a work.now) × (r < 3 * tris) × (get_or given.now r 0 ≡ 0) × (same_ends rows first r work.now ≡ true) }
    ensures low { IfSome result (λ b. b < 3 * tris) }
    ensures turn { Turns rows (3 * tris) work.now given.now a first (unwrap_or best (3 * tris)) first (unwrap_or result (3 * tris)) }
{
    if vertex_at(work, rows, first) == vertex_at(work, rows, r) {
        return best;
    }
    match best {
        Some(b) if b <= first => best,
        _ => Some(first),
    }
}

// The turn of place a.
fn scan_turn(work: &[u32], rows: usize, tris: usize, given: &[u32], a: usize, s: Seen) -> Seen
    requires { (a < 3 * tris) × IfSome s.first (λ r. r < 3 * tris) × IfSome s.best (λ b. b < 3 * tris) × (3 * tris ≤ rows) × (columns * rows ≤ length work.now) × (3 * tris ≤ length given.now) × ((a : ℕ) → a < 3 * tris → cell rows order_column a work.now < 3 * tris) }
    ensures low { IfSome result.first (λ r. r < 3 * tris) × IfSome result.best (λ b. b < 3 * tris) }
    ensures turn { Turns rows (3 * tris) work.now given.now a (unwrap_or s.first (3 * tris)) (unwrap_or s.best (3 * tris)) (unwrap_or result.first (3 * tris)) (unwrap_or result.best (3 * tris)) }
{
    let r = order_at(work, rows, a);
    if word_at(given, r) != 0 {
        return s;
    }
    match s.first {
        Some(first) if neighbors::same_ends(work, rows, first, r) => Seen {
            first: s.first,
            best: scan_run(work, rows, tris, given, a, r, first, s.best),
        },
        _ => Seen {
            first: Some(r),
            best: s.best,
        },
    }
}

// The lowest side that is left over, where the sides stand in their order.
fn scan_all(work: &[u32], rows: usize, tris: usize, given: &[u32]) -> Option<usize>
    requires { (3 * tris ≤ rows) × (columns * rows ≤ length work.now) × (rows < 4294967295) × (3 * tris ≤ length given.now) × ((a : ℕ) → a < 3 * tris → cell rows order_column a work.now < 3 * tris) }
    ensures { (vertex E : ℕ → ℕ) → Reads rows (3 * tris) work.now vertex E → OrderOf (3 * tris) vertex E (λ a. cell rows order_column a work.now) → Finds (links.LeftOver (3 * tris) (Equal vertex) given.now) (3 * tris) result }
{
    let mut s = Seen {
        first: None,
        best: None,
    };
    for a in 0..3 * tris {
        s = scan_turn(work, rows, tris, given, a, s);
    }
    s.best
}

// Objection 5: a side is left over.
fn refuse_left(work: &mut [u32], rows: usize, tris: usize, given: &[u32]) -> Result<(), Objection>
    requires { (3 * tris ≤ rows) × (columns * rows ≤ length work.old) × (rows < 4294967295) × (3 * tris ≤ length given.now) × ((r : ℕ) → r < 3 * tris → cell rows vertex_column r work.old ≡ cell rows vertex_column (end_row r) work.old → ⊥) }
    ensures says { Refuses Fault.LeftOver (links.LeftOver (3 * tris) (Equal (λ x. cell rows vertex_column x work.old)) given.now) (3 * tris) result }
    ensures only { Only step_columns rows work.old work.new }
{
    neighbors::order_sides(work, rows, tris);
    let left = scan_all(work, rows, tris, given);
    refuse(Fault::LeftOver, left)
}

// The verdict on the links of so many sound triangles, whose vertices stand in the columns.
pub fn examine_links(
    work: &mut [u32],
    rows: usize,
    tris: usize,
    given: &[u32],
) -> Result<(), Objection>
    requires { (3 * tris ≤ rows) × (columns * rows ≤ length work.old) × (rows < 4294967295) × (3 * tris ≤ length given.now) × ((r : ℕ) → r < 3 * tris → cell rows vertex_column r work.old ≡ cell rows vertex_column (end_row r) work.old → ⊥) }
    ensures verdict { OnLinks tris (λ x. cell rows vertex_column x work.old) given.now (number_in result) (place_in result) }
    ensures only { Only step_columns rows work.old work.new }
{
    refuse_wide(given, 3 * tris)?;
    refuse_crooked(work, rows, tris, given)?;
    refuse_one_sided(given, 3 * tris)?;
    refuse_left(work, rows, tris, given)
}
