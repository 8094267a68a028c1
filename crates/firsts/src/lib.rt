// The lowest row of each group that was handed in, at the row of each of its members: rows are sorted by their group's word, since the words may be any numbers.
#![tactic(auto)]

ghost use Rattle.std.specs.Prelude.{◌≡◌, ℕ, ◌+◌, ◌*◌, ◌≤◌, ◌<◌, length, get_or, IfSome, unwrap_or};
ghost use Rattle.table.specs.Columns.{columns, lower_column, order_column, head_column};
ghost use Rattle.table.specs.Table.{cell, put, filled_to};
ghost use Rattle.view.specs.Frame.{Only};
ghost use Rattle.firsts.specs.Firsts as spec;

// The words of the groups as the numbers that rows are sorted by.
fn put_words(work: &mut [u32], rows: usize, n: usize, groups: &[u32])
    requires { (n ≤ rows) × (columns * rows ≤ length work.old) × (n ≤ length groups.now) }
    ensures { work.new ≡ filled_to rows lower_column (λ r. get_or groups.now r 0) work.old n }
{
    for r in 0..n {
        work[table::LOWER * rows + r] = groups[r];
    }
}

// The rows themselves, in their own order.
fn put_rows(work: &mut [u32], rows: usize, n: usize)
    requires { (n ≤ rows) × (columns * rows ≤ length work.old) × (rows < 4294967295) }
    ensures { work.new ≡ filled_to rows order_column (λ r. r) work.old n }
{
    for r in 0..n {
        work[table::ORDER * rows + r] = r as u32;
    }
}

// The rows sorted by the words of their groups.
fn order_rows(work: &mut [u32], rows: usize, n: usize, groups: &[u32])
    requires { (n ≤ rows) × (columns * rows ≤ length work.old) × (rows < 4294967295) × (n ≤ length groups.now) }
    ensures { spec.Orders rows n groups.now work.old work.new }
{
    table::clear(work, rows, table::HIGHER);
    put_words(work, rows, n, groups);
    put_rows(work, rows, n);
    sort::sort(work, rows, 0, n);
}

// The first row of the group of row r, which is next in the order after a row whose group's first row is `first`, if there is one.
fn run_first(groups: &[u32], n: usize, first: Option<usize>, r: usize) -> usize
    requires { (r < n) × IfSome first (λ f. f < n) × (n ≤ length groups.now) }
    ensures { spec.Runs n groups.now (unwrap_or first n) r result }
{
    let word = examiner::word_at(groups, r);
    match first {
        Some(f) if examiner::word_at(groups, f) == word => f,
        _ => r,
    }
}

// The turn of place a of the order.
fn head_turn(
    work: &mut [u32],
    rows: usize,
    n: usize,
    groups: &[u32],
    a: usize,
    first: Option<usize>,
) -> usize
    requires { (a < n) × IfSome first (λ f. f < n) × (n ≤ rows) × (columns * rows ≤ length work.old) × (rows < 4294967295) × (n ≤ length groups.now) × (cell rows order_column a work.old < n) }
    ensures runs { spec.Runs n groups.now (unwrap_or first n) (cell rows order_column a work.old) result }
    ensures puts { work.new ≡ put rows head_column (cell rows order_column a work.old) (result + 1) work.old }
{
    let r = examiner::order_at(work, rows, a);
    let f = run_first(groups, n, first, r);
    work[table::HEAD * rows + r] = (f + 1) as u32;
    f
}

// The first rows of the groups, for rows that are sorted.
fn put_heads(work: &mut [u32], rows: usize, n: usize, groups: &[u32])
    requires { (n ≤ rows) × (columns * rows ≤ length work.old) × (rows < 4294967295) × (n ≤ length groups.now) × spec.InOrder rows n groups.now work.old }
    ensures { spec.Heads rows n groups.now work.old work.new }
{
    let mut first = None;
    for a in 0..n {
        first = Some(head_turn(work, rows, n, groups, a, first));
    }
}

// The lowest row of each group at the rows of its members.
pub fn put_firsts(work: &mut [u32], rows: usize, n: usize, groups: &[u32])
    requires { (n ≤ rows) × (columns * rows ≤ length work.old) × (rows < 4294967295) × (n ≤ length groups.now) }
    ensures firsts { spec.Firsts rows n groups.now work.new }
    ensures only { Only spec.first_columns rows work.old work.new }
{
    order_rows(work, rows, n, groups);
    put_heads(work, rows, n, groups);
}
