// Whether each group of corners is connected over linked sides that end in its corner (request E10): objection 12. Round one corner each member has at most two ways on, so that a group is a path or a ring,
// and a walk one way from its first member and then the other meets all that chains lead to: no stack.
#![tactic(auto)]

ghost use Rattle.std.specs.Prelude.{◌≡◌, true, false, [], ◌∷◌, ℕ, ◌*◌, ◌≤◌, ◌<◌, length, get_or, OnOk, IfSome, unwrap_or};
ghost use Rattle.table.specs.Columns.{columns, next_column, head_column};
ghost use Rattle.table.specs.Table.{cell, put};
ghost use Rattle.view.specs.Frame.{Only};
ghost use Rattle.neighbors.specs.Sides.{end_row};
ghost use Rattle.asked.specs.Lowest.{None};
ghost use Rattle.asked.specs.Links as links;
ghost use Rattle.asked.specs.Links.{Equal};
ghost use Rattle.asked.specs.Groups.{group_word, Connected, Severed};
ghost use Rattle.examiner.specs.Said.{Refuses};
ghost use Rattle.severed.specs.Walk.{WayTo, NextIs, Marked, Goes, WalksGroup, Firsts, WalksTo, TurnsAt};

use examiner::{Fault, Objection};

// The row of the side that ends in the corner of row r.
fn before_of(r: usize) -> usize
    requires { r < 4294967295 }
    ensures { end_row result ≡ r }
{
    if r % 3 == 0 { r + 2 } else { r - 1 }
}

// Over the side that runs from the corner of row x, to the same corner beyond.
fn over_after(given: &[u32], tris: usize, x: usize) -> Option<usize>
    requires { (x < 3 * tris) × (3 * tris < 4294967295) × (3 * tris ≤ length given.now) × None (links.Wide (3 * tris) given.now) (3 * tris) }
    ensures { WayTo tris given.now false x result }
{
    let word = examiner::word_at(given, x);
    if word == 0 {
        return None;
    }
    Some(neighbors::end_of(word - 1))
}

// Over the side that ends in it.
fn over_before(given: &[u32], tris: usize, x: usize) -> Option<usize>
    requires { (x < 3 * tris) × (3 * tris < 4294967295) × (3 * tris ≤ length given.now) × None (links.Wide (3 * tris) given.now) (3 * tris) }
    ensures { WayTo tris given.now true x result }
{
    let word = examiner::word_at(given, before_of(x));
    if word == 0 {
        return None;
    }
    Some(word - 1)
}

// Over the one or the other.
fn over_to(given: &[u32], tris: usize, x: usize, back: bool) -> Option<usize>
    requires { (x < 3 * tris) × (3 * tris < 4294967295) × (3 * tris ≤ length given.now) × None (links.Wide (3 * tris) given.now) (3 * tris) }
    ensures { WayTo tris given.now back x result }
{
    if back {
        return over_before(given, tris, x);
    }
    over_after(given, tris, x)
}

// Whether the corner of row x is marked.
fn mark_at(work: &[u32], rows: usize, x: usize) -> u32
    requires { (x < rows) × (columns * rows ≤ length work.now) }
    ensures { result ≡ cell rows next_column x work.now }
{
    work[table::NEXT * rows + x]
}

// Marks the corner of row x.
fn mark(work: &mut [u32], rows: usize, x: usize)
    requires { (x < rows) × (columns * rows ≤ length work.old) }
    ensures { work.new ≡ put rows next_column x 1 work.old }
{
    work[table::NEXT * rows + x] = 1;
}

// The next of x's group, if it is there and unmarked.
fn next_on(
    work: &[u32],
    rows: usize,
    tris: usize,
    given: &[u32],
    groups: &[u32],
    x: usize,
    back: bool,
) -> Option<usize>
    requires { (x < 3 * tris) × (3 * tris ≤ rows) × (rows < 4294967295) × (columns * rows ≤ length work.now) × (3 * tris ≤ length given.now) × (3 * tris ≤ length groups.now) × None (links.Wide (3 * tris) given.now) (3 * tris) × (group_word groups.now x ≡ 0 → ⊥) }
    ensures is { NextIs tris given.now groups.now (Marked rows work.now) back x (unwrap_or result (3 * tris)) }
    ensures low { IfSome result (λ y. y < 3 * tris) }
{
    let y = over_to(given, tris, x, back)?;
    if examiner::word_at(groups, y) != examiner::word_at(groups, x) {
        return None;
    }
    if mark_at(work, rows, y) != 0 {
        return None;
    }
    Some(y)
}

// Marks from `start` on, one way.
fn go_on(
    work: &mut [u32],
    rows: usize,
    tris: usize,
    given: &[u32],
    groups: &[u32],
    start: Option<usize>,
    back: bool,
)
    requires { (3 * tris ≤ rows) × (rows < 4294967295) × (columns * rows ≤ length work.old) × (3 * tris ≤ length given.now) × (3 * tris ≤ length groups.now) × None (links.Wide (3 * tris) given.now) (3 * tris) × IfSome start (λ x. (x < 3 * tris) × (group_word groups.now x ≡ 0 → ⊥) × (cell rows next_column x work.old ≡ 0)) }
    ensures goes { Goes rows tris given.now groups.now back (unwrap_or start (3 * tris)) (3 * tris) work.old work.new }
    ensures only { Only (next_column ∷ []) rows work.old work.new }
{
    let mut next = start;
    while let Some(x) = next {
        mark(work, rows, x);
        next = next_on(work, rows, tris, given, groups, x, back);
    }
}

// Walks the group whose lowest row is f: marks f, then what it leads to one way, then the other.
fn walk_group(work: &mut [u32], rows: usize, tris: usize, given: &[u32], groups: &[u32], f: usize)
    requires { (f < 3 * tris) × (3 * tris ≤ rows) × (rows < 4294967295) × (columns * rows ≤ length work.old) × (3 * tris ≤ length given.now) × (3 * tris ≤ length groups.now) × None (links.Wide (3 * tris) given.now) (3 * tris) × (group_word groups.now f ≡ 0 → ⊥) }
    ensures walks { WalksGroup rows tris given.now groups.now f work.old work.new }
    ensures only { Only (next_column ∷ []) rows work.old work.new }
{
    mark(work, rows, f);
    let x = next_on(work, rows, tris, given, groups, f, false);
    go_on(work, rows, tris, given, groups, x, false);
    let y = next_on(work, rows, tris, given, groups, f, true);
    go_on(work, rows, tris, given, groups, y, true);
}

// The lowest row of the group of row x, and one.
pub fn first_at(work: &[u32], rows: usize, x: usize) -> usize
    requires { (x < rows) × (columns * rows ≤ length work.now) }
    ensures { result ≡ cell rows head_column x work.now }
{
    work[table::HEAD * rows + x] as usize
}

// The turn of row r: whether objection 12 applies there.
fn severed_at(
    work: &mut [u32],
    rows: usize,
    tris: usize,
    given: &[u32],
    groups: &[u32],
    r: usize,
) -> bool
    requires { (r < 3 * tris) × (3 * tris ≤ rows) × (rows < 4294967295) × (columns * rows ≤ length work.old) × (3 * tris ≤ length given.now) × (3 * tris ≤ length groups.now) × None (links.Wide (3 * tris) given.now) (3 * tris) × Firsts rows tris groups.now work.old }
    ensures turn { TurnsAt rows tris given.now groups.now r work.old work.new result }
    ensures only { Only (next_column ∷ []) rows work.old work.new }
{
    if examiner::word_at(groups, r) == 0 {
        return false;
    }
    if mark_at(work, rows, r) != 0 {
        return false;
    }
    if first_at(work, rows, r) != r + 1 {
        return true;
    }
    walk_group(work, rows, tris, given, groups, r);
    false
}

// Objection 12: a group is not connected, where the lowest row of each group is known.
pub fn refuse_severed(
    work: &mut [u32],
    rows: usize,
    tris: usize,
    given: &[u32],
    groups: &[u32],
) -> Result<(), Objection>
    requires { (3 * tris ≤ rows) × (rows < 4294967295) × (columns * rows ≤ length work.old) × (3 * tris ≤ length given.now) × (3 * tris ≤ length groups.now) × None (links.Wide (3 * tris) given.now) (3 * tris) × Firsts rows tris groups.now work.old }
    ensures says { (vertex : ℕ → ℕ) → links.LinksFit (3 * tris) (Equal vertex) given.now → Refuses Fault.Severed (Severed tris given.now groups.now) (3 * tris) result }
    ensures connected { OnOk result ((vertex : ℕ → ℕ) → links.LinksFit (3 * tris) (Equal vertex) given.now → Connected tris given.now groups.now) }
    ensures only { Only (next_column ∷ []) rows work.old work.new }
{
    table::clear(work, rows, table::NEXT);
    for r in 0..3 * tris {
        if severed_at(work, rows, tris, given, groups, r) {
            return Err(Objection {
                fault: Fault::Severed,
                place: r as u32,
            });
        }
    }
    Ok(())
}
