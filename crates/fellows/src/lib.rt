// Somebody else's groups and orientations, which are not trusted (request E10): objections 6 to 12.
#![tactic(auto)]

ghost use Rattle.std.specs.Prelude.{◌≡◌, ℕ, ◌*◌, ◌/◌, ◌≤◌, ◌<◌, length, get_or};
ghost use Rattle.table.specs.Columns.{columns, orientation_column, any_column};
ghost use Rattle.table.specs.Table.{cell};
ghost use Rattle.view.specs.Frame.{Only};
ghost use Rattle.asked.specs.Lowest.{None, Finds, Tells, Clear};
ghost use Rattle.asked.specs.Links.{Equal, Wide};
ghost use Rattle.asked.specs.Groups as asked;
ghost use Rattle.firsts.specs.Firsts.{Firsts};
ghost use Rattle.examiner.specs.Said.{number_in, place_in, Refuses};
ghost use Rattle.fellows.specs.Fellows as spec;

use examiner::{Fault, Objection};

// Objection 6: an orientation is neither 0 nor 1.
fn refuse_no_flag(ways: &[u32], tris: usize) -> Result<(), Objection>
    requires { (3 * tris < 4294967295) × (tris ≤ length ways.now) }
    ensures { Refuses Fault.NoFlag (asked.NoFlag ways.now) tris result }
{
    let found = (0..tris).find(|&t| 1 < examiner::word_at(ways, t));
    examiner::refuse(Fault::NoFlag, found)
}

// The word of triangle t that says whether it is `group_with_any`.
fn any_at(work: &[u32], rows: usize, t: usize) -> usize
    requires { (t < rows) × (columns * rows ≤ length work.now) }
    ensures { result ≡ cell rows any_column t work.now }
{
    work[table::ANY * rows + t] as usize
}

// Its orientation in step 3.
fn way_at(work: &[u32], rows: usize, t: usize) -> usize
    requires { (t < rows) × (columns * rows ≤ length work.now) }
    ensures { result ≡ cell rows orientation_column t work.now }
{
    work[table::ORIENTATION * rows + t] as usize
}

// Whether objection 7 applies to triangle t.
fn turned_at(work: &[u32], rows: usize, tris: usize, ways: &[u32], t: usize) -> bool
    requires { (t < tris) × (3 * tris ≤ rows) × (columns * rows ≤ length work.now) × (tris ≤ length ways.now) }
    ensures { Tells (asked.Turned (λ x. cell rows any_column x work.now) (λ x. cell rows orientation_column x work.now) ways.now t) result }
{
    if any_at(work, rows, t) != 0 {
        return false;
    }
    let theirs = examiner::word_at(ways, t);
    let ours = way_at(work, rows, t);
    theirs != ours
}

// Whether objection 8 applies at row r.
fn loose_at(work: &[u32], rows: usize, tris: usize, groups: &[u32], r: usize) -> bool
    requires { (r < 3 * tris) × (3 * tris ≤ rows) × (columns * rows ≤ length work.now) × (3 * tris ≤ length groups.now) }
    ensures { Tells (asked.Loose (λ x. cell rows any_column x work.now) groups.now r) result }
{
    if any_at(work, rows, r / 3) != 0 {
        return false;
    }
    examiner::word_at(groups, r) == 0
}

// Objection 7: a triangle that isn't `group_with_any` has not the orientation of step 3.
fn refuse_turned(work: &[u32], rows: usize, tris: usize, ways: &[u32]) -> Result<(), Objection>
    requires { (3 * tris ≤ rows) × (columns * rows ≤ length work.now) × (rows < 4294967295) × (tris ≤ length ways.now) }
    ensures { Refuses Fault.Turned (asked.Turned (λ x. cell rows any_column x work.now) (λ x. cell rows orientation_column x work.now) ways.now) tris result }
{
    let found = (0..tris).find(|&t| turned_at(work, rows, tris, ways, t));
    examiner::refuse(Fault::Turned, found)
}

// Objection 8: a corner of such a triangle is in no group.
fn refuse_loose(work: &[u32], rows: usize, tris: usize, groups: &[u32]) -> Result<(), Objection>
    requires { (3 * tris ≤ rows) × (columns * rows ≤ length work.now) × (rows < 4294967295) × (3 * tris ≤ length groups.now) }
    ensures { Refuses Fault.Loose (asked.Loose (λ x. cell rows any_column x work.now) groups.now) (3 * tris) result }
{
    let found = (0..3 * tris).find(|&r| loose_at(work, rows, tris, groups, r));
    examiner::refuse(Fault::Loose, found)
}

// ---- a corner beside the first of its group

// What the members of a group share.
#[derive(Clone, Copy, Debug, PartialEq, Eq)]
enum Shared {
    Vertex,
    Way,
}

// That of the corner at row r: its vertex, or the orientation of its triangle.
fn value_at(work: &[u32], rows: usize, tris: usize, ways: &[u32], shared: Shared, r: usize) -> usize
    requires { (r < 3 * tris) × (3 * tris ≤ rows) × (columns * rows ≤ length work.now) × (tris ≤ length ways.now) }
    ensures { result ≡ spec.shared rows work.now ways.now shared r }
{
    match shared {
        Shared::Vertex => examiner::vertex_at(work, rows, r) as usize,
        Shared::Way => examiner::word_at(ways, r / 3),
    }
}

// Whether the corner at row r has another value than the first of its group.
fn unlike_at(
    work: &[u32],
    rows: usize,
    tris: usize,
    r: usize,
    groups: &[u32],
    ways: &[u32],
    shared: Shared,
) -> bool
    requires { (r < 3 * tris) × (3 * tris ≤ rows) × (columns * rows ≤ length work.now) × (3 * tris ≤ length groups.now) × (tris ≤ length ways.now) × Firsts rows (3 * tris) groups.now work.now }
    ensures { Tells (spec.UnlikeFirst rows work.now groups.now ways.now shared r) result }
{
    if examiner::word_at(groups, r) == 0 {
        return false;
    }
    let f = severed::first_at(work, rows, r);
    let a = value_at(work, rows, tris, ways, shared, f - 1);
    let b = value_at(work, rows, tris, ways, shared, r);
    a != b
}

// Objections 9 and 10: the lowest row that has another value than one before it in its group.
fn first_unlike(
    work: &[u32],
    rows: usize,
    tris: usize,
    groups: &[u32],
    ways: &[u32],
    shared: Shared,
) -> Option<usize>
    requires { (3 * tris ≤ rows) × (columns * rows ≤ length work.now) × (rows < 4294967295) × (3 * tris ≤ length groups.now) × (tris ≤ length ways.now) × Firsts rows (3 * tris) groups.now work.now }
    ensures { Finds (asked.Unlike (Equal (spec.shared rows work.now ways.now shared)) groups.now) (3 * tris) result }
{
    (0..3 * tris).find(|&r| unlike_at(work, rows, tris, r, groups, ways, shared))
}

// ---- the ends of a linked side

// Whether the sides at rows r and q are of triangles that aren't `group_with_any` and of one orientation.
fn firm_pair(work: &[u32], rows: usize, tris: usize, ways: &[u32], r: usize, q: usize) -> bool
    requires { (r < 3 * tris) × (q < 3 * tris) × (3 * tris ≤ rows) × (columns * rows ≤ length work.now) × (tris ≤ length ways.now) }
    ensures { Tells (spec.FirmPair (λ x. cell rows any_column x work.now) ways.now r q) result }
{
    if any_at(work, rows, r / 3) != 0 {
        return false;
    }
    if any_at(work, rows, q / 3) != 0 {
        return false;
    }
    examiner::word_at(ways, r / 3) == examiner::word_at(ways, q / 3)
}

// Whether the ends of the sides at rows r and q, which are linked, are not in one group each.
fn ends_apart(tris: usize, groups: &[u32], r: usize, q: usize) -> bool
    requires { (r < 3 * tris) × (q < 3 * tris) × (3 * tris < 4294967295) × (3 * tris ≤ length groups.now) × (asked.group_word groups.now r ≡ 0 → ⊥) × (asked.group_word groups.now q ≡ 0 → ⊥) }
    ensures { Tells (spec.EndsTogether groups.now r q → ⊥) result }
{
    let e = neighbors::end_of(r);
    let f = neighbors::end_of(q);
    if examiner::word_at(groups, r) != examiner::word_at(groups, f) {
        return true;
    }
    examiner::word_at(groups, e) != examiner::word_at(groups, q)
}

// Whether objection 11 applies at row r.
fn parted_at(
    work: &[u32],
    rows: usize,
    tris: usize,
    r: usize,
    given: &[u32],
    groups: &[u32],
    ways: &[u32],
) -> bool
    requires { (r < 3 * tris) × (3 * tris ≤ rows) × (columns * rows ≤ length work.now) × (rows < 4294967295) × (3 * tris ≤ length given.now) × (3 * tris ≤ length groups.now) × (tris ≤ length ways.now) × (get_or given.now r 0 ≤ 3 * tris) × None (asked.Loose (λ x. cell rows any_column x work.now) groups.now) (3 * tris) }
    ensures { Tells (asked.Parted tris (λ x. cell rows any_column x work.now) given.now groups.now ways.now r) result }
{
    let word = examiner::word_at(given, r);
    if word == 0 {
        return false;
    }
    if !firm_pair(work, rows, tris, ways, r, word - 1) {
        return false;
    }
    ends_apart(tris, groups, r, word - 1)
}

// Objection 11: an end of a linked side between two such triangles of one orientation is in two groups.
fn refuse_parted(
    work: &[u32],
    rows: usize,
    tris: usize,
    given: &[u32],
    groups: &[u32],
    ways: &[u32],
) -> Result<(), Objection>
    requires { (3 * tris ≤ rows) × (columns * rows ≤ length work.now) × (rows < 4294967295) × (3 * tris ≤ length given.now) × (3 * tris ≤ length groups.now) × (tris ≤ length ways.now) × None (Wide (3 * tris) given.now) (3 * tris) × None (asked.Loose (λ x. cell rows any_column x work.now) groups.now) (3 * tris) }
    ensures { Refuses Fault.Parted (asked.Parted tris (λ x. cell rows any_column x work.now) given.now groups.now ways.now) (3 * tris) result }
{
    let found = (0..3 * tris).find(|&r| parted_at(work, rows, tris, r, given, groups, ways));
    examiner::refuse(Fault::Parted, found)
}

// ---- all of them

// Objections 6 to 8: the words of one triangle or corner.
fn examine_words(
    work: &[u32],
    rows: usize,
    tris: usize,
    groups: &[u32],
    ways: &[u32],
) -> Result<(), Objection>
    requires { (3 * tris ≤ rows) × (columns * rows ≤ length work.now) × (rows < 4294967295) × (3 * tris ≤ length groups.now) × (tris ≤ length ways.now) }
    ensures { spec.Words rows tris work.now groups.now ways.now (number_in result) (place_in result) }
{
    refuse_no_flag(ways, tris)?;
    refuse_turned(work, rows, tris, ways)?;
    refuse_loose(work, rows, tris, groups)
}

// Objections 9 to 11: a corner beside another, where the lowest row of each group is known.
fn examine_fellows(
    given: &[u32],
    groups: &[u32],
    ways: &[u32],
    work: &[u32],
    rows: usize,
    tris: usize,
) -> Result<(), Objection>
    requires { (3 * tris ≤ rows) × (columns * rows ≤ length work.now) × (rows < 4294967295) × (3 * tris ≤ length given.now) × (3 * tris ≤ length groups.now) × (tris ≤ length ways.now) × None (Wide (3 * tris) given.now) (3 * tris) × None (asked.Loose (λ x. cell rows any_column x work.now) groups.now) (3 * tris) × Firsts rows (3 * tris) groups.now work.now }
    ensures { spec.Beside rows tris work.now given.now groups.now ways.now (number_in result) (place_in result) }
{
    let elsewhere = first_unlike(work, rows, tris, groups, ways, Shared::Vertex);
    examiner::refuse(Fault::OtherVertex, elsewhere)?;
    let otherwise = first_unlike(work, rows, tris, groups, ways, Shared::Way);
    examiner::refuse(Fault::OtherWay, otherwise)?;
    refuse_parted(work, rows, tris, given, groups, ways)
}

// The verdict on groups and orientations of so many sound triangles, whose vertices and orientations stand in the columns, where the links fit.
pub fn examine_groups(
    work: &mut [u32],
    rows: usize,
    tris: usize,
    given: &[u32],
    groups: &[u32],
    ways: &[u32],
) -> Result<(), Objection>
    requires { (3 * tris ≤ rows) × (columns * rows ≤ length work.old) × (rows < 4294967295) × (3 * tris ≤ length given.now) × (3 * tris ≤ length groups.now) × (tris ≤ length ways.now) × Clear (spec.applies_here rows tris work.old given.now groups.now ways.now) 6 }
    ensures verdict { spec.OnGroups rows tris work.old given.now groups.now ways.now (number_in result) (place_in result) }
    ensures only { Only spec.group_columns rows work.old work.new }
{
    examine_words(work, rows, tris, groups, ways)?;
    firsts::put_firsts(work, rows, 3 * tris, groups);
    examine_fellows(given, groups, ways, work, rows, tris)?;
    severed::refuse_severed(work, rows, tris, given, groups)
}
