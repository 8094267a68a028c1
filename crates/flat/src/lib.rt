// Step 6 without recursion: the same walks as those of `groups`, with the places to go kept in a column of the work list.
// Carried over from mikktspace.rs (build_4_rule_groups, assign_to_group_recursive) of the Rust crate bevy_mikktspace and ALTERED: written anew in Rattle, with a list of places in the stead of the recursion. See NOTICE.
#![tactic(auto)]

ghost use Rattle.std.specs.Prelude.{◌≡◌, List, ℕ, ◌+◌, ◌*◌, ◌-◌, ◌/◌, ◌<◌, ◌≤◌, length};
ghost use Rattle.table.specs.Columns.{columns, link_column};
ghost use Rattle.table.specs.Table.{cell};
ghost use Rattle.lists.specs.Loops.{up_to};
ghost use Rattle.definition.specs.declared.Triangle.{Triangle};
ghost use Rattle.definition.specs.Step5Links as step5;
ghost use Rattle.laws.proofs.Closed.{Between};
ghost use Rattle.definition.specs.Names.{Names};
ghost use Rattle.view.specs.Frame.{Only};
ghost use Rattle.view.specs.Weld.{Sharp};
ghost use Rattle.groups.specs.Marks.{Asked, Walked};
ghost use Rattle.groups.specs.Walk as walks;
ghost use Rattle.flat.specs.Places as spec;

use groups::{Group, GroupCounts};

// How the walk stands: the side to cross next, if one is left, how many more are stored, and the number of members of all groups so far.
#[derive(Clone, Copy)]
pub struct Going {
    pub next: Option<usize>,
    pub stored: usize,
    pub count: usize,
}

// ---- one place

// Back to the place stored last, if there is one. The places are rows of sides, in the column that the sorts work in.
fn back(work: &[u32], rows: usize, stored: usize, count: usize) -> Going
    requires { (stored ≤ rows) × (columns * rows ≤ length work.now) }
    ensures { result ≡ spec.back rows stored count work.now }
{
    if stored == 0 {
        Going {
            next: None,
            stored: 0,
            count,
        }
    } else {
        Going {
            next: Some(work[table::SPARE * rows + (stored - 1)] as usize),
            stored: stored - 1,
            count,
        }
    }
}

// To triangle t: its corner is entered, the side after it stored, and the side before it is the next to cross; or the walk stops there, and goes back.
fn go_to(
    work: &mut [u32],
    rows: usize,
    tris: usize,
    t: usize,
    g: Group,
    stored: usize,
    count: usize,
) -> Going
    requires { (t < tris) × walks.Ready rows tris g.number count work.old × spec.Stored rows tris stored work.old }
    ensures { spec.Goes rows tris g.number stored work.old work.new result (walks.corner rows g.number g.vertex g.orientation) (λ n. spec.all rows (walks.corner rows g.number g.vertex g.orientation n) (walks.corner rows g.number g.vertex g.orientation n (walks.walk (spec.blank rows work.old) count) t) (spec.stack rows work.old stored)) }
{
    let Some(i) = groups::enter_at(work, rows, t, g, count) else {
        return back(work, rows, stored, count);
    };
    work[table::SPARE * rows + stored] = (3 * t + i) as u32;
    Going {
        next: Some(3 * t + (i + 2) % 3),
        stored: stored + 1,
        count: count + 1,
    }
}

// Over a side, with so many others stored.
fn cross(
    work: &mut [u32],
    rows: usize,
    tris: usize,
    g: Group,
    side: usize,
    stored: usize,
    count: usize,
) -> Going
    requires { (side < 3 * tris) × walks.Ready rows tris g.number count work.old × spec.Stored rows tris stored work.old }
    ensures { spec.Goes rows tris g.number stored work.old work.new result (walks.corner rows g.number g.vertex g.orientation) (λ n. spec.all rows (walks.corner rows g.number g.vertex g.orientation n) (walks.walk (spec.blank rows work.old) count) (spec.places rows work.old (Some side) stored)) }
{
    let Some(u) = neighbors::link_at(work, rows, 3 * tris, side) else {
        return back(work, rows, stored, count);
    };
    go_to(work, rows, tris, u / 3, g, stored, count)
}

// ---- the walk

// All places that are left, until none is. The result is the number of members of all groups so far.
fn walk_from(work: &mut [u32], rows: usize, tris: usize, t: usize, g: Group, count: usize) -> usize
    requires { (t < tris) × walks.Ready rows tris g.number count work.old }
    ensures walked { walks.Steps rows (walks.walk (spec.blank rows work.old) count) (walks.walk (spec.blank rows work.new) result) (λ n. walks.corner rows g.number g.vertex g.orientation n (walks.walk (spec.blank rows work.old) count) t) }
    ensures only { Only spec.flat_columns rows work.old work.new }
{
    let mut s = go_to(work, rows, tris, t, g, 0, count);
    while let Some(side) = s.next {
        s = cross(work, rows, tris, g, side, s.stored, s.count);
    }
    s.count
}

// ---- the groups

// The turn of corner k: a group starts there, unless its triangle is `group_with_any` or the corner is in a group.
fn start_at(work: &mut [u32], rows: usize, tris: usize, k: usize, s: GroupCounts) -> GroupCounts
    requires { (k < 3 * tris) × (s.groups ≤ k) × walks.Ready rows tris (s.groups + 1) s.members work.old }
    ensures turned { walks.Turned rows tris k (walks.state (spec.blank rows work.old) s) (walks.state (spec.blank rows work.new) result) }
    ensures only { Only spec.flat_columns rows work.old work.new }
{
    let Some(g) = groups::open_at(work, rows, k, s) else {
        return s;
    };
    GroupCounts {
        groups: g.number,
        members: walk_from(work, rows, tris, k / 3, g, s.members),
    }
}

// All groups, in triangle and corner order. The twin of the one in `groups`: what it ensures is said of the list without the stored places.
fn walk_all(work: &mut [u32], rows: usize, tris: usize) -> GroupCounts
    requires { (3 * tris ≤ rows) × (columns * rows ≤ length work.old) × (rows < 4294967295) × ((r : ℕ) → r < 3 * tris → cell rows link_column r work.old ≤ 3 * tris) }
    ensures is { walks.state (spec.blank rows work.new) result ≡ up_to (3 * tris) (walks.turn rows) (walks.state (spec.blank rows (walks.cleared rows work.old)) (record { groups = 0; members = 0 })) }
    ensures few { (result.groups ≤ 3 * tris) × (result.members ≤ rows) }
    ensures only { Only spec.flat_columns rows work.old work.new }
{
    let mut s = GroupCounts {
        groups: 0,
        members: 0,
    };
    table::clear(work, rows, table::GROUP);
    // a loop and no fold, since a closure that changes the list would tell the proof nothing of it
    for k in 0..3 * tris {
        s = start_at(work, rows, tris, k, s);
    }
    s
}

// Step 6: the corners of sound triangles in groups, as `groups::build_4_rule_groups` has them.
pub fn build_4_rule_groups(work: &mut [u32], rows: usize, tris: usize) -> GroupCounts
    requires { (3 * tris ≤ rows) × (columns * rows ≤ length work.old) × (rows < 4294967295) × ((r : ℕ) → r < 3 * tris → cell rows link_column r work.old ≤ 3 * tris) }
    ensures grouped { (ss : List Triangle) (d : Triangle) (ls : List step5.Link) → Between ss ls → length ss ≡ tris → Names ss → Sharp ss d → Asked rows ss d ls work.old → Walked rows ss d ls work.old work.new result.groups result.members }
    ensures few { (result.groups ≤ 3 * tris) × (result.members ≤ rows) }
    ensures only { Only spec.flat_columns rows work.old work.new }
{
    walk_all(work, rows, tris)
}
