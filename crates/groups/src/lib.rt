// Step 6: corners of sound triangles are grouped by walks over linked sides.
// Carried over from mikktspace.rs (build_4_rule_groups, assign_to_group_recursive) of the Rust crate bevy_mikktspace and ALTERED: written anew in Rattle, a corner step and a side step. See NOTICE.
// The two call each other, up to 2F corners deep for F faces, and one call more that stops.
#![tactic(auto)]

ghost use Rattle.std.specs.Prelude.{◌≡◌, List, ℕ, ◌+◌, ◌*◌, ◌/◌, ◌<◌, ◌≤◌, length, SomeIff, MatchOption};
ghost use Rattle.table.specs.Columns.{columns, link_column};
ghost use Rattle.table.specs.Table.{cell};
ghost use Rattle.lists.specs.Loops.{up_to};
ghost use Rattle.definition.specs.declared.Triangle.{Triangle};
ghost use Rattle.definition.specs.Step5Links as step5;
ghost use Rattle.laws.proofs.Closed.{Between};
ghost use Rattle.definition.specs.Names.{Names};
ghost use Rattle.view.specs.Frame.{Only};
ghost use Rattle.view.specs.Weld.{Sharp};
ghost use Rattle.groups.specs.Marks.{Asked, Walked};
ghost use Rattle.groups.specs.Walk as spec;

// How many groups and members there are.
#[derive(Clone, Copy)]
pub struct GroupCounts {
    pub groups: u32,
    pub members: usize,
}

// The group of a walk: its number, and the vertex and the orientation that its corners have.
#[derive(Clone, Copy)]
pub struct Group {
    pub number: u32,
    pub vertex: u32,
    pub orientation: u32,
}

// ---- one triangle

// The corner of triangle t that has the vertex, if one has.
fn corner_of(work: &[u32], rows: usize, t: usize, vertex: u32) -> Option<usize>
    requires { (3 * t + 3 ≤ rows) × (columns * rows ≤ length work.now) }
    ensures { SomeIff result (spec.corner_of rows t vertex work.now < 3) (spec.corner_of rows t vertex work.now) }
{
    let first = table::VERTEX * rows + 3 * t;
    work[first..first + 3].iter().position(|v| *v == vertex)
}

// A `group_with_any` triangle with no corner in a group takes the orientation.
fn adopt(work: &mut [u32], rows: usize, t: usize, orient: u32)
    requires { (3 * t + 3 ≤ rows) × (columns * rows ≤ length work.old) }
    ensures { work.new ≡ spec.adopted rows t orient work.old }
{
    let any = work[table::ANY * rows + t] != 0;
    if any
        && work[table::GROUP * rows + 3 * t] == 0
        && work[table::GROUP * rows + (3 * t + 1)] == 0
        && work[table::GROUP * rows + (3 * t + 2)] == 0
    {
        work[table::ORIENTATION * rows + t] = orient;
    }
}

// Enters triangle t: its corner, which is marked and is member `count`; none where the walk stops there.
pub fn enter_at(work: &mut [u32], rows: usize, t: usize, g: Group, count: usize) -> Option<usize>
    requires { (3 * t + 3 ≤ rows) × (columns * rows ≤ length work.old) × (rows < 4294967295) × (count ≤ rows) }
    ensures entry { result ≡ (spec.enter rows t g.number g.vertex g.orientation count work.old).entry }
    ensures work { work.new ≡ (spec.enter rows t g.number g.vertex g.orientation count work.old).work }
{
    let i = corner_of(work, rows, t, g.vertex)?;
    if work[table::GROUP * rows + (3 * t + i)] != 0 {
        return None;
    }
    adopt(work, rows, t, g.orientation);
    if work[table::ORIENTATION * rows + t] != g.orientation {
        return None;
    }
    work[table::MET * rows + count] = (3 * t + i) as u32;
    work[table::GROUP * rows + (3 * t + i)] = g.number;
    Some(i)
}

// ---- the walk

// From a corner of triangle t over its two sides, the side before the corner first. The result is the number of members of all groups so far.
#[cycle(corner_step_side_step)]
fn corner_step(
    work: &mut [u32],
    rows: usize,
    tris: usize,
    t: usize,
    g: &Group,
    count: usize,
) -> usize
    requires { (t < tris) × spec.Ready rows tris g.now.number count work.old }
    ensures { spec.Steps rows (spec.walk work.old count) (spec.walk work.new result) (λ n. spec.corner rows g.now.number g.now.vertex g.now.orientation n (spec.walk work.old count) t) }
{
    let Some(i) = enter_at(work, rows, t, *g, count) else {
        return count;
    };
    let first = 3 * t + (i + 2) % 3;
    let second = 3 * t + i;
    let n = side_step(work, rows, tris, first, g, count + 1);
    side_step(work, rows, tris, second, g, n)
}

// Over a side to the corner beyond.
#[cycle(corner_step_side_step)]
fn side_step(work: &mut [u32], rows: usize, tris: usize, k: usize, g: &Group, count: usize) -> usize
    requires { (k < 3 * tris) × spec.Ready rows tris g.now.number count work.old }
    ensures { spec.Steps rows (spec.walk work.old count) (spec.walk work.new result) (λ n. spec.side rows (spec.corner rows g.now.number g.now.vertex g.now.orientation n) (spec.walk work.old count) k) }
{
    let Some(u) = neighbors::link_at(work, rows, 3 * tris, k) else {
        return count;
    };
    corner_step(work, rows, tris, u / 3, g, count)
}

// ---- the groups

// The group that starts at corner k, unless its triangle is `group_with_any` or the corner is in a group. Where its members begin is stored.
pub fn open_at(work: &mut [u32], rows: usize, k: usize, s: GroupCounts) -> Option<Group>
    requires { (k < rows) × (s.groups ≤ k) × (s.members ≤ rows) × (columns * rows ≤ length work.old) × (rows < 4294967295) }
    ensures { MatchOption result (spec.Shut rows k work.old work.new) (λ g. spec.Opened rows k s g work.old work.new) }
{
    let t = k / 3;
    if work[table::ANY * rows + t] != 0 {
        return None;
    }
    if work[table::GROUP * rows + k] != 0 {
        return None;
    }
    let g = Group {
        number: s.groups + 1,
        vertex: work[table::VERTEX * rows + k],
        orientation: work[table::ORIENTATION * rows + t],
    };
    work[table::BEGIN * rows + s.groups as usize] = s.members as u32;
    Some(g)
}

// The turn of corner k: a group starts there, unless its triangle is `group_with_any` or the corner is in a group.
fn start_at(work: &mut [u32], rows: usize, tris: usize, k: usize, s: GroupCounts) -> GroupCounts
    requires { (k < 3 * tris) × (s.groups ≤ k) × spec.Ready rows tris (s.groups + 1) s.members work.old }
    ensures { spec.Turned rows tris k (spec.state work.old s) (spec.state work.new result) }
{
    let Some(g) = open_at(work, rows, k, s) else {
        return s;
    };
    GroupCounts {
        groups: g.number,
        members: corner_step(work, rows, tris, k / 3, &g, s.members),
    }
}

// All groups, in triangle and corner order.
fn walk_all(work: &mut [u32], rows: usize, tris: usize) -> GroupCounts
    requires { (3 * tris ≤ rows) × (columns * rows ≤ length work.old) × (rows < 4294967295) × ((r : ℕ) → r < 3 * tris → cell rows link_column r work.old ≤ 3 * tris) }
    ensures is { spec.state work.new result ≡ up_to (3 * tris) (spec.turn rows) (spec.state (spec.cleared rows work.old) (record { groups = 0; members = 0 })) }
    ensures few { (result.groups ≤ 3 * tris) × (result.members ≤ rows) }
    ensures only { Only spec.walk_columns rows work.old work.new }
{
    let mut s = GroupCounts {
        groups: 0,
        members: 0,
    };
    table::clear(work, rows, table::GROUP);
    // a loop and no fold, since a closure that changes the list would tell the proof nothing of it
    for k in 0..3 * tris {
        s = start_at(work, rows, tris, k, s);
    }
    s
}

// Step 6: the corners of sound triangles in groups.
pub fn build_4_rule_groups(work: &mut [u32], rows: usize, tris: usize) -> GroupCounts
    requires { (3 * tris ≤ rows) × (columns * rows ≤ length work.old) × (rows < 4294967295) × ((r : ℕ) → r < 3 * tris → cell rows link_column r work.old ≤ 3 * tris) }
    ensures grouped { (ss : List Triangle) (d : Triangle) (ls : List step5.Link) → Between ss ls → length ss ≡ tris → Names ss → Sharp ss d → Asked rows ss d ls work.old → Walked rows ss d ls work.old work.new result.groups result.members }
    ensures few { (result.groups ≤ 3 * tris) × (result.members ≤ rows) }
    ensures only { Only spec.walk_columns rows work.old work.new }
{
    walk_all(work, rows, tris)
}
