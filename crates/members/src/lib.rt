// The members of each group once more, in triangle order, which step 7 sums in.
#![tactic(auto)]

ghost use Rattle.std.specs.Prelude.{◌≡◌, List, [], ◌∷◌, ◌+◌, ◌*◌, ◌≤◌, ◌<◌, length, get_or};
ghost use Rattle.definition.specs.declared.Triangle.{Triangle};
ghost use Rattle.definition.specs.Step5Links.{Link};
ghost use Rattle.laws.proofs.Closed.{Between};
ghost use Rattle.definition.specs.Step6Groups.{marks};
ghost use Rattle.definition.specs.Names.{Names};
ghost use Rattle.table.specs.Columns.{columns, met_column, order_column};
ghost use Rattle.table.specs.Table.{column, filled_to};
ghost use Rattle.view.specs.Frame.{Only};
ghost use Rattle.view.specs.Groups.{Grouping, InOrder};
ghost use Rattle.members.specs.Members as spec;

use groups::GroupCounts;

// The members as they were met, copied.
fn copy_members(work: &mut [u32], rows: usize, count: usize)
    requires { (count ≤ rows) × (columns * rows ≤ length work.old) }
    ensures { work.new ≡ filled_to rows order_column (λ j. get_or (column rows met_column work.old) j 0) work.old count }
{
    // By place: with `copy_within` the proof takes the places as they are written, and one that is equal by arithmetic alone is refused.
    for j in 0..count {
        work[table::ORDER * rows + j] = work[table::MET * rows + j];
    }
}

// Where the members of group number q + 1 begin; past the last group, where all end.
pub fn begin_at(work: &[u32], rows: usize, q: usize, s: GroupCounts) -> usize
    requires { (s.groups ≤ rows) × (columns * rows ≤ length work.now) }
    ensures { (result ≡ spec.begin_of rows s.groups s.members work.now q) × (result ≤ s.members) }
{
    if q < s.groups as usize {
        (work[table::BEGIN * rows + q] as usize).min(s.members)
    } else {
        s.members
    }
}

// The members of group number q + 1 sorted by their rows.
fn sort_group(work: &mut [u32], rows: usize, q: usize, s: GroupCounts)
    requires { (q < s.groups) × (s.groups ≤ rows) × (s.members ≤ rows) × (columns * rows ≤ length work.old) }
    ensures { spec.Sorts rows (spec.begin_of rows s.groups s.members work.old q) (spec.begin_of rows s.groups s.members work.old (q + 1)) work.old work.new }
{
    let from = begin_at(work, rows, q, s);
    let to = begin_at(work, rows, q + 1, s);
    if from < to {
        sort::sort(work, rows, from, to);
    }
}

// Those of every group.
fn sort_groups(work: &mut [u32], rows: usize, s: GroupCounts)
    requires { (s.groups ≤ rows) × (s.members ≤ rows) × (columns * rows ≤ length work.old) }
    ensures { spec.Sorting rows s.groups s.members work.old s.groups work.new }
{
    // by the number, since a group's members end where the next one's begin
    for q in 0..s.groups as usize {
        sort_group(work, rows, q, s);
    }
}

// The members of every group in triangle order, beside their order as met.
pub fn order_members(work: &mut [u32], rows: usize, s: GroupCounts)
    requires { (s.groups ≤ rows) × (s.members ≤ rows) × (columns * rows ≤ length work.old) × (rows < 4294967295) }
    ensures ordered { (ss : List Triangle) (d : Triangle) (ls : List Link) → Between ss ls → 3 * length ss ≤ rows → Names ss → s.members ≡ length (marks ss ls) → Grouping rows ss d (marks ss ls) s.groups work.old → InOrder rows ss s.groups s.members work.new }
    ensures only { Only spec.order_columns rows work.old work.new }
{
    table::clear(work, rows, table::LOWER);
    table::clear(work, rows, table::HIGHER);
    copy_members(work, rows, s.members);
    sort_groups(work, rows, s);
}
