// Steps 7 and 8: groups in the order they started, members as they were met; each brings its subgroup's sum to its slot.
// Carried over from mikktspace.rs (generate_tangent_spaces) of the Rust crate bevy_mikktspace and ALTERED: written anew in Rattle, over columns. See NOTICE.
#![tactic(auto)]

ghost use Rattle.std.specs.Prelude.{◌≡◌, [], ◌∷◌, ◌+◌, ◌-◌, ◌*◌, ◌<◌, ◌≤◌, length};
ghost use Rattle.table.specs.Columns.{columns, joined_column};
ghost use Rattle.view.specs.Frame.{Only};
ghost use Rattle.members.specs.Members.{begin_of};
ghost use Rattle.subgroups.specs.Subgroups.{Ranged, evaluated};
ghost use Rattle.spaces.specs.Spaces as spec;

use groups::GroupCounts;
use tangent::Evaluated;

// The slot of the member at row r is reached by g.
#[tactic(auto, unfolding(crate::specs::Spaces::reach_with))]
fn reach_one(work: &[u32], rows: usize, answer: &mut [u32], r: usize, g: Evaluated)
    requires { (r < rows) × (columns * rows ≤ length work.now) }
    ensures { answer.new ≡ spec.reach_with rows work.now g r answer.old }
{
    let slot = records::slot_at(work, rows, r) as usize;
    let orientation = work[table::ORIENTATION * rows + r / 3] == 1;
    slots::reach(answer, slot, g, orientation);
}

// The member at row r of the group whose members stand from one place to another. `before` is the sum of the marked, and so is the result.
fn reach_member(
    work: &mut [u32],
    rows: usize,
    threshold: f32,
    answer: &mut [u32],
    r: usize,
    from: usize,
    to: usize,
    before: Evaluated,
) -> Evaluated
    requires { (r < rows) × (from ≤ to) × (to ≤ rows) × (columns * rows ≤ length work.old) × Ranged rows to work.old × (before ≡ evaluated rows from (to - from) work.old) }
    ensures { (answer.new ≡ spec.reach_row rows threshold from (to - from) work.old r answer.old) × (result ≡ evaluated rows from (to - from) work.new) × Only (joined_column ∷ []) rows work.old work.new }
{
    let g = subgroups::space_of(work, rows, threshold, r, from, to, before);
    reach_one(work, rows, answer, r, g);
    g
}

// Its members, one after the other, each with a subgroup of its own. By their places, since the work list is lent to each member in turn.
fn reach_each(
    work: &mut [u32],
    rows: usize,
    threshold: f32,
    answer: &mut [u32],
    from: usize,
    to: usize,
)
    requires { (from ≤ to) × (to ≤ rows) × (columns * rows ≤ length work.old) × Ranged rows to work.old }
    ensures { (answer.new ≡ spec.reach_group rows threshold from to work.old answer.old) × Only (joined_column ∷ []) rows work.old work.new }
{
    let mut sum = subgroups::evaluate_tangent_space(work, rows, from, to);
    for j in from..to {
        let r = work[table::MET * rows + j] as usize;
        sum = reach_member(work, rows, threshold, answer, r, from, to, sum);
    }
}

// Its members, one after the other, all with the one sum.
fn reach_whole(work: &[u32], rows: usize, answer: &mut [u32], from: usize, to: usize)
    requires { (from ≤ to) × (to ≤ rows) × (columns * rows ≤ length work.now) × Ranged rows to work.now }
    ensures { answer.new ≡ spec.reach_whole rows from to work.now answer.old }
{
    let g = subgroups::sum_of_all(work, rows, from, to);
    for j in from..to {
        reach_one(work, rows, answer, work[table::MET * rows + j] as usize, g);
    }
}

// A group: where every member joins every other, one sum serves all.
fn reach_group(
    work: &mut [u32],
    rows: usize,
    threshold: f32,
    answer: &mut [u32],
    from: usize,
    to: usize,
)
    requires { (from ≤ to) × (to ≤ rows) × (columns * rows ≤ length work.old) × Ranged rows to work.old }
    ensures { (answer.new ≡ spec.reach_group rows threshold from to work.old answer.old) × Only (joined_column ∷ []) rows work.old work.new }
{
    let whole = subgroups::whole(work, rows, threshold, from, to);
    if whole {
        reach_whole(work, rows, answer, from, to);
    } else {
        reach_each(work, rows, threshold, answer, from, to);
    }
}

// Group number q + 1.
fn reach_at(
    work: &mut [u32],
    rows: usize,
    threshold: f32,
    answer: &mut [u32],
    q: usize,
    s: GroupCounts,
)
    requires { (q < s.groups) × (s.groups ≤ rows) × (s.members ≤ rows) × (columns * rows ≤ length work.old) × Ranged rows s.members work.old }
    ensures { (answer.new ≡ spec.reach_group rows threshold (begin_of rows s.groups s.members work.old q) (begin_of rows s.groups s.members work.old (q + 1)) work.old answer.old) × Only (joined_column ∷ []) rows work.old work.new }
{
    let from = members::begin_at(work, rows, q, s);
    let to = members::begin_at(work, rows, q + 1, s);
    if from < to {
        reach_group(work, rows, threshold, answer, from, to);
    }
}

// All groups.
pub fn generate_tangent_spaces(
    work: &mut [u32],
    rows: usize,
    threshold: f32,
    answer: &mut [u32],
    s: GroupCounts,
)
    requires { (s.groups ≤ rows) × (s.members ≤ rows) × (columns * rows ≤ length work.old) × Ranged rows s.members work.old }
    ensures { (answer.new ≡ spec.reach_all rows threshold s.groups s.members work.old answer.old) × Only (joined_column ∷ []) rows work.old work.new }
{
    for q in 0..s.groups as usize {
        reach_at(work, rows, threshold, answer, q, s);
    }
}
