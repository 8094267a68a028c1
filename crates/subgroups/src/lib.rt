// Step 7: the subgroup of a member, and the sum of its contributions.
// Carried over from mikktspace.rs (generate_tangent_spaces, evaluate_tangent_space) of the Rust crate bevy_mikktspace and ALTERED: written anew in Rattle, over columns. See NOTICE.
// A pair of members costs two dot products and two comparisons; a sum is worked out again only where the subgroup is another than that of the member before.
#![tactic(auto)]

ghost use Rattle.std.specs.Prelude.{◌≡◌, true, [], ◌∷◌, ◌-◌, ◌*◌, ◌<◌, ◌≤◌, length};
ghost use Rattle.table.specs.Columns.{columns, met_column, order_column, joined_column};
ghost use Rattle.table.specs.Table.{cell, put};
ghost use Rattle.view.specs.Frame.{Only};
ghost use Rattle.subgroups.specs.Subgroups as spec;
ghost use Rattle.subgroups.specs.Spans as spans;

use definition::Sum;
use hulls::Hull;
use math::Vec3;
use tangent::{Evaluated, RawTangentSpace};

// ---- the subgroup

// What the test of a pair asks of a corner: whether its triangle is `group_with_any`, its face, and both directions, projected.
#[derive(Clone, Copy)]
pub struct Peer {
    pub any: bool,
    pub face: u32,
    pub s: Vec3,
    pub t: Vec3,
}

// The corner at a row.
#[tactic(auto, unfolding(crate::specs::Subgroups::peer_at))]
fn peer_at(work: &[u32], rows: usize, r: usize) -> Peer
    requires { (r < rows) × (columns * rows ≤ length work.now) }
    ensures { result ≡ spec.peer_at rows r work.now }
{
    Peer {
        any: records::is_any(work, rows, r / 3),
        face: records::face_at(work, rows, r / 3),
        s: contributions::s_at(work, rows, r),
        t: contributions::t_at(work, rows, r),
    }
}

// Whether the corner at row r is in the subgroup of a member: either `group_with_any`, the same face, or both cosines strictly above the threshold.
#[tactic(auto, unfolding(crate::specs::Subgroups::peer_at, crate::specs::Subgroups::joins_by))]
fn joins(work: &[u32], rows: usize, threshold: f32, m: Peer, r: usize) -> bool
    requires { (r < rows) × (columns * rows ≤ length work.now) }
    ensures { result ≡ spec.joins_by threshold m (spec.peer_at rows r work.now) }
{
    m.any
        || records::is_any(work, rows, r / 3)
        || m.face == records::face_at(work, rows, r / 3)
        || (threshold < m.s.dot(contributions::s_at(work, rows, r))
            && threshold < m.t.dot(contributions::t_at(work, rows, r)))
}

// Whether the p-th in triangle order is in it, marked; the result says whether it was marked so before.
#[tactic(auto, unfolding(crate::specs::Subgroups::mark_of, crate::specs::Subgroups::joins_at))]
fn mark(work: &mut [u32], rows: usize, threshold: f32, m: Peer, p: usize) -> bool
    requires { (p < rows) × (cell rows order_column p work.old < rows) × (columns * rows ≤ length work.old) }
    ensures { (work.new ≡ put rows joined_column p (spec.mark_of rows threshold m p work.old) work.old) × (result ≡ true → work.new ≡ work.old) }
{
    let r = work[table::ORDER * rows + p] as usize;
    let b = tangent::flag(joins(work, rows, threshold, m, r));
    if work[table::JOINED * rows + p] == b {
        return true;
    }
    work[table::JOINED * rows + p] = b;
    false
}

// The whole subgroup, of the group whose members stand from one place to another; the result says whether it is the one that was marked before.
fn mark_subgroup(
    work: &mut [u32],
    rows: usize,
    threshold: f32,
    m: Peer,
    from: usize,
    to: usize,
) -> bool
    requires { (from ≤ to) × (to ≤ rows) × (columns * rows ≤ length work.old) × spec.Ranged rows to work.old }
    ensures { spec.Marked rows threshold m from (to - from) work.old work.new × (result ≡ true → work.new ≡ work.old) }
{
    let mut same = true;
    for p in from..to {
        same &= mark(work, rows, threshold, m, p);
    }
    same
}

// ---- its sum

// The tangent space that the corner at row r brings: its projected directions, and its triangle's magnitudes.
#[tactic(auto, unfolding(crate::specs::Subgroups::space_at))]
fn space_at(work: &[u32], rows: usize, r: usize) -> RawTangentSpace
    requires { (r < rows) × (columns * rows ≤ length work.now) }
    ensures { result ≡ spec.space_at rows work.now r }
{
    RawTangentSpace {
        s: contributions::s_at(work, rows, r),
        t: contributions::t_at(work, rows, r),
        s_magnitude: records::s_magnitude_at(work, rows, r / 3),
        t_magnitude: records::t_magnitude_at(work, rows, r / 3),
    }
}

// The contribution of the corner at row r; none of a `group_with_any` triangle.
#[tactic(auto, unfolding(crate::specs::Subgroups::add_row))]
fn add_row(work: &[u32], rows: usize, r: usize, z: Sum) -> Sum
    requires { (r < rows) × (columns * rows ≤ length work.now) }
    ensures { result ≡ spec.add_row rows work.now r z }
{
    let any = records::is_any(work, rows, r / 3); // it brings nothing
    if any {
        return z;
    }
    let angle = bits::number(work[table::OPENING * rows + r]);
    sums::weigh(z, angle, space_at(work, rows, r))
}

// Whether the p-th in triangle order is taken: where all are, or where it is marked.
#[tactic(auto, unfolding(crate::specs::Subgroups::taken_at))]
fn taken(work: &[u32], rows: usize, all: bool, p: usize) -> bool
    requires { (p < rows) × (columns * rows ≤ length work.now) }
    ensures { result ≡ spec.taken_at rows all work.now p }
{
    all || work[table::JOINED * rows + p] == 1
}

// The contribution of the p-th in triangle order, if it is taken. One call of `add_row`, so that it is compiled in place.
#[tactic(auto, unfolding(crate::specs::Subgroups::add_taken))]
fn add_taken(work: &[u32], rows: usize, all: bool, p: usize, z: Sum) -> Sum
    requires { (p < rows) × (cell rows order_column p work.now < rows) × (columns * rows ≤ length work.now) }
    ensures { result ≡ spec.add_taken rows all work.now p z }
{
    if taken(work, rows, all, p) {
        add_row(work, rows, work[table::ORDER * rows + p] as usize, z)
    } else {
        z
    }
}

// The sum of all members, or of the marked ones, made a tangent space, and how many added to it. A place p, since its row and its mark stand in two columns.
fn sum_taken(work: &[u32], rows: usize, all: bool, from: usize, to: usize) -> Evaluated
    requires { (from ≤ to) × (to ≤ rows) × (columns * rows ≤ length work.now) × spec.Ranged rows to work.now }
    ensures { result ≡ spec.taken_sum rows all from (to - from) work.now }
{
    let mut z = sums::nothing();
    for p in from..to {
        z = add_taken(work, rows, all, p, z);
    }
    sums::finish(z)
}

// The sum of all that are marked, made a tangent space, and how many added to it.
#[tactic(auto, unfolding(crate::specs::Subgroups::taken_sum, crate::specs::Subgroups::add_taken, crate::specs::Subgroups::taken_at, crate::specs::Subgroups::add_marked, crate::specs::Subgroups::evaluated))]
pub fn evaluate_tangent_space(work: &[u32], rows: usize, from: usize, to: usize) -> Evaluated
    requires { (from ≤ to) × (to ≤ rows) × (columns * rows ≤ length work.now) × spec.Ranged rows to work.now }
    ensures { result ≡ spec.evaluated rows from (to - from) work.now }
{
    sum_taken(work, rows, false, from, to)
}

// ---- a whole group

// The hulls of the projected directions of some corners.
#[derive(Clone, Copy)]
pub struct Span {
    pub s: Hull,
    pub t: Hull,
}

// The corner at row r taken in; a corner of a `group_with_any` triangle joins all, and is left out.
#[tactic(auto, unfolding(crate::specs::Spans::absorbed))]
fn absorb(work: &[u32], rows: usize, r: usize, b: Span) -> Span
    requires { (r < rows) × (columns * rows ≤ length work.now) }
    ensures { result ≡ spans.absorbed rows work.now r b }
{
    if records::is_any(work, rows, r / 3) {
        return b;
    }
    Span {
        s: b.s.widened(contributions::s_at(work, rows, r)),
        t: b.t.widened(contributions::t_at(work, rows, r)),
    }
}

// The p-th as met and the p-th in triangle order taken in.
#[tactic(auto, unfolding(crate::specs::Spans::absorbed_at))]
fn absorb_at(work: &[u32], rows: usize, p: usize, b: Span) -> Span
    requires { (p < rows) × (cell rows met_column p work.now < rows) × (cell rows order_column p work.now < rows) × (columns * rows ≤ length work.now) }
    ensures { result ≡ spans.absorbed_at rows work.now p b }
{
    let c = absorb(work, rows, work[table::MET * rows + p] as usize, b);
    absorb(work, rows, work[table::ORDER * rows + p] as usize, c)
}

// The hulls of the group whose members stand from one place to another. A place p, since it is one of two columns.
fn span_of(work: &[u32], rows: usize, from: usize, to: usize) -> Span
    requires { (from ≤ to) × (to ≤ rows) × (columns * rows ≤ length work.now) × spec.Ranged rows to work.now }
    ensures { result ≡ spans.span_of rows from (to - from) work.now }
{
    let mut b = Span {
        s: Hull::nothing(),
        t: Hull::nothing(),
    };
    for p in from..to {
        b = absorb_at(work, rows, p, b);
    }
    b
}

// Whether each member of the group joins each other, by the hulls' bound; false says nothing.
pub fn whole(work: &[u32], rows: usize, threshold: f32, from: usize, to: usize) -> bool
    requires { (from ≤ to) × (to ≤ rows) × (columns * rows ≤ length work.now) × spec.Ranged rows to work.now }
    ensures { result ≡ true → spans.Whole rows threshold from (to - from) work.now }
{
    let b = span_of(work, rows, from, to);
    b.s.above(threshold) & b.t.above(threshold)
}

// The sum of the whole group, made a tangent space, and how many added to it.
#[tactic(auto, unfolding(crate::specs::Subgroups::taken_sum, crate::specs::Subgroups::add_taken, crate::specs::Subgroups::taken_at, crate::specs::Spans::summed))]
pub fn sum_of_all(work: &[u32], rows: usize, from: usize, to: usize) -> Evaluated
    requires { (from ≤ to) × (to ≤ rows) × (columns * rows ≤ length work.now) × spec.Ranged rows to work.now }
    ensures { result ≡ spans.summed rows from (to - from) work.now }
{
    sum_taken(work, rows, true, from, to)
}

// ---- a member

// What the member at row r brings; `before` is what the marked ones give, and is taken again where the marks stay.
pub fn space_of(
    work: &mut [u32],
    rows: usize,
    threshold: f32,
    r: usize,
    from: usize,
    to: usize,
    before: Evaluated,
) -> Evaluated
    requires { (from ≤ to) × (to ≤ rows) × (columns * rows ≤ length work.old) × spec.Ranged rows to work.old × (r < rows) × (before ≡ spec.evaluated rows from (to - from) work.old) }
    ensures { (result ≡ spec.value_of rows threshold r from (to - from) work.old) × (result ≡ spec.evaluated rows from (to - from) work.new) × Only (joined_column ∷ []) rows work.old work.new }
{
    let m = peer_at(work, rows, r);
    let same = mark_subgroup(work, rows, threshold, m, from, to);
    if same {
        before
    } else {
        evaluate_tangent_space(work, rows, from, to)
    }
}
