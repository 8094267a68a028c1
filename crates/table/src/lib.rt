// The lent work list seen as a table: COLUMNS columns of 6F rows, since a face gives at most two triangles, six corners.
// The cell of a column at a row is word column * rows + row. Each column has its name here and in specs/Columns.antt.
#![tactic(auto)]

ghost use Rattle.std.specs.Prelude.{◌≡◌, ◌*◌, ◌≤◌, ◌<◌, ◌++◌, length, drop, replicate};
ghost use Rattle.table.specs.Columns.{columns};
ghost use Rattle.table.specs.Table.{filled_to};

// How many columns there are: 21 times 6F words are 126F of the 128F that are lent. Columns 0 and 1 are free until step 7, but for TAG and INTO in the old edition.
pub const COLUMNS: usize = 21;

// The tag of the corner that a corner is merged with in the old edition's step 4.
pub const TAG: usize = 0;

// The row that it is merged with.
pub const INTO: usize = 1;

// The numbers of a triangle's three corners in the lists handed in.
pub const CORNER: usize = 2;

// The numbers of their slots.
pub const SLOT: usize = 3;

// A triangle's face, whether it is the second of it, the corner it misses.
pub const NAME: usize = 4;

// The three numbers of its first-order tangent's s.
pub const TANGENT_S: usize = 5;

// And of its t.
pub const TANGENT_T: usize = 6;

// The two magnitudes, and whether its quad is marked.
pub const MAGNITUDE: usize = 7;

// A triangle's orientation, at row t.
pub const ORIENTATION: usize = 8;

// Whether it is `group_with_any`, at row t.
pub const ANY: usize = 9;

// The row of the first corner that a corner is welded to.
pub const VERTEX: usize = 10;

// The side beyond a side: its row and one, or 0 where there is none.
pub const LINK: usize = 11;

// The number of the group of a corner, from 1 on, or 0 where it is in none.
pub const GROUP: usize = 12;

// The members of the groups, as rows of corners: groups in the order they started, members as they were met.
pub const MET: usize = 13;

// The lower of the two vertices in which a side ends; 0 while members are sorted.
pub const LOWER: usize = 15;

// The higher one.
pub const HIGHER: usize = 16;

// The rows of the sides, in their order; after step 6 the members of each group, in triangle order.
pub const ORDER: usize = 17;

// What the sort works in.
pub const SPARE: usize = 18;

// The welding's buckets: the last corner put into each, its row and one, or 0.
pub const HEAD: usize = 19;

// The corner that was put into the same bucket before it, its row and one, or 0.
pub const NEXT: usize = 20;

// Where each group's members begin among all of them; the welding's buckets are done with by then.
pub const BEGIN: usize = 19;

// What a corner brings to a sum (step 7): the x, y and z of its projected s; the columns before it are done with by then.
pub const S_X: usize = 0;

pub const S_Y: usize = 1;

pub const S_Z: usize = 11;

// Of its projected t.
pub const T_X: usize = 14;

pub const T_Y: usize = 15;

pub const T_Z: usize = 16;

// Its angle.
pub const OPENING: usize = 18;

// Whether a member, in triangle order, is in the subgroup of the member at hand.
pub const JOINED: usize = 20;

// A column of zeros.
pub fn clear(work: &mut [u32], rows: usize, column: usize)
    requires { (column < columns) × (columns * rows ≤ length work.old) }
    ensures { work.new ≡ filled_to rows column (λ _. 0) work.old rows }
{
    let from = column * rows;
    work[from..from + rows].fill(0);
}

// The first words of a list, zeros.
pub fn clear_first(words: &mut [u32], count: usize)
    requires { count ≤ length words.old }
    ensures { words.new ≡ replicate count 0 ++ drop count words.old }
{
    words[..count].fill(0);
}
