// The values that document 01 speaks of, as structs: the definitions and the code have the same types.
#![tactic(auto)]

use math::Vec3;
use tangent::RawTangentSpace;

// The numbers of specs/Limits.antt: the greatest number of faces that is accepted, and the words of work that a face needs.
pub const FACE_LIMIT: usize = 65536;

pub const WORK_WORDS: usize = 128;

// A corner: its position, its normal, its texture coordinates; and its tag: 0 in edition 1, in edition 2 what step 4 merges it with.
#[derive(Clone, Copy)]
pub struct Corner {
    pub place: Vec3,
    pub normal: Vec3,
    pub u: f32,
    pub v: f32,
    pub tag: u32,
}

// A corner that a triangle keeps: which one of its face it is, and its values.
#[derive(Clone, Copy)]
pub struct Kept {
    pub which: u32,
    pub corner: Corner,
}

// A triangle: its face's number, whether it is the second of a quad, the corner of the face that it misses (3 for a face of three, which misses none), and the three that it keeps, in order.
// Then what steps 2 and 3 say of it.
#[derive(Clone, Copy)]
pub struct Triangle {
    pub face: u32,
    pub second: bool,
    pub missing: u32,
    pub a: Kept,
    pub b: Kept,
    pub c: Kept,
    // two of its positions compare equal
    pub degenerate: bool,
    // it belongs to a quad with exactly one degenerate triangle
    pub marked: bool,
    // `group_with_any`
    pub any: bool,
    // true where twice its signed area in the texture is above 0, unless its quad takes the other triangle's orientation; false if degenerate
    pub orientation: bool,
    pub tangent: RawTangentSpace,
}

// A sum of contributions (step 7): of the angles, and of the tangents weighted by them; and how many there were (request E7).
#[derive(Clone, Copy)]
pub struct Sum {
    pub angles: f32,
    pub weighted: RawTangentSpace,
    pub behind: u32,
}
