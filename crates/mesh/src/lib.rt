// What is handed in, read: a corner of the lists, the sums of the sizes, the part of a list that belongs to a face.
// FaceVertex is carried over from mikktspace/face_vertex.rs of the Rust crate bevy_mikktspace and ALTERED: written anew in Rattle. See NOTICE.
#![tactic(auto)]

ghost use Rattle.std.specs.Prelude.{ℕ, T, ◌≡◌, false, cond, [], ◌+◌, ◌*◌, ◌%◌, ◌^◌, ◌≤◌, ◌<◌, min, length, get_or, take};
ghost use Rattle.std.specs.Float.{nan, binary32};
ghost use Rattle.std.specs.Float.Ieee.{fits};
ghost use Rattle.definition.specs.Handed.{handed, vector_at, corner_at, corner_count, slots_of, slot_count};
ghost use Rattle.definition.specs.Limits.{face_limit};
ghost use Rattle.math.specs.Vector.{vec};
ghost use Rattle.definition.specs.Desk as desk;
ghost use Rattle.mesh.specs.Parts as spec;

use definition::Corner;
use math::Vec3;
// A mesh as it is handed in: the faces' sizes, and the numbers of their corners. A contract speaks of it as the definition's `Handed`, by `given`.
#[derive(Clone, Copy)]
pub struct Mesh<'a> {
    pub sizes: &'a [u8],
    pub positions: &'a [f32],
    pub normals: &'a [f32],
    pub texture: &'a [f32],
}

// Each number of a list is one of single precision, or a NaN past its end.
fn single(xs: &[f32])
    ensures { (i : ℕ) → T (fits binary32 (get_or xs.now i nan)) }
{
    let _numbers = xs;
}

// A corner of a face as one number: face times 4 plus corner.
#[derive(Clone, Copy)]
pub struct FaceVertex {
    pub value: u32,
}

// Where a part of a list stands: the place of its first number, and how many numbers it has.
#[repr(C)]
#[derive(Clone, Copy)]
pub struct Span {
    pub from: usize,
    pub count: usize,
}

impl FaceVertex {
    // The crate's debug panics, as bounds that always hold: the face's number is below 2 ^ 30 and the corner's below 4.
    pub fn new(face: u32, vertex: u32) -> Self
        ensures { result.value ≡ 4 * (face % 2 ^ 30) + vertex % 4 }
    {
        FaceVertex {
            value: 4 * (face % 0x4000_0000) + vertex % 4,
        }
    }

    pub fn face(self) -> u32
        ensures { result ≡ spec.face_of self.value }
    {
        self.value / 4
    }

    pub fn vertex(self) -> u32
        ensures { result ≡ spec.vertex_in self.value }
    {
        self.value % 4
    }
}

// The number at a place, and a NaN past the end.
pub fn number_at(xs: &[f32], i: usize) -> f32
    ensures { result ≡ get_or xs.now i nan }
{
    if i < xs.len() {
        return xs[i];
    }
    0.0 / 0.0
}

// The three numbers of corner number i, of positions or normals.
#[tactic(auto, unfolding(definition::specs::Handed::vector_at))]
pub fn vector_at(xs: &[f32], i: u32) -> Vec3
    ensures { result ≡ vector_at xs.now i }
{
    let at = (i as usize) * 3;
    Vec3 {
        x: number_at(xs, at),
        y: number_at(xs, at + 1),
        z: number_at(xs, at + 2),
    }
}

impl<'a> Mesh<'a> {
    // Corner number i of the three lists.
    #[tactic(auto, unfolding(definition::specs::Handed::corner_at, definition::specs::Handed::vector_at))]
    pub fn corner_at(&self, i: u32) -> Corner
        ensures { result ≡ corner_at self.now.positions.now self.now.normals.now self.now.texture.now i }
    {
        let at = (i as usize) * 2;
        Corner {
            place: vector_at(self.positions, i),
            normal: vector_at(self.normals, i),
            u: number_at(self.texture, at),
            v: number_at(self.texture, at + 1),
            tag: 0,
        }
    }

    // Positions and normals are numbers of single precision: what laws about them start from.
    pub fn single(&self)
        ensures positions { (i : ℕ) → T (fits binary32 (get_or self.now.positions.now i nan)) }
        ensures normals { (i : ℕ) → T (fits binary32 (get_or self.now.normals.now i nan)) }
    {
        single(self.positions);
        single(self.normals);
    }

    // Whether refusal 1 or 2 would catch the lists.
    pub fn caught(&self) -> bool
        ensures { result ≡ spec.caught (spec.given self.now) }
    {
        if definition::FACE_LIMIT < self.sizes.len() {
            return true;
        }
        let corners = corners_before(self.sizes, definition::FACE_LIMIT);
        unfit(
            corners as u32,
            self.positions.len(),
            self.normals.len(),
            self.texture.len(),
        )
    }
}

// How many corners stand before a face, among the first 65,536 faces: no sum of so many bytes overflows.
pub fn corners_before(sizes: &[u8], face: usize) -> usize
    ensures { (result ≡ corner_count (take (min face face_limit) sizes.now)) × (result ≤ 255 * face_limit) }
{
    let end = face.min(definition::FACE_LIMIT).min(sizes.len());
    let mut sum = 0;
    for &size in &sizes[..end] {
        sum += size as usize;
    }
    sum
}

// How many slots a face of a size takes.
#[tactic(auto, unfolding(definition::specs::Handed::slots_of, definition::specs::Handed::used))]
pub fn slots_of(size: u8) -> usize
    ensures { (result ≡ slots_of size) × (result ≤ 4) }
{
    match size {
        3 | 4 => size as usize,
        _ => 0,
    }
}

// How many slots stand before a face, among the first 65,536 faces.
pub fn slots_before(sizes: &[u8], face: usize) -> usize
    ensures { (result ≡ slot_count (take (min face face_limit) sizes.now)) × (result ≤ 4 * face_limit) }
{
    let end = face.min(definition::FACE_LIMIT).min(sizes.len());
    let mut sum = 0;
    for &size in &sizes[..end] {
        sum += slots_of(size);
    }
    sum
}

// Whether refusal 2 applies, for so many corners and lists of these lengths.
pub fn unfit(corners: u32, positions: usize, normals: usize, texture: usize) -> bool
    ensures { result ≡ desk.unfit corners positions normals texture }
{
    let triple = 3 * (corners as usize);
    if positions != triple {
        return true;
    }
    let misfit = normals != triple;
    if misfit {
        return true;
    }
    texture != 2 * (corners as usize)
}

// The part of a list, width numbers a corner, where the numbers of a face stand.
fn part<'a>(sizes: &[u8], xs: &'a [f32], width: usize, face: usize) -> &'a [f32]
    requires { (width ≤ 3) × (length sizes.now ≤ face_limit) × (length xs.now ≡ width * corner_count sizes.now) }
    ensures { result.now ≡ spec.part_or_none width xs.now sizes.now face }
{
    if sizes.len() <= face {
        return &xs[..0];
    }
    let start = width * corners_before(sizes, face);
    let end = start + width * (sizes[face] as usize);
    &xs[start..end]
}

// The same, and the empty part for lists that were caught.
fn unless<'a>(stopped: bool, sizes: &[u8], xs: &'a [f32], width: usize, face: usize) -> &'a [f32]
    requires { stopped ≡ false → (width ≤ 3) × (length sizes.now ≤ face_limit) × (length xs.now ≡ width * corner_count sizes.now) }
    ensures { result.now ≡ cond stopped [] (spec.part_or_none width xs.now sizes.now face) }
{
    if stopped {
        return &xs[..0];
    }
    part(sizes, xs, width, face)
}

// The positions of a face, where they stand in the caller's list: the empty part for a face number of F or above, and for lists that refusal 1 or 2 would catch.
pub fn positions_of<'a>(
    sizes: &[u8],
    positions: &'a [f32],
    normals: &[f32],
    texture: &[f32],
    face: usize,
) -> &'a [f32]
    ensures { result.now ≡ spec.handed_back 3 positions.now (handed sizes.now positions.now normals.now texture.now) face }
{
    let mesh = Mesh {
        sizes,
        positions,
        normals,
        texture,
    };
    unless(mesh.caught(), sizes, positions, 3, face)
}

// The normals of a face, in the same way.
pub fn normals_of<'a>(
    sizes: &[u8],
    positions: &[f32],
    normals: &'a [f32],
    texture: &[f32],
    face: usize,
) -> &'a [f32]
    ensures { result.now ≡ spec.handed_back 3 normals.now (handed sizes.now positions.now normals.now texture.now) face }
{
    let mesh = Mesh {
        sizes,
        positions,
        normals,
        texture,
    };
    unless(mesh.caught(), sizes, normals, 3, face)
}

// The texture coordinates of a face, in the same way.
pub fn texture_of<'a>(
    sizes: &[u8],
    positions: &[f32],
    normals: &[f32],
    texture: &'a [f32],
    face: usize,
) -> &'a [f32]
    ensures { result.now ≡ spec.handed_back 2 texture.now (handed sizes.now positions.now normals.now texture.now) face }
{
    let mesh = Mesh {
        sizes,
        positions,
        normals,
        texture,
    };
    unless(mesh.caught(), sizes, texture, 2, face)
}

// How many numbers a corner has in a list: 0 stands for positions, 1 for normals, 2 for texture coordinates, and another number for no list.
#[tactic(auto, unfolding(crate::specs::Parts::width_of))]
fn width_of(list: u32) -> usize
    ensures { (result ≡ spec.width_of list) × (result ≤ 3) }
{
    match list {
        0 | 1 => 3,
        2 => 2,
        _ => 0,
    }
}

// Where the part of a list that belongs to a face stands, for those who hold the list: the empty part at 0 for a face number of F or above, for lists that refusal 1 or 2 would catch, and in no list.
pub fn span_of(
    sizes: &[u8],
    positions: &[f32],
    normals: &[f32],
    texture: &[f32],
    list: u32,
    face: usize,
) -> Span
    ensures { result ≡ spec.span_of (handed sizes.now positions.now normals.now texture.now) list face }
{
    let mesh = Mesh {
        sizes,
        positions,
        normals,
        texture,
    };
    if mesh.caught() {
        return Span { from: 0, count: 0 };
    }
    let past = face >= sizes.len();
    if past {
        return Span { from: 0, count: 0 };
    }
    let width = width_of(list);
    let from = width * corners_before(sizes, face);
    Span {
        from,
        count: width * (sizes[face] as usize),
    }
}
