// The desk: refusals 1 to 7 of document 01 and request E4, checked in the table's order; the first that applies is given, and none otherwise.
#![tactic(auto)]

ghost use Rattle.std.specs.Prelude.{◌≡◌, cond, ◌+◌, ◌*◌, ◌≤◌, ◌<◌, ◌^◌, length};
ghost use Rattle.std.proofs.Math.Option.{none, some};
ghost use Rattle.definition.specs.Desk.{shown};
ghost use Rattle.definition.specs.Desk as desk;
ghost use Rattle.definition.specs.Handed.{corners_from, used, corner_count, slot_count};
ghost use Rattle.definition.specs.Limits.{face_limit};
ghost use Rattle.mesh.specs.Parts.{given};
ghost use Rattle.desk.specs.Verdict as spec;

use definition::Corner;
use math::Vec3;
use mesh::Mesh;

// Why a call is refused: a row of the table, with the lowest corner that it is about where it is about one; or a list of a call's own that is too short.
#[derive(Clone, Copy, PartialEq, Eq, Debug)]
pub enum Refusal {
    TooManyFaces,
    Misfit,
    Threshold,
    NotFinite(u32),
    NoNormal(u32),
    ShortAnswer,
    ShortWork,
    ShortOwn,
}

impl Refusal {
    // Its number.
    #[tactic(auto, unfolding(crate::specs::Verdict::number_of))]
    pub fn number(self) -> u32
        ensures { result ≡ spec.number_of self }
    {
        match self {
            Refusal::TooManyFaces => 1,
            Refusal::Misfit => 2,
            Refusal::Threshold => 3,
            Refusal::NotFinite(_) => 4,
            Refusal::ShortAnswer => 5,
            Refusal::ShortWork => 6,
            Refusal::NoNormal(_) => 7,
            Refusal::ShortOwn => 9,
        }
    }

    // Its place: the corner, and 0 where it is about none.
    #[tactic(auto, unfolding(crate::specs::Verdict::place_of))]
    pub fn place(self) -> u32
        ensures { result ≡ spec.place_of self }
    {
        match self {
            Refusal::NotFinite(i) | Refusal::NoNormal(i) => i,
            _ => 0,
        }
    }
}

// What is wrong with corners: the lowest that holds a NaN or infinity, and the lowest without a normal.
#[derive(Clone, Copy)]
struct Flaws {
    bad: Option<u32>,
    bare: Option<u32>,
}

// What one pass over the lists tells: C, S, and what is wrong, among the corners of faces of 3 or 4.
#[derive(Clone, Copy)]
struct Seen {
    corners: u32,
    slots: u32,
    flaws: Flaws,
}

#[tactic(auto, unfolding(definition::specs::Desk::finite_vector))]
fn finite_vector(v: Vec3) -> bool
    ensures { result ≡ desk.finite_vector v }
{
    bits::is_finite(v.x) && bits::is_finite(v.y) && bits::is_finite(v.z)
}

#[tactic(auto, unfolding(definition::specs::Desk::finite_corner))]
fn finite_corner(c: Corner) -> bool
    ensures { result ≡ desk.finite_corner c }
{
    finite_vector(c.place)
        && finite_vector(c.normal)
        && bits::is_finite(c.u)
        && bits::is_finite(c.v)
}

// Whether a component of the corner's normal counts.
#[tactic(auto, unfolding(definition::specs::Desk::has_normal))]
fn has_normal(c: Corner) -> bool
    ensures { result ≡ desk.has_normal c }
{
    let n = c.normal;
    math::not_zero(n.x) || math::not_zero(n.y) || math::not_zero(n.z)
}

// A corner that was found before, and else the corner of this number if it is not fine.
#[tactic(auto, unfolding(crate::specs::Verdict::found, crate::specs::Verdict::unless_found))]
fn lowest(found: Option<u32>, fine: bool, i: u32) -> Option<u32>
    ensures { result ≡ spec.found (spec.unless_found found (cond fine none (some i))) }
{
    match found {
        Some(j) => Some(j),
        None if fine => None,
        None => Some(i),
    }
}

// What was wrong before, and what is wrong with corner number i.
fn flaws_with(before: Flaws, c: Corner, i: u32) -> Flaws
    ensures { (result.bad ≡ spec.found (spec.unless_found before.bad (cond (desk.finite_corner c) none (some i)))) × (result.bare ≡ spec.found (spec.unless_found before.bare (cond (desk.has_normal c) none (some i)))) }
{
    Flaws {
        bad: lowest(before.bad, finite_corner(c), i),
        bare: lowest(before.bare, has_normal(c), i),
    }
}

// What was wrong before, and what is wrong with count corners from number from on.
fn flaws_in(mesh: &Mesh, before: Flaws, from: u32, count: u32) -> Flaws
    requires { from + count < 2 ^ 32 }
    ensures { (result.bad ≡ spec.found (spec.unless_found before.bad (desk.bad_in desk.finite_corner from (corners_from mesh.now.positions.now mesh.now.normals.now mesh.now.texture.now from count)))) × (result.bare ≡ spec.found (spec.unless_found before.bare (desk.bad_in desk.has_normal from (corners_from mesh.now.positions.now mesh.now.normals.now mesh.now.texture.now from count)))) }
{
    let mut flaws = before;
    for i in from..from + count {
        flaws = flaws_with(flaws, mesh.corner_at(i), i);
    }
    flaws
}

// The same of a face of a size, which counts only if it is 3 or 4.
fn flaws_of_face(mesh: &Mesh, before: Flaws, from: u32, size: u8) -> Flaws
    requires { from + size < 2 ^ 32 }
    ensures { (result.bad ≡ spec.found (spec.unless_found before.bad (cond (used size) (desk.bad_in desk.finite_corner from (corners_from mesh.now.positions.now mesh.now.normals.now mesh.now.texture.now from size)) none))) × (result.bare ≡ spec.found (spec.unless_found before.bare (cond (used size) (desk.bad_in desk.has_normal from (corners_from mesh.now.positions.now mesh.now.normals.now mesh.now.texture.now from size)) none))) }
{
    let unused = mesh::slots_of(size) == 0;
    if unused {
        return before;
    }
    flaws_in(mesh, before, from, size as u32)
}

// One pass over all lists: C, S, and the lowest corner of each kind in all faces of 3 or 4, counted over all C. C is at most 255 * 65,536, so no sum overflows.
fn look_over(mesh: &Mesh) -> Seen
    requires { length mesh.now.sizes.now ≤ face_limit }
    ensures { (result.corners ≡ corner_count mesh.now.sizes.now) × (result.slots ≡ slot_count mesh.now.sizes.now) × (result.flaws.bad ≡ spec.found (desk.not_finite (given mesh.now))) × (result.flaws.bare ≡ spec.found (desk.no_normal (given mesh.now))) }
{
    let mut corners: u32 = 0;
    let mut slots: u32 = 0;
    let mut flaws = Flaws {
        bad: None,
        bare: None,
    };
    for &size in mesh.sizes {
        flaws = flaws_of_face(mesh, flaws, corners, size);
        corners += size as u32;
        slots += mesh::slots_of(size) as u32;
    }
    Seen {
        corners,
        slots,
        flaws,
    }
}

// The verdict on a mesh, a threshold, and the lengths of the lists that are lent: the first row of the table that applies.
pub fn judge(mesh: &Mesh, threshold: f32, answer: usize, work: usize) -> Result<(), Refusal>
    ensures { spec.told result ≡ spec.as_verdict (desk.verdict (shown (given mesh.now) threshold answer work)) }
{
    let faces = mesh.sizes.len();
    let many = definition::FACE_LIMIT < faces;
    if many {
        return Err(Refusal::TooManyFaces);
    }
    let seen = look_over(mesh);
    let misfit = mesh::unfit(
        seen.corners,
        mesh.positions.len(),
        mesh.normals.len(),
        mesh.texture.len(),
    );
    if misfit {
        return Err(Refusal::Misfit);
    }
    if !bits::is_finite(threshold) {
        return Err(Refusal::Threshold);
    }
    if let Some(i) = seen.flaws.bad {
        return Err(Refusal::NotFinite(i));
    }
    if let Some(i) = seen.flaws.bare {
        return Err(Refusal::NoNormal(i));
    }
    let few = answer < tangent::SLOT_WORDS * (seen.slots as usize);
    if few {
        return Err(Refusal::ShortAnswer);
    }
    let short = work < definition::WORK_WORDS * faces;
    if short {
        return Err(Refusal::ShortWork);
    }
    Ok(())
}
