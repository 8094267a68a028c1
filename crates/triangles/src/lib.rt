// Steps 1 to 3 of one face, by value: the cut of a quad, degenerate triangles, first-order tangents and orientation.
// Carried over from mikktspace.rs (generate_triangle_info_list, calculate_texture_area) of the Rust crate bevy_mikktspace and ALTERED: written anew in Rattle, with document 01's root. See NOTICE.
#![tactic(auto)]

ghost use Rattle.std.specs.Prelude.{◌≡◌, [], ◌∷◌};
ghost use Rattle.definition.specs.Step1Cut as cut;
ghost use Rattle.definition.specs.Step2Degenerate as degenerate;
ghost use Rattle.definition.specs.Step3Tangents as tangents;
ghost use Rattle.definition.specs.Triangles as spec;

use definition::{Corner, Kept, Triangle};
use math::Vec3;
use tangent::RawTangentSpace;

// ---- step 1

// The squared length of a diagonal of the texture.
fn across2(c: Corner, d: Corner) -> f32
    ensures { result ≡ cut.across² c d }
{
    let x = c.u - d.u;
    let y = c.v - d.v;
    x * x + y * y
}

// The squared distance of two positions.
fn apart2(c: Corner, d: Corner) -> f32
    ensures { result ≡ cut.apart² c d }
{
    (c.place - d.place).length_squared()
}

// Whether the cut is 02.
#[tactic(auto, unfolding(definition::specs::Step1Cut::cut02))]
fn cut02(c0: Corner, c1: Corner, c2: Corner, c3: Corner) -> bool
    ensures { result ≡ cut.cut02 c0 c1 c2 c3 }
{
    let a = across2(c2, c0);
    let b = across2(c3, c1);
    if a < b {
        return true;
    }
    if b < a {
        return false;
    }
    let x = apart2(c2, c0);
    let y = apart2(c3, c1);
    x <= y
}

// ---- step 2

// Whether two of the three positions are equal by float comparison.
#[tactic(auto, unfolding(definition::specs::Step2Degenerate::flat, math::specs::Vector::equals))]
fn flat(c: Corner, d: Corner, e: Corner) -> bool
    ensures { result ≡ degenerate.flat c d e }
{
    c.place == d.place || d.place == e.place || e.place == c.place
}

// ---- step 3

// Twice the signed area in the texture.
#[tactic(auto, unfolding(definition::specs::Step3Tangents::turn))]
fn turn(c: Corner, d: Corner, e: Corner) -> f32
    ensures { result ≡ tangents.turn c d e }
{
    (d.u - c.u) * (e.v - c.v) - (d.v - c.v) * (e.u - c.u)
}

// The direction of the texture's first axis, not brought to unit length.
#[tactic(auto, unfolding(definition::specs::Step3Tangents::raw_s))]
fn raw_s(c: Corner, d: Corner, e: Corner) -> Vec3
    ensures { result ≡ tangents.raw_s c d e }
{
    (d.place - c.place) * (e.v - c.v) - (e.place - c.place) * (d.v - c.v)
}

// That of its second axis.
#[tactic(auto, unfolding(definition::specs::Step3Tangents::raw_t))]
fn raw_t(c: Corner, d: Corner, e: Corner) -> Vec3
    ensures { result ≡ tangents.raw_t c d e }
{
    (d.place - c.place) * -(e.u - c.u) + (e.place - c.place) * (d.u - c.u)
}

// 1.0 above zero, and -1.0 else.
#[tactic(auto, unfolding(definition::specs::Step3Tangents::sign_of))]
fn sign_of(w: f32) -> f32
    ensures { result ≡ tangents.sign_of w }
{
    if w > 0.0 { 1.0 } else { -1.0 }
}

// The tangent from twice the signed area and the two raw directions.
#[tactic(auto, unfolding(definition::specs::Step3Tangents::tangent_at))]
fn tangent_at(w: f32, s: Vec3, t: Vec3) -> RawTangentSpace
    ensures { result ≡ tangents.tangent_at w s t }
{
    let k = sign_of(w);
    let area = math::fabsf(w);
    RawTangentSpace {
        s: s.normalized_or_zero() * k,
        t: t.normalized_or_zero() * k,
        s_magnitude: s.length() / area,
        t_magnitude: t.length() / area,
    }
}

// The first-order tangent from the same: the zero tangent where twice the signed area doesn't count.
#[tactic(auto, unfolding(definition::specs::Step3Tangents::first_order))]
fn first_order(w: f32, s: Vec3, t: Vec3) -> RawTangentSpace
    ensures { result ≡ tangents.first_order w s t }
{
    if math::not_zero(w) {
        tangent_at(w, s, t)
    } else {
        RawTangentSpace::ZERO
    }
}

// `group_with_any`: twice the signed area, or one of the two magnitudes, doesn't count, or one of the raw directions is none.
#[tactic(auto, unfolding(definition::specs::Step3Tangents::unsure))]
fn unsure(w: f32, s: Vec3, t: Vec3, g: RawTangentSpace) -> bool
    ensures { result ≡ tangents.unsure w s t g }
{
    !(math::not_zero(w)
        && math::not_zero(g.s_magnitude)
        && math::not_zero(g.t_magnitude)
        && s.points()
        && t.points())
}

// A triangle of three kept corners by itself.
#[tactic(auto, unfolding(definition::specs::Triangles::make))]
pub fn make(face: u32, second: bool, missing: u32, a: Kept, b: Kept, c: Kept) -> Triangle
    ensures { result ≡ spec.make face second missing a b c }
{
    let (p, q, r) = (a.corner, b.corner, c.corner);
    let sound = Triangle {
        face,
        second,
        missing,
        a,
        b,
        c,
        degenerate: false,
        marked: false,
        any: false,
        orientation: false,
        tangent: RawTangentSpace::ZERO,
    };
    if flat(p, q, r) {
        return Triangle {
            degenerate: true,
            ..sound
        };
    }
    let w = turn(p, q, r);
    let s = raw_s(p, q, r);
    let t = raw_t(p, q, r);
    let tangent = first_order(w, s, t);
    Triangle {
        any: unsure(w, s, t, tangent),
        orientation: w > 0.0,
        tangent,
        ..sound
    }
}

// ---- a quad

// The same triangle with this mark and this orientation.
#[tactic(auto, unfolding(definition::specs::Triangles::settled))]
fn settled(t: Triangle, marked: bool, orientation: bool) -> Triangle
    ensures { result ≡ spec.settled t marked orientation }
{
    Triangle {
        marked,
        orientation,
        ..t
    }
}

// Twice the area in the texture.
#[tactic(auto, unfolding(definition::specs::Step3Tangents::area))]
fn area(t: Triangle) -> f32
    ensures { result ≡ tangents.area t }
{
    math::fabsf(turn(t.a.corner, t.b.corner, t.c.corner))
}

// The orientation that a quad of two sound triangles takes where they disagree.
#[tactic(auto, unfolding(definition::specs::Step3Tangents::quad_way))]
fn quad_way(s: Triangle, t: Triangle) -> bool
    ensures { result ≡ tangents.quad_way s t }
{
    if t.any || area(t) <= area(s) {
        s.orientation
    } else {
        t.orientation
    }
}

// The two triangles of a quad.
#[derive(Clone, Copy)]
pub struct Two {
    pub first: Triangle,
    pub second: Triangle,
}

// Whether each keeps its own orientation: one is degenerate, or they agree.
#[tactic(auto, unfolding(definition::specs::Triangles::agree))]
fn agree(s: Triangle, t: Triangle) -> bool
    ensures { result ≡ spec.agree s t }
{
    s.degenerate || t.degenerate || s.orientation == t.orientation
}

// The two as step 2 marks them and step 3 settles their orientation.
#[tactic(auto, unfolding(definition::specs::Triangles::pair, definition::specs::Step2Degenerate::exactly_one))]
fn pair(s: Triangle, t: Triangle) -> Two
    ensures { result.first ∷ result.second ∷ [] ≡ spec.pair s t }
{
    let marked = s.degenerate != t.degenerate;
    if agree(s, t) {
        return Two {
            first: settled(s, marked, s.orientation),
            second: settled(t, marked, t.orientation),
        };
    }
    let way = quad_way(s, t);
    Two {
        first: settled(s, marked, way),
        second: settled(t, marked, way),
    }
}

// Corner number which of its face, with its values.
fn nook(which: u32, corner: Corner) -> Kept
    ensures { result ≡ spec.nook which corner }
{
    Kept { which, corner }
}

// The two triangles of a quad, by its cut.
#[tactic(auto, unfolding(definition::specs::Triangles::quad))]
pub fn quad(face: u32, c0: Corner, c1: Corner, c2: Corner, c3: Corner) -> Two
    ensures { result.first ∷ result.second ∷ [] ≡ spec.quad face c0 c1 c2 c3 }
{
    let k0 = nook(0, c0);
    let k1 = nook(1, c1);
    let k2 = nook(2, c2);
    let k3 = nook(3, c3);
    if cut02(c0, c1, c2, c3) {
        let s = make(face, false, 3, k0, k1, k2);
        let t = make(face, true, 1, k0, k2, k3);
        return pair(s, t);
    }
    let s = make(face, false, 2, k0, k1, k3);
    let t = make(face, true, 0, k1, k2, k3);
    pair(s, t)
}
