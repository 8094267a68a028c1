// A corner's tangent space, its reading, and a slot's twelve words.
// Carried over from mikktspace/raw_tangent_space.rs of the Rust crate bevy_mikktspace and ALTERED: written anew in Rattle; readings and words are added. See NOTICE.
#![tactic(auto)]

ghost use Rattle.std.specs.Prelude.{◌≡◌};
ghost use Rattle.tangent.specs.Slot as slot;
ghost use Rattle.tangent.specs.Space as spec;

use math::Vec3;

// Equal by float comparison in all eight numbers.
#[derive(Clone, Copy, PartialEq)]
pub struct RawTangentSpace {
    // Normalized first order face derivatives,
    pub s: Vec3,
    pub t: Vec3,
    // and the magnitudes of the triangles behind them, weighted by their angles; not the lengths of s and t before they were normalized.
    pub s_magnitude: f32,
    pub t_magnitude: f32,
}

// What a subgroup gives: a tangent space, and how many triangles stood behind it (request E7).
#[derive(Clone, Copy)]
pub struct Evaluated {
    pub space: RawTangentSpace,
    pub behind: u32,
}

// What a corner has, with its orientation: nothing; what one subgroup gave, or two that were combined; and after step 9 a copy, to a corner of a degenerate triangle or within a quad.
#[derive(Clone, Copy)]
pub enum Reading {
    Absent,
    Single(Evaluated, bool),
    Combined(Evaluated, bool),
    Copied(Evaluated, bool),
    Filled(Evaluated, bool),
}

impl RawTangentSpace {
    pub const ZERO: RawTangentSpace = RawTangentSpace {
        s: Vec3::ZERO,
        t: Vec3::ZERO,
        s_magnitude: 0.0,
        t_magnitude: 0.0,
    };

    // ZERO as a call: what a contract can cite.
    pub fn zero() -> Self
        ensures { result ≡ spec.zero_tangent }
    {
        RawTangentSpace::ZERO
    }

    #[tactic(auto, unfolding(crate::specs::Space::combine, crate::specs::Space::mean, crate::specs::Space::equals, math::specs::Vector::equals))]
    pub fn combine(self, rhs: Self) -> Self
        ensures { result ≡ spec.combine self rhs }
    {
        if self == rhs {
            return self;
        }
        RawTangentSpace {
            s: (self.s + rhs.s).normalized_or_zero(),
            t: (self.t + rhs.t).normalized_or_zero(),
            s_magnitude: 0.5 * (self.s_magnitude + rhs.s_magnitude),
            t_magnitude: 0.5 * (self.t_magnitude + rhs.t_magnitude),
        }
    }
}

// A sum of two counts, as a word holds it: modulo 2 ^ 32.
pub fn counted(m: u32, n: u32) -> u32
    ensures { result ≡ spec.counted m n }
{
    m.wrapping_add(n)
}

impl Evaluated {
    // Both tangent spaces combined, and how many stood behind either.
    #[tactic(auto, unfolding(crate::specs::Space::united))]
    pub fn unite(self, rhs: Self) -> Self
        ensures { result ≡ spec.united self rhs }
    {
        Evaluated {
            space: self.space.combine(rhs.space),
            behind: counted(self.behind, rhs.behind),
        }
    }
}

// A slot reached once more: the first time its reading is single, after that combined. The orientation is the later one.
#[tactic(auto, unfolding(crate::specs::Space::reached))]
pub fn reached(r: Reading, v: Evaluated, orientation: bool) -> Reading
    ensures { result ≡ spec.reached r v orientation }
{
    match r {
        Reading::Absent => Reading::Single(v, orientation),
        Reading::Single(u, _)
        | Reading::Combined(u, _)
        | Reading::Copied(u, _)
        | Reading::Filled(u, _) => Reading::Combined(u.unite(v), orientation),
    }
}

// What a copy of a reading that is there is, within a quad or not.
#[tactic(auto, unfolding(crate::specs::Space::copied))]
fn copied(e: Evaluated, orientation: bool, quad: bool) -> Reading
    ensures { result ≡ spec.copied e orientation quad }
{
    if quad {
        Reading::Filled(e, orientation)
    } else {
        Reading::Copied(e, orientation)
    }
}

// A copy of a reading, to a corner of a degenerate triangle or within a quad; of an absent one it is absent.
#[tactic(auto, unfolding(crate::specs::Space::copy_of))]
pub fn copy_of(r: Reading, quad: bool) -> Reading
    ensures { result ≡ spec.copy_of quad r }
{
    match r {
        Reading::Absent => Reading::Absent,
        Reading::Single(e, o)
        | Reading::Combined(e, o)
        | Reading::Copied(e, o)
        | Reading::Filled(e, o) => copied(e, o, quad),
    }
}

// How many words a slot has.
pub const SLOT_WORDS: usize = 12;

// Where a frame came from, word 10 of a slot that is there.
pub const SINGLE: u32 = 1;

pub const COMBINED: u32 = 2;

pub const COPIED: u32 = 3;

pub const FILLED: u32 = 4;

// The words of a slot.
#[tactic(auto, unfolding(crate::specs::Slot::words))]
pub fn words(r: Reading) -> [u32; SLOT_WORDS]
    ensures { result ≡ slot.words r }
{
    match r {
        Reading::Absent => [0; SLOT_WORDS],
        Reading::Single(u, o) => present(SINGLE, u, o),
        Reading::Combined(u, o) => present(COMBINED, u, o),
        Reading::Copied(u, o) => present(COPIED, u, o),
        Reading::Filled(u, o) => present(FILLED, u, o),
    }
}

// Orientation as a word.
#[tactic(auto, unfolding(crate::specs::Slot::flag))]
pub fn flag(b: bool) -> u32
    ensures { result ≡ slot.flag b }
{
    u32::from(b)
}

// The words of a slot that is there; origin says where its frame came from.
#[tactic(auto, unfolding(crate::specs::Slot::present, crate::specs::Slot::ten_words))]
fn present(origin: u32, e: Evaluated, orientation: bool) -> [u32; SLOT_WORDS]
    ensures { result ≡ slot.present origin e orientation }
{
    let RawTangentSpace {
        s,
        t,
        s_magnitude,
        t_magnitude,
    } = e.space;
    [
        1,
        bits::word(s.x),
        bits::word(s.y),
        bits::word(s.z),
        bits::word(t.x),
        bits::word(t.y),
        bits::word(t.z),
        bits::word(s_magnitude),
        bits::word(t_magnitude),
        flag(orientation),
        origin,
        e.behind,
    ]
}

// The vector of three words.
#[tactic(auto, unfolding(crate::specs::Slot::vector_of))]
fn vector_of(x: u32, y: u32, z: u32) -> Vec3
    ensures { result ≡ slot.vector_of x y z }
{
    Vec3::new(bits::number(x), bits::number(y), bits::number(z))
}

// The numbers of a slot that is there.
#[tactic(auto, unfolding(crate::specs::Slot::space_of))]
fn space_of(words: [u32; SLOT_WORDS]) -> RawTangentSpace
    ensures { result ≡ slot.space_of words }
{
    RawTangentSpace {
        s: vector_of(words[1], words[2], words[3]),
        t: vector_of(words[4], words[5], words[6]),
        s_magnitude: bits::number(words[7]),
        t_magnitude: bits::number(words[8]),
    }
}

// A reading by where it came from: single or one of the two copies, and combined otherwise.
#[tactic(auto, unfolding(crate::specs::Slot::of_origin))]
fn of_origin(origin: u32, e: Evaluated, orientation: bool) -> Reading
    ensures { result ≡ slot.of_origin origin e orientation }
{
    match origin {
        SINGLE => Reading::Single(e, orientation),
        COPIED => Reading::Copied(e, orientation),
        FILLED => Reading::Filled(e, orientation),
        _ => Reading::Combined(e, orientation),
    }
}

// The reading that a slot's words tell of.
#[tactic(auto, unfolding(crate::specs::Slot::reading_of))]
pub fn reading_of(words: [u32; SLOT_WORDS]) -> Reading
    ensures { result ≡ slot.reading_of words }
{
    if words[0] == 0 {
        return Reading::Absent;
    }
    let e = Evaluated {
        space: space_of(words),
        behind: words[11],
    };
    of_origin(words[10], e, words[9] == 1)
}
