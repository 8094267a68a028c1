// Vectors of three single-precision numbers, by value.
// Carried over from math.rs of the Rust crate bevy_mikktspace and ALTERED: written anew in Rattle, with one root for `Ops`. See NOTICE.
#![tactic(auto)]

ghost use Rattle.std.specs.Prelude.{◌≡◌};
ghost use Rattle.math.specs.Vector as spec;

use std::ops::{Add, Mul, Neg, Sub};

// Equal by float comparison: -0.0 equals 0.0, and a NaN equals nothing.
#[derive(Clone, Copy, PartialEq)]
pub struct Vec3 {
    pub x: f32,
    pub y: f32,
    pub z: f32,
}

impl Vec3 {
    pub const ZERO: Vec3 = Vec3 {
        x: 0.0,
        y: 0.0,
        z: 0.0,
    };

    // ZERO as a call: what a contract can cite.
    pub fn zero() -> Self
        ensures { result ≡ spec.origin }
    {
        Vec3::ZERO
    }

    pub fn new(x: f32, y: f32, z: f32) -> Self
        ensures { result ≡ spec.vec x y z }
    {
        Vec3 { x, y, z }
    }

    #[tactic(auto, unfolding(crate::specs::Vector::dot))]
    pub fn dot(self, rhs: Self) -> f32
        ensures { result ≡ spec.dot self rhs }
    {
        self.x * rhs.x + self.y * rhs.y + self.z * rhs.z
    }

    pub fn length_squared(self) -> f32
        ensures { result ≡ spec.dot self self }
    {
        self.dot(self)
    }

    #[tactic(auto, unfolding(crate::specs::Vector::length_of))]
    pub fn length(self) -> f32
        ensures { result ≡ spec.length_of self }
    {
        root::sqrt(self.length_squared())
    }

    // A component counts, and the squared length is neither zero, infinite nor NaN.
    #[tactic(auto, unfolding(crate::specs::Vector::points))]
    pub fn points(self) -> bool
        ensures { result ≡ spec.points self }
    {
        (not_zero(self.x) || not_zero(self.y) || not_zero(self.z)) && spans(self.length_squared())
    }

    // Where it points: to unit length, or the plain word that there is no direction.
    #[tactic(auto, unfolding(crate::specs::Vector::direction, crate::specs::Vector::length_of))]
    pub fn direction(self) -> Option<Self>
        ensures { result ≡ spec.direction self }
    {
        if self.points() {
            return Some(self * (1.0 / self.length()));
        }
        None
    }

    // To unit length, and the zero vector where there is no direction.
    #[tactic(auto, unfolding(crate::specs::Vector::unit_of, crate::specs::Vector::or_zero, crate::specs::Vector::origin))]
    pub fn normalized_or_zero(self) -> Self
        ensures { result ≡ spec.unit_of self }
    {
        self.direction().unwrap_or(Vec3::ZERO)
    }
}

impl Add for Vec3 {
    type Output = Self;

    #[tactic(auto, unfolding(crate::specs::Vector::added))]
    fn add(self, rhs: Self) -> Self
        ensures { result ≡ spec.added self rhs }
    {
        Vec3 {
            x: self.x + rhs.x,
            y: self.y + rhs.y,
            z: self.z + rhs.z,
        }
    }
}

impl Sub for Vec3 {
    type Output = Self;

    #[tactic(auto, unfolding(crate::specs::Vector::subtracted))]
    fn sub(self, rhs: Self) -> Self
        ensures { result ≡ spec.subtracted self rhs }
    {
        Vec3 {
            x: self.x - rhs.x,
            y: self.y - rhs.y,
            z: self.z - rhs.z,
        }
    }
}

impl Mul<f32> for Vec3 {
    type Output = Self;

    #[tactic(auto, unfolding(crate::specs::Vector::scaled_by))]
    fn mul(self, rhs: f32) -> Self
        ensures { result ≡ spec.scaled_by self rhs }
    {
        Vec3 {
            x: rhs * self.x,
            y: rhs * self.y,
            z: rhs * self.z,
        }
    }
}

impl Neg for Vec3 {
    type Output = Self;

    #[tactic(auto, unfolding(crate::specs::Vector::negated))]
    fn neg(self) -> Self
        ensures { result ≡ spec.negated self }
    {
        Vec3 {
            x: -self.x,
            y: -self.y,
            z: -self.z,
        }
    }
}

// The absolute value: of a zero, +0.0; of a NaN, a NaN.
pub fn fabsf(x: f32) -> f32
    ensures { result ≡ spec.abs x }
{
    if x < 0.0 {
        -x
    } else if x == 0.0 {
        0.0
    } else {
        x
    }
}

// Of a squared length: neither zero, infinite nor NaN.
#[tactic(auto, unfolding(crate::specs::Vector::spans))]
fn spans(q: f32) -> bool
    ensures { result ≡ spec.spans q }
{
    let zero = q == 0.0;
    !zero && bits::is_finite(q)
}

// Strictly above 2 ^ -126, bits 00800000, in size.
#[tactic(auto, unfolding(crate::specs::Vector::counts))]
pub fn not_zero(x: f32) -> bool
    ensures { result ≡ spec.counts x }
{
    fabsf(x) > 1.1754943508222875e-38
}
