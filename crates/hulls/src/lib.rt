// The least and the greatest of vectors, component by component, and a bound from below for the dot product of any two of them.
// Rounding keeps the order, so the bound holds of computed products and sums, exactly; a NaN among the numbers stays in the hull, which is not regular then.
#![tactic(auto)]

ghost use Rattle.std.specs.Prelude.{◌≡◌, cond};
ghost use Rattle.std.specs.Float.{nan};
ghost use Rattle.hulls.specs.Hull as spec;

use math::Vec3;

// The least and the greatest of each component.
#[derive(Clone, Copy)]
pub struct Hull {
    pub lo: Vec3,
    pub hi: Vec3,
}

// The one of two numbers that a comparison is for; a NaN where there is none, since they cannot be compared.
fn chosen(a: f32, x: f32, first: bool, second: bool) -> f32
    ensures { result ≡ cond first a (cond second x nan) }
{
    if first {
        a
    } else if second {
        x
    } else {
        f32::NAN
    }
}

// The lesser of two numbers; a NaN where they cannot be compared.
#[tactic(auto, unfolding(crate::specs::Hull::lesser))]
fn lesser(a: f32, x: f32) -> f32
    ensures { result ≡ spec.lesser a x }
{
    chosen(a, x, a <= x, x < a)
}

// The greater of two numbers; a NaN where they cannot be compared.
#[tactic(auto, unfolding(crate::specs::Hull::greater))]
fn greater(a: f32, x: f32) -> f32
    ensures { result ≡ spec.greater a x }
{
    chosen(a, x, a >= x, a < x)
}

// The least product of two numbers from lo to hi.
#[tactic(auto, unfolding(crate::specs::Hull::lowest))]
fn lowest(lo: f32, hi: f32) -> f32
    ensures { result ≡ spec.lowest lo hi }
{
    if lo < 0.0 {
        if 0.0 < hi { lo * hi } else { hi * hi }
    } else {
        lo * lo
    }
}

impl Hull {
    // The hull of no vector: it takes the first between -2 and 2 for its own.
    pub fn nothing() -> Self
        ensures { result ≡ spec.nothing }
    {
        Hull {
            lo: Vec3::new(2.0, 2.0, 2.0),
            hi: Vec3::new(-2.0, -2.0, -2.0),
        }
    }

    // A vector taken into a hull.
    #[tactic(auto, unfolding(crate::specs::Hull::widened))]
    pub fn widened(self, v: Vec3) -> Self
        ensures { result ≡ spec.widened self v }
    {
        let Hull { lo, hi } = self;
        Hull {
            lo: Vec3::new(lesser(lo.x, v.x), lesser(lo.y, v.y), lesser(lo.z, v.z)),
            hi: Vec3::new(greater(hi.x, v.x), greater(hi.y, v.y), greater(hi.z, v.z)),
        }
    }

    // Whether all that it took in lies between -2 and 2.
    #[tactic(auto, unfolding(crate::specs::Hull::regular))]
    fn is_regular(self) -> bool
        ensures { result ≡ spec.regular self }
    {
        let Hull { lo, hi } = self;
        (-2.0 <= lo.x)
            & (-2.0 <= lo.y)
            & (-2.0 <= lo.z)
            & (hi.x <= 2.0)
            & (hi.y <= 2.0)
            & (hi.z <= 2.0)
    }

    // What the dot product of any two vectors of the hull is not below.
    #[tactic(auto, unfolding(crate::specs::Hull::bound))]
    fn bound(self) -> f32
        ensures { result ≡ spec.bound self.lo self.hi }
    {
        let Hull { lo, hi } = self;
        lowest(lo.x, hi.x) + lowest(lo.y, hi.y) + lowest(lo.z, hi.z)
    }

    // Whether the dot product of any two vectors of the hull is above the threshold, by the bound.
    #[tactic(auto, unfolding(crate::specs::Hull::above))]
    pub fn above(self, threshold: f32) -> bool
        ensures { result ≡ spec.above self threshold }
    {
        self.is_regular() & (threshold < self.bound())
    }
}
