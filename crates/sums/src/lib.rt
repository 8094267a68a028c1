// Step 7 by value: a direction projected, the angle at a corner, one contribution, and the sum made a tangent space.
// Carried over from mikktspace.rs (generate_tangent_spaces, evaluate_tangent_space) of the Rust crate bevy_mikktspace and ALTERED: written anew in Rattle. See NOTICE.
#![tactic(auto)]

ghost use Rattle.std.specs.Prelude.{◌≡◌};
ghost use Rattle.angle.specs.Table.{cosines};
ghost use Rattle.definition.specs.Step7Sums as step7;
ghost use Rattle.sums.specs.Sums as spec;

use definition::Sum;
use math::Vec3;
use tangent::{Evaluated, RawTangentSpace};

// v less n times their dot product, brought to unit length.
#[tactic(auto, unfolding(definition::specs::Step7Sums::projected))]
pub fn project(n: Vec3, v: Vec3) -> Vec3
    ensures { result ≡ step7.projected n v }
{
    (v - n * n.dot(v)).normalized_or_zero()
}

// The angle at p between the sides to q and to r, each projected.
#[tactic(auto, unfolding(crate::specs::Sums::opening_at))]
pub fn opening(table: &[u32; 1025], n: Vec3, p: Vec3, q: Vec3, r: Vec3) -> f32
    requires { table.now ≡ cosines }
    ensures { result ≡ spec.opening_at n p q r }
{
    let to = project(n, q - p);
    let back = project(n, r - p);
    angle::acos_by(table, to.dot(back))
}

// No contribution yet.
pub fn nothing() -> Sum
    ensures { result ≡ step7.empty_sum }
{
    Sum {
        angles: 0.0,
        weighted: RawTangentSpace::ZERO,
        behind: 0,
    }
}

// One contribution more: a tangent space whose directions are projected, weighted by the angle w.
#[tactic(auto, unfolding(crate::specs::Sums::weighed_by))]
pub fn weigh(z: Sum, w: f32, g: RawTangentSpace) -> Sum
    ensures { result ≡ spec.weighed_by z w g }
{
    let sum = z.weighted;
    Sum {
        angles: z.angles + w,
        weighted: RawTangentSpace {
            s: sum.s + g.s * w,
            t: sum.t + g.t * w,
            s_magnitude: sum.s_magnitude + w * g.s_magnitude,
            t_magnitude: sum.t_magnitude + w * g.t_magnitude,
        },
        behind: tangent::counted(z.behind, 1),
    }
}

// A magnitude over the sum of the angles, where that is above zero.
#[tactic(auto, unfolding(crate::specs::Sums::per_angle))]
fn per_angle(magnitude: f32, angles: f32) -> f32
    ensures { result ≡ spec.per_angle magnitude angles }
{
    if 0.0 < angles {
        magnitude / angles
    } else {
        magnitude
    }
}

// The sum made a tangent space, directions to unit length and magnitudes over the sum of the angles, with the number of contributions.
#[tactic(auto, unfolding(definition::specs::Step7Sums::finish, crate::specs::Sums::per_angle))]
pub fn finish(z: Sum) -> Evaluated
    ensures { result ≡ step7.finish z }
{
    let sum = z.weighted;
    Evaluated {
        space: RawTangentSpace {
            s: sum.s.normalized_or_zero(),
            t: sum.t.normalized_or_zero(),
            s_magnitude: per_angle(sum.s_magnitude, z.angles),
            t_magnitude: per_angle(sum.t_magnitude, z.angles),
        },
        behind: z.behind,
    }
}
