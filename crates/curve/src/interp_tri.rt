// What the curve of an edge needs of src/interp_tri.rs, by value: a rational cubic Bezier curve at a parameter. A control point has its
// coordinates already times its weight w. Each operation is the Rust's, and each float operation is rounded once.

ghost use Rattle.std.specs.Prelude.{◌≡◌};
ghost use Rattle.curve.specs.InterpTri.Bezier.{hnormalize, lerp4, cubic_bezier_2_linear, bezier_point, safe_normalize, bezier_tangent};

use linalg::{Vec3, Vec4};

// The least length that `safe_normalize` divides by.
const MIN_LENGTH: f64 = 1e-30;

// The two control points of a linear segment: the Rust's pair.
#[derive(Clone, Copy)]
pub struct LinearSegment {
    pub left: Vec4,
    pub right: Vec4,
}

#[tactic(auto, unfolding(crate::specs::InterpTri::Bezier::hnormalize))]
fn hnormalize(v: Vec4) -> Vec3
    ensures { result ≡ hnormalize v }
{
    let coordinates = Vec3 {
        x: v.x,
        y: v.y,
        z: v.z,
    };
    if v.w == 0.0 {
        return coordinates;
    }
    coordinates / v.w
}

#[tactic(auto, unfolding(crate::specs::InterpTri::Bezier::lerp4))]
fn lerp4(a: Vec4, b: Vec4, t: f64) -> Vec4
    ensures { result ≡ lerp4 a b t }
{
    Vec4 {
        x: a.x + (b.x - a.x) * t,
        y: a.y + (b.y - a.y) * t,
        z: a.z + (b.z - a.z) * t,
        w: a.w + (b.w - a.w) * t,
    }
}

#[tactic(auto, unfolding(crate::specs::InterpTri::Bezier::cubic_bezier_2_linear))]
pub fn cubic_bezier_2_linear(p0: Vec4, p1: Vec4, p2: Vec4, p3: Vec4, x: f64) -> LinearSegment
    ensures { result ≡ cubic_bezier_2_linear p0 p1 p2 p3 x }
{
    let p12 = lerp4(p1, p2, x);
    LinearSegment {
        left: lerp4(lerp4(p0, p1, x), p12, x),
        right: lerp4(p12, lerp4(p2, p3, x), x),
    }
}

#[tactic(auto, unfolding(crate::specs::InterpTri::Bezier::bezier_point))]
pub fn bezier_point(points: LinearSegment, x: f64) -> Vec3
    ensures { result ≡ bezier_point points x }
{
    hnormalize(lerp4(points.left, points.right, x))
}

// Not that of `smoothing`, which tests the squared length. Finite numbers whose squared length overflows are divided by infinity, which
// gives zeros; an infinite number becomes not-a-number then, and with not-a-number all three do.
#[tactic(auto, unfolding(crate::specs::InterpTri::Bezier::safe_normalize))]
fn safe_normalize(v: Vec3) -> Vec3
    ensures { result ≡ safe_normalize v }
{
    let len = linalg::length(v);
    if len < MIN_LENGTH {
        return Vec3::ZERO;
    }
    v / len
}

// The direction of the curve: of length 1 up to rounding, but for what `safe_normalize` says.
#[tactic(auto, unfolding(crate::specs::InterpTri::Bezier::bezier_tangent))]
pub fn bezier_tangent(points: LinearSegment) -> Vec3
    ensures { result ≡ bezier_tangent points }
{
    safe_normalize(hnormalize(points.right) - hnormalize(points.left))
}
