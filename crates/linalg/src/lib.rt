// The vectors and quaternions of src/linalg.rs that the tangents need, by value. Each operation is the Rust's, component
// by component, and each float operation is rounded once.
#![tactic(auto)]

ghost use Rattle.std.specs.Prelude.{◌≡◌};
ghost use Rattle.linalg.specs.Vec.{add3, sub3, neg3, scale3, div3, is_zero, dot_of, cross_of, qxdir_of, qydir_of, qzdir_of, qrot_of, length2_of, length_of, normalize_of, rotation_quat_axis_angle};

use std::ops::{Add, Div, Mul, Neg, Sub};

#[derive(Clone, Copy, PartialEq)]
pub struct Vec3 {
    pub x: f64,
    pub y: f64,
    pub z: f64,
}

impl Vec3 {
    pub const ZERO: Vec3 = Vec3 {
        x: 0.0,
        y: 0.0,
        z: 0.0,
    };
}

// A tangent, with its weight w.
#[derive(Clone, Copy)]
pub struct Vec4 {
    pub x: f64,
    pub y: f64,
    pub z: f64,
    pub w: f64,
}

// As in the Rust, another name.
pub type Quat = Vec4;

impl Add for Vec3 {
    type Output = Vec3;

    ghost add_gives = { λ a b r. r ≡ add3 a b };

    #[tactic(auto, unfolding(crate::specs::Vec::add3))]
    fn add(self, b: Vec3) -> Vec3 {
        Vec3 {
            x: self.x + b.x,
            y: self.y + b.y,
            z: self.z + b.z,
        }
    }
}

impl Sub for Vec3 {
    type Output = Vec3;

    ghost sub_gives = { λ a b r. r ≡ sub3 a b };

    #[tactic(auto, unfolding(crate::specs::Vec::sub3))]
    fn sub(self, b: Vec3) -> Vec3 {
        Vec3 {
            x: self.x - b.x,
            y: self.y - b.y,
            z: self.z - b.z,
        }
    }
}

impl Neg for Vec3 {
    type Output = Vec3;

    ghost neg_gives = { λ a r. r ≡ neg3 a };

    #[tactic(auto, unfolding(crate::specs::Vec::neg3))]
    fn neg(self) -> Vec3 {
        Vec3 {
            x: -self.x,
            y: -self.y,
            z: -self.z,
        }
    }
}

impl Mul<f64> for Vec3 {
    type Output = Vec3;

    ghost mul_gives = { λ a s r. r ≡ scale3 a s };

    #[tactic(auto, unfolding(crate::specs::Vec::scale3))]
    fn mul(self, s: f64) -> Vec3 {
        Vec3 {
            x: self.x * s,
            y: self.y * s,
            z: self.z * s,
        }
    }
}

impl Div<f64> for Vec3 {
    type Output = Vec3;

    ghost div_gives = { λ a s r. r ≡ div3 a s };

    #[tactic(auto, unfolding(crate::specs::Vec::div3))]
    fn div(self, s: f64) -> Vec3 {
        Vec3 {
            x: self.x / s,
            y: self.y / s,
            z: self.z / s,
        }
    }
}

// Is each number zero, of either sign?
#[tactic(auto, unfolding(crate::specs::Vec::is_zero))]
pub fn is_zero(a: Vec3) -> bool
    ensures { result ≡ is_zero a }
{
    (a.x == 0.0) & (a.y == 0.0) & (a.z == 0.0)
}

#[tactic(auto, unfolding(crate::specs::Vec::dot_of))]
pub fn dot(a: Vec3, b: Vec3) -> f64
    ensures { result ≡ dot_of a b }
{
    a.x * b.x + a.y * b.y + a.z * b.z
}

#[tactic(auto, unfolding(crate::specs::Vec::cross_of))]
pub fn cross(a: Vec3, b: Vec3) -> Vec3
    ensures { result ≡ cross_of a b }
{
    Vec3 {
        x: a.y * b.z - a.z * b.y,
        y: a.z * b.x - a.x * b.z,
        z: a.x * b.y - a.y * b.x,
    }
}

#[tactic(auto, unfolding(crate::specs::Vec::qxdir_of))]
pub fn qxdir(q: Quat) -> Vec3
    ensures { result ≡ qxdir_of q }
{
    Vec3 {
        x: q.w * q.w + q.x * q.x - q.y * q.y - q.z * q.z,
        y: (q.x * q.y + q.z * q.w) * 2.0,
        z: (q.z * q.x - q.y * q.w) * 2.0,
    }
}

#[tactic(auto, unfolding(crate::specs::Vec::qydir_of))]
pub fn qydir(q: Quat) -> Vec3
    ensures { result ≡ qydir_of q }
{
    Vec3 {
        x: (q.x * q.y - q.z * q.w) * 2.0,
        y: q.w * q.w - q.x * q.x + q.y * q.y - q.z * q.z,
        z: (q.y * q.z + q.x * q.w) * 2.0,
    }
}

#[tactic(auto, unfolding(crate::specs::Vec::qzdir_of))]
pub fn qzdir(q: Quat) -> Vec3
    ensures { result ≡ qzdir_of q }
{
    Vec3 {
        x: (q.z * q.x + q.y * q.w) * 2.0,
        y: (q.y * q.z - q.x * q.w) * 2.0,
        z: q.w * q.w - q.x * q.x - q.y * q.y + q.z * q.z,
    }
}

#[tactic(auto, unfolding(crate::specs::Vec::qrot_of))]
pub fn qrot(q: Quat, v: Vec3) -> Vec3
    ensures { result ≡ qrot_of q v }
{
    qxdir(q) * v.x + qydir(q) * v.y + qzdir(q) * v.z
}

#[tactic(auto, unfolding(crate::specs::Vec::length2_of))]
pub fn length2(a: Vec3) -> f64
    ensures { result ≡ length2_of a }
{
    dot(a, a)
}

#[tactic(auto, unfolding(crate::specs::Vec::length_of))]
pub fn length(a: Vec3) -> f64
    ensures { result ≡ length_of a }
{
    sqrt::sqrt(length2(a))
}

#[tactic(auto, unfolding(crate::specs::Vec::normalize_of))]
pub fn normalize(a: Vec3) -> Vec3
    ensures { result ≡ normalize_of a }
{
    a / length(a)
}

// A rotation by an angle about an axis.
#[tactic(auto, unfolding(crate::specs::Vec::rotation_quat_axis_angle))]
pub fn rotation_quat_axis_angle(axis: Vec3, angle: f64) -> Quat
    ensures { result ≡ rotation_quat_axis_angle axis angle }
{
    let s = math::sin(angle / 2.0);
    let c = math::cos(angle / 2.0);
    Quat {
        x: axis.x * s,
        y: axis.y * s,
        z: axis.z * s,
        w: c,
    }
}
