// The Rust's answers to leaf calls.

use crate::reader::Reader;
use crate::tally::Tally;
use linalg::{Quat, Vec3, Vec4};
use math::RemPio2;
use std::io;

// The bytes of a record.
const RECORD: usize = 96;

#[derive(Clone, Copy)]
enum Call {
    Sqrt,
    Sin,
    Cos,
    Acos,
    RemPio2,
    Round,
    Length,
    Normalize,
    Cross,
    Dot,
    Qrot,
    RotationQuatAxisAngle,
    SafeNormalize,
    Wrap,
    AngleBetween,
    EqualNormals,
    CircularTangent,
    Radians,
    Clamp,
    Max,
    Min,
    ToI32,
}

// A number of no call.
#[derive(Clone, Copy)]
struct UnknownCall;

impl TryFrom<u64> for Call {
    type Error = UnknownCall;

    fn try_from(number: u64) -> Result<Self, UnknownCall> {
        match number {
            1 => Ok(Call::Sqrt),
            2 => Ok(Call::Sin),
            3 => Ok(Call::Cos),
            4 => Ok(Call::Acos),
            5 => Ok(Call::RemPio2),
            6 => Ok(Call::Round),
            7 => Ok(Call::Length),
            8 => Ok(Call::Normalize),
            9 => Ok(Call::Cross),
            10 => Ok(Call::Dot),
            11 => Ok(Call::Qrot),
            12 => Ok(Call::RotationQuatAxisAngle),
            13 => Ok(Call::SafeNormalize),
            14 => Ok(Call::Wrap),
            15 => Ok(Call::AngleBetween),
            16 => Ok(Call::EqualNormals),
            17 => Ok(Call::CircularTangent),
            18 => Ok(Call::Radians),
            19 => Ok(Call::Clamp),
            20 => Ok(Call::Max),
            21 => Ok(Call::Min),
            22 => Ok(Call::ToI32),
            _ => Err(UnknownCall),
        }
    }
}

// The four results of a call; those that it does not use are 0.
#[derive(Clone, Copy)]
struct Results([f64; 4]);

impl From<f64> for Results {
    fn from(x: f64) -> Self {
        Results([x, 0.0, 0.0, 0.0])
    }
}

impl From<i32> for Results {
    fn from(n: i32) -> Self {
        f64::from(n).into()
    }
}

// 1 for yes, 0 for no.
impl From<bool> for Results {
    fn from(yes: bool) -> Self {
        f64::from(yes).into()
    }
}

impl From<Vec3> for Results {
    fn from(v: Vec3) -> Self {
        Results([v.x, v.y, v.z, 0.0])
    }
}

impl From<Vec4> for Results {
    fn from(v: Vec4) -> Self {
        Results([v.x, v.y, v.z, v.w])
    }
}

impl From<RemPio2> for Results {
    fn from(r: RemPio2) -> Self {
        Results([f64::from(r.n), r.y0, r.y1, 0.0])
    }
}

fn vector(x: f64, y: f64, z: f64) -> Vec3 {
    Vec3 { x, y, z }
}

fn quaternion(x: f64, y: f64, z: f64, w: f64) -> Quat {
    Quat { x, y, z, w }
}

fn answer(call: Call, [a, b, c, d, e, f, g]: [f64; 7]) -> Results {
    let v = vector(a, b, c);
    let w = vector(d, e, f);
    match call {
        Call::Sqrt => sqrt::sqrt(a).into(),
        Call::Sin => math::sin(a).into(),
        Call::Cos => math::cos(a).into(),
        Call::Acos => math::acos(a).into(),
        Call::RemPio2 => math::rem_pio2(a).into(),
        Call::Round => float::round(a).into(),
        Call::Length => linalg::length(v).into(),
        Call::Normalize => linalg::normalize(v).into(),
        Call::Cross => linalg::cross(v, w).into(),
        Call::Dot => linalg::dot(v, w).into(),
        Call::Qrot => linalg::qrot(quaternion(a, b, c, d), vector(e, f, g)).into(),
        Call::RotationQuatAxisAngle => linalg::rotation_quat_axis_angle(v, d).into(),
        Call::SafeNormalize => smoothing::safe_normalize(v).unwrap_or(Vec3::ZERO).into(),
        Call::Wrap => smoothing::wrap(a).into(),
        Call::AngleBetween => smoothing::angle_between(v, w).into(),
        Call::EqualNormals => smoothing::equal_normals(v, w).into(),
        Call::CircularTangent => smoothing::circular_tangent(v, w).tangent.into(),
        Call::Radians => mesh::radians(a).into(),
        Call::Clamp => float::clamp(a, b, c).into(),
        Call::Max => float::max(a, b).into(),
        Call::Min => float::min(a, b).into(),
        Call::ToI32 => float::to_i32(a).into(),
    }
}

// Are the results of a record's call those that the record has?
fn agrees(mut record: Reader<'_>) -> bool {
    let Ok(call) = Call::try_from(record.read::<u64>()) else {
        return false;
    };
    let mut arguments = [0.0; 7];
    record.fill(&mut arguments);
    let Results(results) = answer(call, arguments);
    record.holds(&results)
}

// Reads the next record, and counts its answer: none where the input has no whole one.
pub fn next<R: io::Read>(input: &mut R, tally: Tally) -> io::Result<Option<Tally>> {
    let mut record = [0u8; RECORD];
    if little_endian::read_full(input, &mut record)? < RECORD {
        return Ok(None);
    }
    Ok(Some(tally.counted(agrees(Reader::new(&record)))))
}
