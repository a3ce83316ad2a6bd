// Points along the curve of an edge: position and direction at one parameter, and a list of points. A curve is four control points, as
// `cubic_bezier_2_linear` takes them.
#![tactic(auto)]

mod interp_tri;

ghost use Rattle.std.specs.Prelude.{◌≡◌, ◌*◌, ◌<◌, ◌≤◌, true, length, OnOk};
ghost use Rattle.questions.specs.Check.{Values as Checks};
ghost use Rattle.curve.specs.Questions.{is_parameter, max_points, count_fits, check_points};
ghost use Rattle.curve.specs.Curve.{position_at, curve_at, position_of, direction_of, Values, parameter_at, points_of, points_after};
ghost use Rattle.curve.specs.Parameters.{ParametersFit, PointsAnswered, SamePoints};

use linalg::{Vec3, Vec4};
use questions::{Question, Refusal};

// The fewest and the most points of a list (question 41).
const MIN_POINTS: usize = 2;

const MAX_POINTS: usize = 256;

// Where a point of a curve is, and the direction of the curve there: of length 1 up to rounding, or zero where the length that is worked
// out is below 1e-30. Its square can overflow, as with control points 1e200 apart: then the direction is zero though the curve has one.
// With an infinite or not-a-number control point its numbers can be not-a-number.
#[derive(Clone, Copy)]
pub struct CurvePoint {
    pub position: Vec3,
    pub direction: Vec3,
}

// The position of an answer; zero where the parameter is refused.
pub fn position_of(answer: Result<CurvePoint, Refusal>) -> Vec3
    ensures { result ≡ position_of answer }
{
    answer.map_or(Vec3::ZERO, |point| point.position)
}

// The direction of an answer; zero where the parameter is refused.
pub fn direction_of(answer: Result<CurvePoint, Refusal>) -> Vec3
    ensures { result ≡ direction_of answer }
{
    answer.map_or(Vec3::ZERO, |point| point.direction)
}

// Question 40.
#[tactic(auto, unfolding(crate::specs::Questions::is_parameter))]
fn is_parameter(x: f64) -> bool
    ensures { result ≡ is_parameter x }
{
    !(x.is_nan() | (x < 0.0) | (x > 1.0))
}

// Position and direction at parameter x.
pub fn curve_at(p0: Vec4, p1: Vec4, p2: Vec4, p3: Vec4, x: f64) -> Result<CurvePoint, Refusal>
    ensures answer { result ≡ curve_at p0 p1 p2 p3 x }
    ensures values { Values p0 p1 p2 p3 x result }
{
    let checked = questions::ask_at(Question::Parameter, 0, is_parameter(x));
    let Ok(()) = checked else {
        return questions::refused(checked);
    };
    let points = interp_tri::cubic_bezier_2_linear(p0, p1, p2, p3, x);
    Ok(CurvePoint {
        position: interp_tri::bezier_point(points, x),
        direction: interp_tri::bezier_tangent(points),
    })
}

// The position alone.
fn position_at(p0: Vec4, p1: Vec4, p2: Vec4, p3: Vec4, x: f64) -> Vec3
    ensures { result ≡ position_at p0 p1 p2 p3 x }
{
    interp_tri::bezier_point(interp_tri::cubic_bezier_2_linear(p0, p1, p2, p3, x), x)
}

// The parameter of point i of so many.
#[tactic(auto, unfolding(crate::specs::Curve::parameter_at))]
fn parameter_at(i: usize, count: usize) -> f64
    requires { (i < count) × (count ≤ max_points) }
    ensures { result ≡ parameter_at i count }
{
    i as f64 / (count - 1) as f64
}

// All points of a list that is known to have their room.
fn fill_points(p0: Vec4, p1: Vec4, p2: Vec4, p3: Vec4, count: usize, points: &mut [f64])
    requires { (count ≤ max_points) × (length points.old ≡ count * 3) }
    ensures { points.new ≡ points_of p0 p1 p2 p3 count }
{
    for i in 0..count {
        let point = position_at(p0, p1, p2, p3, parameter_at(i, count));
        smoothing::put_point(points, i, point);
    }
}

// Questions 41 and 42, of a list with so many places.
fn check_points(count: usize, room: usize) -> Result<(), Refusal>
    ensures { result ≡ check_points count room }
{
    questions::ask_at(
        Question::CurveCount,
        0,
        (count >= MIN_POINTS) & (count <= MAX_POINTS),
    )?;
    questions::ask_at(
        Question::CurveRoom,
        0,
        questions::has_length(room, count, 3),
    )
}

// Fills the list with 2 to 256 points, three numbers each: point i at parameter i/(count - 1).
#[tactic(auto, using(crate::proofs::Parameters::points_answered, crate::proofs::Parameters::same_of))]
pub fn curve_points(
    p0: Vec4,
    p1: Vec4,
    p2: Vec4,
    p3: Vec4,
    count: usize,
    points: &mut [f64],
) -> Result<(), Refusal>
    ensures answer { result ≡ check_points count (length points.old) }
    ensures points { points.new ≡ points_after p0 p1 p2 p3 count points.old }
    ensures values { Checks (check_points count (length points.old)) result }
    ensures parameters { count_fits count ≡ true → ParametersFit count }
    ensures answered { count_fits count ≡ true → PointsAnswered p0 p1 p2 p3 count }
    ensures same { OnOk result (SamePoints p0 p1 p2 p3 count points.new) }
{
    let checked = check_points(count, points.len());
    let Ok(()) = checked else {
        return checked;
    };
    fill_points(p0, p1, p2, p3, count, points);
    checked
}
