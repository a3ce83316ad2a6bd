// The calls along a curve, with the control points as a list of 16 numbers.

ghost use Rattle.std.specs.Prelude.{◌≡◌, length};
ghost use Rattle.tangents_c.specs.Curve.{controls_of, check_curve_at, point_after, check_curve_points, points_after};

use linalg::Vec4;
use questions::{Question, Refusal};
use smoothing::tangent_at;

// Four control points.
#[derive(Clone, Copy)]
pub struct Controls {
    pub p0: Vec4,
    pub p1: Vec4,
    pub p2: Vec4,
    pub p3: Vec4,
}

// Those of a list: four numbers each, as a tangent has.
#[tactic(auto, unfolding(crate::specs::Curve::controls_of))]
fn controls_of(list: &[f64]) -> Controls
    requires { length list.now ≡ 16 }
    ensures { result ≡ controls_of list.now }
{
    Controls {
        p0: tangent_at(list, 0),
        p1: tangent_at(list, 1),
        p2: tangent_at(list, 2),
        p3: tangent_at(list, 3),
    }
}

// Position and direction at parameter x, into a list of six numbers.
pub fn curve_at(controls: &[f64], x: f64, point: &mut [f64]) -> Result<(), Refusal>
    ensures answer { result ≡ check_curve_at controls.now x point.old }
    ensures point { point.new ≡ point_after controls.now x point.old }
{
    let fit = questions::has_length(controls.len(), 4, 4)
        & questions::has_length(point.len(), 2, 3);
    questions::ask_at(Question::Lengths, 0, fit)?;
    let Controls { p0, p1, p2, p3 } = controls_of(controls);
    let found = curve::curve_at(p0, p1, p2, p3, x)?;
    smoothing::put_point(point, 0, found.position);
    smoothing::put_point(point, 1, found.direction);
    Ok(())
}

// So many points along the curve.
pub fn curve_points(controls: &[f64], count: usize, points: &mut [f64]) -> Result<(), Refusal>
    ensures answer { result ≡ check_curve_points controls.now count points.old }
    ensures points { points.new ≡ points_after controls.now count points.old }
{
    questions::ask_at(
        Question::Lengths,
        0,
        questions::has_length(controls.len(), 4, 4),
    )?;
    let Controls { p0, p1, p2, p3 } = controls_of(controls);
    curve::curve_points(p0, p1, p2, p3, count, points)
}
