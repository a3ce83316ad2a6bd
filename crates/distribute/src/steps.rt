// The float steps of `distribute_tangents` of src/smoothing_tangents.rs: what its first walk gathers, what its second walk
// goes by, and one tangent turned. The two lists of angles are scratch that is lent, and the angle i stands at place i.
// Each function asks for its own place (`e * 4 + 4 ≤ length t`, `i < length desired`): the place differs from call to call, so no
// struct of the lists can hold it.

ghost use Rattle.std.specs.Prelude.{◌≡◌, ◌+◌, ◌*◌, ◌≤◌, ◌<◌, ◌^◌, List, length, is_some, unwrap_or, Float};
ghost use Rattle.float.specs.Ops.{zero};
ghost use Rattle.linalg.specs.declared.Vec4.{Vec4};
ghost use Rattle.mesh.specs.Mesh.{as_halfedges};
ghost use Rattle.smoothing.specs.Lists.{tangent_at, put_tangent};
ghost use Rattle.distribute.specs.Steps.FloatSteps.{is_mark, is_fixed, is_start, edge_direction, tangent_direction, last_or, begin, angle_around, next_current, next_desired, next_normal, gather_edge, turns_none, add_offset, offset_sum, scale_of, offset_of, plan, clamp_angle, clamped_angle, turned_tangent, turn, next};
ghost use Rattle.distribute.specs.Steps.Scratch.{gathered_of, plan_of, EdgeFrom, GatherRoom, TurnRoom};

mod lists;

use linalg::{Vec3, Vec4};
use lists::Angles;
use std::f64::consts::{PI, TAU};

// What the first walk carries besides the angles, `count` of them in each list.
#[derive(Clone, Copy)]
pub struct Carried {
    pub count: usize,
    pub normal: Vec3,
    pub last_edge: Vec3,
    pub first_tangent: Vec3,
    pub last_tangent: Vec3,
}

// The two directions at a halfedge: from the start's point to its end, and of its tangent.
#[derive(Clone, Copy)]
pub struct Directions {
    pub edge: Vec3,
    pub tangent: Vec3,
}

// What the second walk goes by besides the angles, `count` of them in each list.
#[derive(Clone, Copy)]
pub struct Turning {
    pub count: usize,
    pub scale: f64,
    pub offset: f64,
    pub axis: Vec3,
}

// Is halfedge e fixed and unmarked? Such a one is a start, and ends the first walk.
#[tactic(auto, using(smoothing::proofs::Tangents::weight_of))]
pub fn is_start(fixed: &[u8], t: &[f64], e: usize) -> bool
    requires { (e < length fixed.now) × (e * 4 + 4 ≤ length t.now) }
    ensures { result ≡ is_start fixed.now t.now e }
{
    if fixed[e] != 1 {
        return false;
    }
    !smoothing::is_marked_inside_quad(t, e)
}

// The direction from the start's point to the end of halfedge `current`.
#[tactic(auto, unfolding(crate::specs::Steps::FloatSteps::edge_direction))]
pub fn edge_direction(h: &[i32], pos: &[f64], start: usize, current: usize) -> Vec3
    requires { EdgeFrom (as_halfedges h.now) pos.now start current }
    ensures { result ≡ edge_direction (as_halfedges h.now) pos.now start current }
{
    let end = smoothing::point_at(pos, mesh::end_vert(h, current));
    let center = smoothing::point_at(pos, mesh::start_vert(h, start));
    smoothing::unit_vector(end - center)
}

// The direction of a tangent.
#[tactic(auto, unfolding(crate::specs::Steps::FloatSteps::tangent_direction))]
pub fn tangent_direction(v: Vec4) -> Vec3
    ensures { result ≡ tangent_direction v }
{
    smoothing::unit_vector(smoothing::vec3_from_vec4(v))
}

// The last of the numbers, d where there is none.
#[tactic(auto, unfolding(crate::specs::Steps::FloatSteps::last_or))]
fn last_or(list: &[f64], d: f64) -> f64
    ensures { result ≡ last_or list.now (length list.now) d }
{
    list.last().copied().unwrap_or(d)
}

// What is gathered at the start, before the first step.
#[tactic(auto, unfolding(crate::specs::Steps::FloatSteps::begin))]
pub fn begin(h: &[i32], pos: &[f64], start: usize, v: Vec4) -> Carried
    requires { EdgeFrom (as_halfedges h.now) pos.now start start }
    ensures result_value { (C D : List Float) → gathered_of C D result ≡ begin (as_halfedges h.now) pos.now start v }
    ensures count_value { result.count ≡ 0 }
{
    let tangent = tangent_direction(v);
    let last_edge = edge_direction(h, pos, start, start);
    let normal = Vec3 {
        x: 0.0,
        y: 0.0,
        z: 0.0,
    };
    Carried {
        count: 0,
        normal,
        last_edge,
        first_tangent: tangent,
        last_tangent: tangent,
    }
}

// The angle from the first tangent, beyond half a turn where the approximate normal says so.
#[tactic(auto, using(smoothing::proofs::Inner::angle_between_is), unfolding(crate::specs::Steps::FloatSteps::angle_around))]
fn angle_around(approx: Vec3, tangent: Vec3, first: Vec3) -> f64
    ensures { result ≡ angle_around approx tangent first }
{
    let angle = smoothing::angle_of_cosine(linalg::dot(tangent, first));
    if linalg::dot(approx, linalg::cross(tangent, first)) < 0.0 {
        return TAU - angle;
    }
    angle
}

// The next current angle; `back` says that the walk has come back to its start.
#[tactic(auto, unfolding(crate::specs::Steps::FloatSteps::next_current))]
fn next_current(back: bool, approx: Vec3, tangent: Vec3, first: Vec3) -> f64
    ensures { result ≡ next_current back approx tangent first }
{
    if back {
        return TAU;
    }
    angle_around(approx, tangent, first)
}

// The next desired angle, after these.
#[tactic(auto, using(smoothing::proofs::Inner::angle_between_is), unfolding(crate::specs::Steps::FloatSteps::next_desired))]
fn next_desired(edge: Vec3, last_edge: Vec3, desired: &[f64]) -> f64
    ensures { result ≡ next_desired edge last_edge desired.now (length desired.now) }
{
    smoothing::angle_of_cosine(linalg::dot(edge, last_edge)) + last_or(desired, 0.0)
}

// The sum of the cross products, with that of one tangent more.
#[tactic(auto, unfolding(crate::specs::Steps::FloatSteps::next_normal))]
pub fn next_normal(normal: Vec3, tangent: Vec3, last: Vec3) -> Vec3
    ensures { result ≡ next_normal normal tangent last }
{
    normal + linalg::cross(tangent, last)
}

// One unmarked halfedge is gathered, by its two directions: its angles go to the next place of each list.
#[tactic(auto, using(crate::proofs::StepsLaws::Angles::gather_of))]
pub fn gather_edge(
    current: &mut [f64],
    desired: &mut [f64],
    approx: Vec3,
    at: Directions,
    back: bool,
    g: Carried,
) -> Carried
    requires { GatherRoom current.old desired.old at g }
    ensures result_after { (v : Vec4) → at.tangent ≡ tangent_direction v → gathered_of current.new desired.new result ≡ gather_edge approx at.edge back v (gathered_of current.old desired.old g) }
    ensures count_value { result.count ≡ g.count + 1 }
{
    let k = g.count;
    let first_tangent = g.first_tangent;
    let edge = at.edge;
    let tangent = at.tangent;
    current[k] = next_current(back, approx, tangent, first_tangent);
    desired[k] = next_desired(edge, g.last_edge, &desired[..k]);
    Carried {
        count: k + 1,
        normal: next_normal(g.normal, tangent, g.last_tangent),
        last_edge: edge,
        first_tangent,
        last_tangent: tangent,
    }
}

// One angle, or a normal of length 0: nothing is turned.
#[tactic(auto, unfolding(crate::specs::Steps::FloatSteps::turns_none))]
pub fn turns_none(count: usize, normal: Vec3) -> bool
    ensures { result ≡ turns_none count normal }
{
    (count == 1) | (linalg::dot(normal, normal) == 0.0)
}

// The loop that sums the offset.
fn offset_sum(angles: &Angles, scale: f64) -> f64
    ensures { result ≡ offset_sum scale angles.now.current.now angles.now.desired.now (length angles.now.current.now) }
{
    let mut sum = 0.0;
    for (current, desired) in angles.current.iter().zip(angles.desired) {
        sum += smoothing::wrap(*current - scale * *desired);
    }
    sum
}

// The scale.
#[tactic(auto, unfolding(crate::specs::Steps::FloatSteps::scale_of))]
fn scale_of(angles: &Angles) -> f64
    ensures { result ≡ scale_of angles.now.current.now angles.now.desired.now (length angles.now.current.now) }
{
    last_or(angles.current, TAU) / last_or(angles.desired, TAU)
}

// The offset: 0 unless the first walk came back to its start.
#[tactic(auto, unfolding(crate::specs::Steps::FloatSteps::offset_of))]
fn offset_of(back: bool, scale: f64, angles: &Angles) -> f64
    ensures { result ≡ offset_of back scale angles.now.current.now angles.now.desired.now (length angles.now.current.now) }
{
    if !back {
        return 0.0;
    }
    offset_sum(angles, scale) / (angles.current.len() as f64)
}

// What the second walk from `start` goes by, where the first one ended at `last`.
#[tactic(auto, unfolding(crate::specs::Steps::FloatSteps::plan))]
pub fn plan(current: &[f64], desired: &[f64], start: usize, last: usize, g: Carried) -> Turning
    requires { (g.count ≤ length current.now) × (g.count ≤ length desired.now) × (g.count ≤ 2 ^ 53) }
    ensures result_value { plan_of current.now desired.now result 0 ≡ plan start last (gathered_of current.now desired.now g) }
    ensures count_value { result.count ≡ g.count }
{
    let angles = Angles {
        current: &current[..g.count],
        desired: &desired[..g.count],
    };
    let scale = scale_of(&angles);
    let offset = offset_of(last == start, scale, &angles);
    let axis = smoothing::unit_vector(g.normal);
    Turning {
        count: g.count,
        scale,
        offset,
        axis,
    }
}

// An angle clamped to half a turn from the one before it, or else from the one after it, if there is one.
#[tactic(auto, unfolding(crate::specs::Steps::FloatSteps::clamp_angle))]
fn clamp_angle(angle: f64, last: f64, following: Option<f64>) -> f64
    ensures { result ≡ clamp_angle angle last (is_some following) (unwrap_or following zero) }
{
    if angle - last > PI {
        return last + PI;
    }
    match following {
        Some(following) if following - angle > PI => following - PI,
        _ => angle,
    }
}

// The desired angle i, scaled and clamped.
#[tactic(auto, using(crate::proofs::StepsLaws::Angles::clamp_none, crate::proofs::StepsLaws::Angles::last_in), unfolding(crate::specs::Steps::FloatSteps::clamped_angle))]
fn clamped_angle(scale: f64, desired: &[f64], i: usize) -> f64
    requires { i < length desired.now }
    ensures { result ≡ clamped_angle scale desired.now (length desired.now) i }
{
    let angle = desired[i] * scale;
    let last = last_or(&desired[..i], 0.0);
    let following = desired.get(i + 1).map(|next| scale * *next);
    clamp_angle(angle, last, following)
}

// A tangent turned about an axis, its weight kept.
#[tactic(auto, unfolding(crate::specs::Steps::FloatSteps::turned_tangent))]
fn turned_tangent(axis: Vec3, angle: f64, v: Vec4) -> Vec4
    ensures { result ≡ turned_tangent axis angle v }
{
    let q = linalg::rotation_quat_axis_angle(axis, angle);
    let rotated = linalg::qrot(q, smoothing::vec3_from_vec4(v));
    smoothing::with_weight(rotated, v.w)
}

// Halfedge e is turned by the angle i; its desired angle stays behind clamped, for the next one reads it.
#[tactic(auto, using(crate::proofs::StepsLaws::Angles::turn_of, crate::proofs::StepsLaws::Angles::next_of))]
pub fn turn_at(t: &mut [f64], current: &[f64], desired: &mut [f64], p: Turning, i: usize, e: usize)
    requires { TurnRoom t.old current.now desired.old p i e }
    ensures t_after { t.new ≡ put_tangent t.old e (turn (plan_of current.now desired.old p i) (tangent_at t.old e)) }
    ensures i_after { plan_of current.now desired.new p (i + 1) ≡ next (plan_of current.now desired.old p i) }
{
    let wanted = clamped_angle(p.scale, &desired[..p.count], i);
    desired[i] = wanted;
    let angle = current[i] - wanted - p.offset;
    let v = smoothing::tangent_at(t, e);
    smoothing::put_tangent(t, e, turned_tangent(p.axis, angle, v));
}
