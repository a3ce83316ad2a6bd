// The creases in `create_tangents`: what those of each point do to the tangents and the fixed flags, and how many circular tangents
// they have on an edge without direction.
// Each function asks for its own place (`current < n`, `e * 4 + 4 ≤ length t`, `v < length at`): the place differs from call to
// call, so no struct of the lists can hold it.

mod shape_lists;

ghost use Rattle.std.specs.Prelude.{◌≡◌, ◌+◌, ◌*◌, ◌≤◌, ◌<◌, length};
ghost use Rattle.smoothing.specs.Faces.{is_flat};
ghost use Rattle.create_shared.specs.Makings.{tangents_of, aligned_directionless};
ghost use Rattle.create.specs.Shapes.Sharpen.{sharpened, sharpen_tangent, new_tangent, sides_of, sharpen_side, sharpen_sides, meeting_smoothness, sharpen_meeting_at, sharpen_meeting};
ghost use Rattle.create.specs.Shapes.Shapes.{fix_halfedge, shape_through, crease_directionless};
ghost use Rattle.create.specs.Shapes.Lent.{CreaseIn, mesh_of, shape_crease_by, shape_vert_by, shape_verts_by, vert_count, verts_count};

use crate::creases;
use crate::creases::Crease;
use linalg::{Vec3, Vec4};
pub use shape_lists::ShapeLists;

// ---- a vertex cycle

// A tangent multiplied by the smoothness s; at 0 its weight becomes 0 too.
#[tactic(auto, unfolding(crate::specs::Shapes::Sharpen::sharpened))]
fn sharpened(t: Vec4, s: f64) -> Vec4
    ensures { result ≡ sharpened s t }
{
    Vec4 {
        x: s * t.x,
        y: s * t.y,
        z: s * t.z,
        w: if s == 0.0 { 0.0 } else { t.w },
    }
}

// The same, of halfedge e.
#[tactic(auto, unfolding(crate::specs::Shapes::Sharpen::sharpen_tangent))]
fn sharpen_tangent(t: &mut [f64], e: usize, s: f64)
    requires { e * 4 + 4 ≤ length t.old }
    ensures { t.new ≡ sharpen_tangent t.old e s }
{
    let old = smoothing::tangent_at(t, e);
    smoothing::put_tangent(t, e, sharpened(old, s));
}

// The line of a crease through a point, in the direction of `first`.
#[tactic(auto, unfolding(crate::specs::Shapes::Sharpen::new_tangent))]
fn new_tangent(t: &[f64], first: usize, second: usize) -> Vec3
    requires { (first * 4 + 4 ≤ length t.now) × (second * 4 + 4 ≤ length t.now) }
    ensures { result ≡ new_tangent t.now first second }
{
    let a = smoothing::vec3_from_vec4(smoothing::tangent_at(t, first));
    let b = smoothing::vec3_from_vec4(smoothing::tangent_at(t, second));
    linalg::normalize(a - b)
}

// One halfedge beside a crease through a point: the smoothness of the side that the walk is on, after it.
#[tactic(auto, unfolding(crate::specs::Shapes::Sharpen::sharpen_side))]
fn sharpen_side(
    t: &mut [f64],
    first: usize,
    second: usize,
    beyond: f64,
    s: f64,
    current: usize,
) -> f64
    requires { current * 4 + 4 ≤ length t.old }
    ensures { sides_of t.new result ≡ sharpen_side first second beyond (sides_of t.old s) current }
{
    if current == second {
        return beyond;
    }
    let marked = smoothing::is_marked_inside_quad(t, current);
    if (current == first) | marked {
        return s;
    }
    sharpen_tangent(t, current, s);
    s
}

// The smoothness of a halfedge at a meeting: 0 beside a flat face, else the mean.
#[tactic(auto, unfolding(crate::specs::Shapes::Sharpen::meeting_smoothness))]
fn meeting_smoothness(lists: &ShapeLists<'_>, mean: f64, current: usize) -> f64
    requires { current < lists.now.creases.n }
    ensures { result ≡ meeting_smoothness (mesh_of lists.now) (is_flat lists.now.flat.now) mean current }
{
    let a = current / 3;
    let b = mesh::paired_halfedge(lists.creases.h, current) / 3;
    if (lists.flat[a] == 1) | (lists.flat[b] == 1) {
        return 0.0;
    }
    mean
}

// One halfedge of a meeting. The length of `t`, and of `fixed` below, stays a clause and is no struct's: it speaks of a list that
// is written.
#[tactic(auto, unfolding(crate::specs::Shapes::Sharpen::sharpen_meeting_at))]
fn sharpen_meeting_at(lists: &ShapeLists<'_>, t: &mut [f64], mean: f64, current: usize)
    requires { (current < lists.now.creases.n) × (length t.old ≡ lists.now.creases.n * 4) }
    ensures { t.new ≡ sharpen_meeting_at (mesh_of lists.now) (is_flat lists.now.flat.now) mean t.old current }
{
    if smoothing::is_marked_inside_quad(t, current) {
        return;
    }
    let s = meeting_smoothness(lists, mean, current);
    sharpen_tangent(t, current, s);
}

// The vertex cycle of a crease through a point, from its first halfedge on. A loop and no iterator, here and below: the rule for
// a walk round a point.
fn sharpen_sides(
    lists: &ShapeLists<'_>,
    t: &mut [f64],
    first: usize,
    second: usize,
    between: f64,
    beyond: f64,
)
    requires { (first < lists.now.creases.n) × (length t.old ≡ lists.now.creases.n * 4) }
    ensures { t.new ≡ sharpen_sides (mesh_of lists.now) lists.now.creases.n t.old first second between beyond }
{
    let h = lists.creases.h;
    let mut s = between;
    let mut current = first;
    loop {
        s = sharpen_side(t, first, second, beyond, s, current);
        current = cycles::next_around(h, current);
        if current == first {
            break;
        }
    }
}

// The vertex cycle of a meeting, from the halfedge of its first crease on.
fn sharpen_meeting(lists: &ShapeLists<'_>, t: &mut [f64], first: usize, mean: f64)
    requires { (first < lists.now.creases.n) × (length t.old ≡ lists.now.creases.n * 4) }
    ensures { t.new ≡ sharpen_meeting (mesh_of lists.now) (is_flat lists.now.flat.now) lists.now.creases.n t.old first mean }
{
    let h = lists.creases.h;
    let mut current = first;
    loop {
        sharpen_meeting_at(lists, t, mean, current);
        current = cycles::next_around(h, current);
        if current == first {
            break;
        }
    }
}

// ---- a point

// A crease through a point: how many of its two edges have no direction. The two lists that are written stay parameters, here and
// below: of a struct that lends them a clause would say `making.new.t.now` for `t.new`, and that `t.ghost_name` stays besides.
#[tactic(auto, unfolding(crate::specs::Shapes::Shapes::shape_through))]
fn shape_through(
    lists: &ShapeLists<'_>,
    t: &mut [f64],
    fixed: &mut [u8],
    first: usize,
    second: usize,
    between: f64,
    beyond: f64,
) -> usize
    requires { (first < lists.now.creases.n) × (second < lists.now.creases.n) × (length t.old ≡ lists.now.creases.n * 4) × (length fixed.old ≡ lists.now.creases.n) }
    ensures tangents { tangents_of t.new fixed.new ≡ shape_through (mesh_of lists.now) lists.now.pos.now lists.now.creases.n (tangents_of t.old fixed.old) first second between beyond }
    ensures directionless { result ≡ aligned_directionless (mesh_of lists.now) lists.now.pos.now first second }
{
    let dir = new_tangent(t, first, second);
    let h = lists.creases.h;
    let directionless = create_shared::align_tangents(h, lists.pos, t, fixed, first, second, dir);
    sharpen_sides(lists, t, first, second, between, beyond);
    directionless
}

// Fixes halfedge e, if it is one: the number of halfedges stands for none, and no Option, since the list that holds it is lent by
// the caller, for C too. By its index: `get_mut` was tried, and the proof did not close, since it does not say what the slice ends
// as.
#[tactic(auto, unfolding(crate::specs::Shapes::Shapes::fix_halfedge))]
fn fix_halfedge(fixed: &mut [u8], e: usize)
    ensures { fixed.new ≡ fix_halfedge (length fixed.old) fixed.old e }
{
    if e < fixed.len() {
        fixed[e] = 1;
    }
}

// What the creases of a point do, and count. `first` is the halfedge of the first one, and with no crease the point's lowest.
#[tactic(auto, unfolding(crate::specs::Shapes::Shapes::shape_crease, crate::specs::Shapes::Shapes::crease_directionless, crate::specs::Shapes::Shapes::shape_meeting))]
fn shape_crease(
    lists: &ShapeLists<'_>,
    t: &mut [f64],
    fixed: &mut [u8],
    first: usize,
    crease: Crease,
) -> usize
    requires { CreaseIn lists.now.creases.n first crease × (length t.old ≡ lists.now.creases.n * 4) × (length fixed.old ≡ lists.now.creases.n) }
    ensures tangents { tangents_of t.new fixed.new ≡ shape_crease_by lists.now first (tangents_of t.old fixed.old) crease }
    ensures directionless { result ≡ crease_directionless (mesh_of lists.now) lists.now.pos.now crease }
{
    match crease {
        Crease::NoCrease => {
            fix_halfedge(fixed, first);
            0
        }
        Crease::OneEnd => 0,
        Crease::Through {
            first: a,
            second: b,
            between,
            beyond,
        } => shape_through(lists, t, fixed, a, b, between, beyond),
        Crease::Meeting { mean: m } => {
            sharpen_meeting(lists, t, first, m);
            0
        }
    }
}

// The same, at point v.
fn shape_vert(lists: &ShapeLists<'_>, t: &mut [f64], fixed: &mut [u8], v: usize) -> usize
    requires { (v < length lists.now.creases.at.now) × (length t.old ≡ lists.now.creases.n * 4) × (length fixed.old ≡ lists.now.creases.n) }
    ensures tangents { tangents_of t.new fixed.new ≡ shape_vert_by lists.now (tangents_of t.old fixed.old) v }
    ensures directionless { result ≡ vert_count lists.now v }
{
    let creases = &lists.creases;
    let first = creases::first_crease(creases.n, creases.at, v);
    let crease = creases::crease_at(creases, v);
    shape_crease(lists, t, fixed, first, crease)
}

// The same, at each point.
#[tactic(auto, unfolding(crate::specs::Shapes::Shapes::shape_verts, common::specs::Count::sum), using(common::proofs::Fold::fold_none, common::proofs::Fold::fold_turn, common::proofs::Sums::sum_turn))]
pub fn shape_verts(lists: &ShapeLists<'_>, t: &mut [f64], fixed: &mut [u8]) -> usize
    requires { (length t.old ≡ lists.now.creases.n * 4) × (length fixed.old ≡ lists.now.creases.n) }
    ensures tangents { tangents_of t.new fixed.new ≡ shape_verts_by lists.now (tangents_of t.old fixed.old) }
    ensures directionless { result ≡ verts_count lists.now }
{
    let mut directionless = 0;
    for v in 0..lists.creases.at.len() {
        directionless += shape_vert(lists, t, fixed, v);
    }
    directionless
}
