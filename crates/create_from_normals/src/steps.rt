// One halfedge, or one point, in `create_tangents_from_normals`: the bodies of its loops, and the edges of a single flat face; and
// how many circular tangents each computes on an edge without direction.
// The lists that a step reads come together as `FaceLists`, which says nothing of them. What a step needs of them stays in its
// `requires`: the value that the walks carry would ask its callers for a whole accepted mesh, one with `FacesAt` or `RowIn` would be
// made at each halfedge, and of one with `MakingIn`, which lends lists to be written, a clause would say `made.entry.t.now` for `t.old`.
// Each function asks for its own place (`e < length fixed`, `e * 4 + 4 ≤ length t`): the place differs from call to call, so no
// struct of the lists can hold it. The last normal and the one before e (`last`, `prev`) are no struct either: one stays over the
// loop backwards, and the other changes at each turn.

ghost use Rattle.std.specs.Prelude.{◌≡◌, cond, ◌+◌, ◌*◌, ◌≤◌, ◌<◌, length};
ghost use Rattle.mesh.specs.Mesh.{as_halfedges};
ghost use Rattle.smoothing.specs.Directions.{with_weight};
ghost use Rattle.smoothing.specs.Edges.{EdgeIn, NormalsIn};
ghost use Rattle.create_shared.specs.Makings.{MakingIn, tangents_of, aligned_directionless};
ghost use Rattle.create_from_normals.specs.State.State.{RowIn};
ghost use Rattle.create_from_normals.specs.Steps.Steps.{FaceEdgesIn, signed_dir, inside_quad_weight, missing_normal_weight, walk_of, fill_of, face_tangent, fix_face_edges, align_face_edges, face_edges_directionless};
ghost use Rattle.create_from_normals.specs.Steps.Carried.{faces_of, halfedges_of, FacesAt, is_inside, direction_between, tangent_between_of, directionless_of, tangent_step_of, normal_step_of, normal_step_directionless_of, vert_normal_step_of, vert_normal_directionless_of, fill_tangent_of, put_fill_tangent_of, fill_step_of, fill_directionless_of};

use crate::state;
use crate::state::{CycleState, FaceEdges, NormalPair};
use create_shared::{Counted, MeshLists};
use linalg::{Vec3, Vec4};
use smoothing::CircularTangent;

// The lists of a mesh that the steps read: a position for each point, and a normal for each triangle.
#[derive(Clone, Copy)]
pub struct FaceLists<'a> {
    pub h: &'a [i32],
    pub pos: &'a [f64],
    pub face_normals: &'a [f64],
}

impl<'a> From<&MeshLists<'a>> for FaceLists<'a> {
    ghost from_gives = { λ mesh faces. faces ≡ faces_of mesh.now };

    fn from(mesh: &MeshLists<'a>) -> FaceLists<'a> {
        FaceLists {
            h: mesh.h,
            pos: mesh.pos,
            face_normals: mesh.face_normals,
        }
    }
}

// ---- the loop round the vertex cycle

// The direction of a halfedge between two normals: along their cross product, or against it, as the edge runs.
#[tactic(auto, unfolding(crate::specs::Steps::Steps::signed_dir))]
fn signed_dir(a: Vec3, b: Vec3, edge_vec: Vec3) -> Vec3
    ensures { result ≡ signed_dir a b edge_vec }
{
    let dir = linalg::cross(a, b);
    if linalg::dot(dir, edge_vec) < 0.0 {
        return -dir;
    }
    dir
}

// The direction of the tangent of halfedge e between two normals, where its edge is known; `equal` says whether they are equal.
#[tactic(auto, unfolding(crate::specs::Steps::Carried::direction_between))]
fn direction_between(
    faces: &FaceLists<'_>,
    a: Vec3,
    b: Vec3,
    equal: bool,
    edge: Vec3,
    e: usize,
) -> Vec3
    requires { NormalsIn (halfedges_of faces.now) faces.now.face_normals.now e }
    ensures { result ≡ direction_between faces.now a b equal edge e }
{
    if equal {
        return smoothing::direction_from_normal(faces.h, faces.face_normals, a, edge, e);
    }
    signed_dir(a, b, edge)
}

// The tangent of halfedge e between two normals.
#[tactic(auto, using(crate::proofs::StepsLaws::Carried::tangent_between_by))]
fn tangent_between(
    faces: &FaceLists<'_>,
    a: Vec3,
    b: Vec3,
    equal: bool,
    e: usize,
) -> CircularTangent
    requires { FacesAt faces.now e }
    ensures { result ≡ tangent_between_of faces.now a b equal e }
{
    let edge = smoothing::edge_vec(faces.h, faces.pos, e);
    let dir = direction_between(faces, a, b, equal, edge, e);
    smoothing::circular_tangent(dir, edge)
}

// The tangent of a halfedge with a flag: inside a quad, or its normal or the next one is missing. A weight, here and below, and no
// enum: the Rust's own mark, in the list of tangents that is lent.
fn flag_tangent(inside: bool, last: Vec3) -> Vec4
    ensures { result ≡ with_weight last (cond inside inside_quad_weight missing_normal_weight) }
{
    if inside {
        return smoothing::with_weight(last, -1.0);
    }
    smoothing::with_weight(last, -3.0)
}

// A halfedge e without a flag, by its normal and the next one round its point, whatever these are: fixed where they differ. It
// counts 1 where its edge has no direction.
#[tactic(auto, unfolding(crate::specs::Steps::Carried::tangent_step_of, create_shared::specs::Makings::directionless_at))]
fn tangent_step(
    faces: &FaceLists<'_>,
    t: &mut [f64],
    fixed: &mut [u8],
    state: CycleState,
    normals: &NormalPair,
    e: usize,
) -> Counted<CycleState>
    requires { (e < length fixed.old) × MakingIn (halfedges_of faces.now) faces.now.pos.now t.old fixed.old (length fixed.old) × (length faces.now.face_normals.now ≡ length fixed.old) }
    ensures state { walk_of t.new fixed.new result.value ≡ tangent_step_of faces.now normals.now (walk_of t.old fixed.old state) e }
    ensures directionless { result.directionless ≡ directionless_of faces.now e }
{
    let here = normals.here;
    let next = normals.next;
    let equal = smoothing::equal_units(next.unit, here.unit);
    let made = tangent_between(faces, here.normal, next.normal, equal, e);
    smoothing::put_tangent(t, e, made.tangent);
    let directionless = usize::from(made.directionless);
    if equal {
        return Counted {
            value: state,
            directionless,
        };
    }
    fixed[e] = 1;
    Counted {
        value: state::spoil_face_edges(state),
        directionless,
    }
}

// The body of the loop, at halfedge e, by its normal and the next one round its point, whatever these are: what is carried
// after it, and what it counts. Without a flag the Rust writes weight 1 first, and then the tangent over it; here it is written once.
#[tactic(auto, unfolding(crate::specs::Steps::Carried::normal_step_of, crate::specs::Steps::Carried::normal_step_directionless_of))]
pub fn normal_step(
    faces: &FaceLists<'_>,
    inside: &[u8],
    t: &mut [f64],
    fixed: &mut [u8],
    state: CycleState,
    normals: &NormalPair,
    e: usize,
) -> Counted<CycleState>
    requires { (e < length fixed.old) × MakingIn (halfedges_of faces.now) faces.now.pos.now t.old fixed.old (length fixed.old) × (length faces.now.face_normals.now ≡ length fixed.old) × (length inside.now ≡ length fixed.old) }
    ensures state { walk_of t.new fixed.new result.value ≡ normal_step_of faces.now (is_inside inside.now) normals.now (walk_of t.old fixed.old state) e }
    ensures directionless { result.directionless ≡ normal_step_directionless_of faces.now (is_inside inside.now) normals.now e }
{
    let after = state::next_state(state, normals, e);
    let in_quad = inside[e] == 1;
    let missing = normals.here.zero | normals.next.zero;
    if in_quad | missing {
        smoothing::put_tangent(t, e, flag_tangent(in_quad, after.last_normal));
        return Counted {
            value: after,
            directionless: 0,
        };
    }
    tangent_step(faces, t, fixed, after, normals, e)
}

// ---- missing normals

// All normals are missing, at halfedge e: the tangent from the point's normal, unless e is inside a quad; and what it counts.
#[tactic(auto, unfolding(crate::specs::Steps::Steps::vert_normal_step, crate::specs::Steps::Steps::vert_normal_directionless, create_shared::specs::Makings::directionless_at))]
pub fn vert_normal_step(faces: &FaceLists<'_>, normal: Vec3, t: &mut [f64], e: usize) -> usize
    requires { (e * 4 + 4 ≤ length t.old) × FacesAt faces.now e }
    ensures tangents { t.new ≡ vert_normal_step_of faces.now normal t.old e }
    ensures directionless { result ≡ vert_normal_directionless_of faces.now t.old e }
{
    if smoothing::is_marked_inside_quad(t, e) {
        return 0;
    }
    let made = smoothing::tangent_from_normal(faces.h, faces.pos, faces.face_normals, normal, e);
    smoothing::put_tangent(t, e, made.tangent);
    usize::from(made.directionless)
}

// The tangent of halfedge e, where it was t and its normal is missing.
#[tactic(auto, unfolding(crate::specs::Steps::Steps::fill_tangent))]
fn fill_tangent(faces: &FaceLists<'_>, last: Vec3, prev: Vec3, t: Vec4, e: usize) -> CircularTangent
    requires { FacesAt faces.now e }
    ensures { result ≡ fill_tangent_of faces.now last prev t e }
{
    let next = state::normal_or(smoothing::vec3_from_vec4(t), last);
    let equal = smoothing::equal_normals(prev, next);
    tangent_between(faces, prev, next, equal, e)
}

// The same, written where the flag of a missing normal stands, and what it counts.
#[tactic(auto, unfolding(crate::specs::Steps::Steps::put_fill_tangent, crate::specs::Steps::Steps::fill_directionless, create_shared::specs::Makings::directionless_at))]
fn put_fill_tangent(faces: &FaceLists<'_>, last: Vec3, prev: Vec3, t: &mut [f64], e: usize) -> usize
    requires { (e * 4 + 4 ≤ length t.old) × FacesAt faces.now e }
    ensures tangents { t.new ≡ put_fill_tangent_of faces.now last prev t.old e }
    ensures directionless { result ≡ fill_directionless_of faces.now t.old e }
{
    if smoothing::weight_at(t, e) == -3.0 {
        let old = smoothing::tangent_at(t, e);
        let made = fill_tangent(faces, last, prev, old, e);
        smoothing::put_tangent(t, e, made.tangent);
        return usize::from(made.directionless);
    }
    0
}

// The body of the loop backwards, at halfedge e: the last normal that it has come by, after it, and what it counts.
#[tactic(auto, unfolding(crate::specs::Steps::Steps::fill_step))]
pub fn fill_step(
    faces: &FaceLists<'_>,
    rows: &[f64],
    last: Vec3,
    t: &mut [f64],
    prev: Vec3,
    e: usize,
) -> Counted<Vec3>
    requires { (e * 4 + 4 ≤ length t.old) × RowIn faces.now.h.now rows.now e × FacesAt faces.now e }
    ensures fill { fill_of t.new result.value ≡ fill_step_of faces.now rows.now last (fill_of t.old prev) e }
    ensures directionless { result.directionless ≡ fill_directionless_of faces.now t.old e }
{
    let directionless = put_fill_tangent(faces, last, prev, t, e);
    let next = state::normal_or(state::get_normal(faces.h, rows, e), prev);
    Counted {
        value: next,
        directionless,
    }
}

// ---- the edges of a single flat face

#[tactic(auto, unfolding(crate::specs::Steps::Steps::face_tangent))]
fn face_tangent(h: &[i32], pos: &[f64], a: usize, b: usize) -> Vec3
    requires { EdgeIn (as_halfedges h.now) pos.now a × EdgeIn (as_halfedges h.now) pos.now b }
    ensures { result ≡ face_tangent (as_halfedges h.now) pos.now a b }
{
    let first = linalg::normalize(smoothing::edge_vec(h, pos, a));
    let second = linalg::normalize(smoothing::edge_vec(h, pos, b));
    first - second
}

// Both edges along one line, and fixed: how many of the two have no direction.
#[tactic(auto, unfolding(crate::specs::Steps::Steps::fix_face_edges))]
fn fix_face_edges(
    h: &[i32],
    pos: &[f64],
    t: &mut [f64],
    fixed: &mut [u8],
    a: usize,
    b: usize,
) -> usize
    requires { (a < length fixed.old) × (b < length fixed.old) × MakingIn (as_halfedges h.now) pos.now t.old fixed.old (length fixed.old) }
    ensures tangents { tangents_of t.new fixed.new ≡ fix_face_edges (as_halfedges h.now) pos.now (tangents_of t.old fixed.old) a b }
    ensures directionless { result ≡ aligned_directionless (as_halfedges h.now) pos.now a b }
{
    let dir = face_tangent(h, pos, a, b);
    create_shared::align_tangents(h, pos, t, fixed, a, b, dir)
}

// The same where there are two.
#[tactic(auto, unfolding(crate::specs::Steps::Steps::align_face_edges, crate::specs::Steps::Steps::face_edges_directionless))]
pub fn align_face_edges(
    h: &[i32],
    pos: &[f64],
    t: &mut [f64],
    fixed: &mut [u8],
    face_edges: FaceEdges,
) -> usize
    requires { FaceEdgesIn (length fixed.old) face_edges × MakingIn (as_halfedges h.now) pos.now t.old fixed.old (length fixed.old) }
    ensures tangents { tangents_of t.new fixed.new ≡ align_face_edges (as_halfedges h.now) pos.now (tangents_of t.old fixed.old) face_edges }
    ensures directionless { result ≡ face_edges_directionless (as_halfedges h.now) pos.now face_edges }
{
    match face_edges {
        FaceEdges::NoEdge => 0,
        FaceEdges::OneEdge(_) => 0,
        FaceEdges::TwoEdges { first, second } => { fix_face_edges(h, pos, t, fixed, first, second) }
        FaceEdges::Spoiled => 0,
    }
}
