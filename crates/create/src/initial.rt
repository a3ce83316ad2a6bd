// The first tangent of each halfedge in `create_tangents`, and how many of them are circular tangents on an edge without direction.
// Each function asks for its own place (`e < n`, `v * 3 + 3 ≤ length normals`): the place differs from call to call, so no struct
// of the lists can hold it.

mod face_lists;

ghost use Rattle.std.specs.Prelude.{◌≡◌, true, false, cond, ◌+◌, ◌*◌, ◌≤◌, ◌<◌, length};
ghost use Rattle.common.specs.Fold.{fold_to};
ghost use Rattle.mesh.specs.Mesh.{as_halfedges};
ghost use Rattle.smoothing.specs.Lent.{flat_flags};
ghost use Rattle.smoothing.specs.Lists.{put_tangent};
ghost use Rattle.smoothing.specs.Inner.{put_edge};
ghost use Rattle.create.specs.Initial.First.{vert_normal, inside_quad_tangent, first_tangents};
ghost use Rattle.create.specs.Initial.Faces.{FaceIn};
ghost use Rattle.create.specs.Initial.Lent.{normal_at, inside_quad, first_at, counts_first, first_made, put_first, count_firsts, edge_tangents, edge_directionless};

use create_shared::MeshLists;
use face_lists::FaceLists;
use linalg::{Vec3, Vec4};
use smoothing::faces::{self, FlatFace};
use smoothing::{CircularTangent, TwoTangents};

// The normal of point v, or that of the one flat face at it.
#[tactic(auto, unfolding(crate::specs::Initial::First::vert_normal))]
fn vert_normal(normals: &[f64], face_normals: &[f64], v: usize, face: FlatFace) -> Vec3
    requires { (v * 3 + 3 ≤ length normals.now) × FaceIn (length face_normals.now) face }
    ensures { result ≡ vert_normal normals.now face_normals.now v face }
{
    match face {
        FlatFace::NoFace => smoothing::point_at(normals, v),
        FlatFace::OneFace(t) => smoothing::point_at(face_normals, t),
        FlatFace::MoreFaces(t) => smoothing::point_at(normals, v),
    }
}

// The normal of the start point of halfedge e.
fn normal_at(lists: &FaceLists<'_>, e: usize) -> Vec3
    requires { e < lists.now.mesh.n }
    ensures { result ≡ normal_at lists.now e }
{
    let mesh = &lists.mesh;
    let v = mesh::start_vert(mesh.h, e);
    vert_normal(
        mesh.normals,
        mesh.face_normals,
        v,
        faces::flat_face(lists.at, v),
    )
}

// The mark of a halfedge inside a quad.
fn inside_quad_tangent() -> Vec4
    ensures { result ≡ inside_quad_tangent }
{
    Vec4 {
        x: 0.0,
        y: 0.0,
        z: 0.0,
        w: -1.0,
    }
}

// ---- with old tangents: halfedge by halfedge

// The first tangent of halfedge e, and whether it is a circular tangent on an edge without direction. `t` still holds its old
// weight.
// That `t` has a tangent for each halfedge stays a clause, here and below, and is no struct's: the list is written between the
// calls.
#[tactic(auto, unfolding(crate::specs::Initial::First::first_tangent, crate::specs::Initial::First::first_directionless), using(crate::proofs::InitialLaws::First::quad_in))]
fn first_tangent(lists: &FaceLists<'_>, t: &[f64], e: usize) -> CircularTangent
    requires { (e < lists.now.mesh.n) × (length t.now ≡ lists.now.mesh.n * 4) }
    ensures { result ≡ first_made lists.now t.now true e }
{
    let mesh = &lists.mesh;
    if smoothing::is_inside_quad(mesh.h, mesh.refs, t, true, e) {
        return CircularTangent {
            tangent: inside_quad_tangent(),
            directionless: false,
        };
    }
    let normal = normal_at(lists, e);
    smoothing::tangent_from_normal(mesh.h, mesh.pos, mesh.face_normals, normal, e)
}

// Writes it, in the list that the old weights are read from, and says what it counts. That is safe: of the old weights only e's own
// is read, before it is written here, and no other turn of the loop writes it.
#[tactic(auto, unfolding(crate::specs::Initial::First::put_first_tangent), using(smoothing::proofs::Directions::tangent_of))]
fn put_first_tangent(lists: &FaceLists<'_>, t: &mut [f64], e: usize) -> usize
    requires { (e < lists.now.mesh.n) × (length t.old ≡ lists.now.mesh.n * 4) }
    ensures tangents { t.new ≡ put_first lists.now t.old true t.old e }
    ensures directionless { result ≡ cond (counts_first lists.now.mesh t.old true e) 1 0 }
{
    let first = first_tangent(lists, t, e);
    smoothing::put_tangent(t, e, first.tangent);
    usize::from(first.directionless)
}

// Each by itself. A loop of its own, and not one that is lent `put_first_tangent` or `put_edge`: the two keep other invariants,
// this one that of the halfedges below e.
#[tactic(auto, unfolding(common::specs::Count::count_below, common::specs::Count::sum), using(common::proofs::Fold::fold_none))]
fn put_each(lists: &FaceLists<'_>, t: &mut [f64]) -> usize
    requires { length t.old ≡ lists.now.mesh.n * 4 }
    ensures tangents { t.new ≡ fold_to (put_first lists.now t.old true) t.old lists.now.mesh.n }
    ensures directionless { result ≡ count_firsts lists.now.mesh t.old true }
{
    let mut directionless = 0;
    for e in 0..lists.mesh.n {
        directionless += put_first_tangent(lists, t, e);
    }
    directionless
}

// ---- without: edge by edge

// The first tangents of halfedge e and of its pair: both are inside a quad or neither is, and they share the length of the edge.
#[tactic(auto, using(crate::proofs::InitialLaws::First::edge_inside, crate::proofs::InitialLaws::First::edge_outside, crate::proofs::InitialLaws::First::quad_in))]
fn edge_tangents(lists: &FaceLists<'_>, t: &[f64], e: usize) -> TwoTangents
    requires { (e < lists.now.mesh.n) × (length t.now ≡ lists.now.mesh.n * 4) }
    ensures { result ≡ edge_tangents lists.now t.now e }
{
    let mesh = &lists.mesh;
    if smoothing::is_inside_quad(mesh.h, mesh.refs, t, false, e) {
        let mark = inside_quad_tangent();
        return TwoTangents {
            here: mark,
            there: mark,
            directionless: false,
        };
    }
    let a = normal_at(lists, e);
    let b = normal_at(lists, mesh::paired_halfedge(mesh.h, e));
    smoothing::tangents_from_normals(mesh.h, mesh.pos, mesh.face_normals, a, b, e)
}

// Writes both, at the forward one of the two, and says what they count.
#[tactic(auto, unfolding(smoothing::specs::Inner::put_edge, crate::specs::Initial::Lent::edge_directionless), using(crate::proofs::InitialLaws::First::edge_put, crate::proofs::InitialLaws::First::edge_adds))]
fn put_edge(lists: &FaceLists<'_>, t: &mut [f64], e: usize) -> usize
    requires { (e < lists.now.mesh.n) × (length t.old ≡ lists.now.mesh.n * 4) }
    ensures tangents { t.new ≡ put_edge put_tangent (as_halfedges lists.now.mesh.h.now) (first_at lists.now t.old false) t.old e }
    ensures directionless { result ≡ edge_directionless lists.now.mesh t.old e }
{
    let h = lists.mesh.h;
    if !mesh::is_forward(h, e) {
        return 0;
    }
    let tangents = edge_tangents(lists, t, e);
    let pair = mesh::paired_halfedge(h, e);
    smoothing::put_tangent(t, e, tangents.here);
    smoothing::put_tangent(t, pair, tangents.there);
    if tangents.directionless { 2 } else { 0 }
}

// A loop of its own, and not a test of `old` in that of `put_each`: each keeps another invariant, this one that of both halfedges
// of an edge.
#[tactic(auto, unfolding(common::specs::Count::sum), using(crate::proofs::InitialLaws::First::edge_turn, crate::proofs::InitialLaws::First::edge_counts, crate::proofs::InitialLaws::First::edges_are, common::proofs::Fold::fold_none))]
fn put_edges(lists: &FaceLists<'_>, t: &mut [f64]) -> usize
    requires { length t.old ≡ lists.now.mesh.n * 4 }
    ensures tangents { t.new ≡ fold_to (put_first lists.now t.old false) t.old lists.now.mesh.n }
    ensures directionless { result ≡ count_firsts lists.now.mesh t.old false }
{
    let mut directionless = 0;
    for e in 0..lists.mesh.n {
        directionless += put_edge(lists, t, e);
    }
    directionless
}

// ---- all of them

// The first tangents, and what they count. `old` chooses the loop here, and no closure of its step does: `put_each` and `put_edges`
// keep other invariants.
fn put_first_tangents(lists: &FaceLists<'_>, old: bool, t: &mut [f64]) -> usize
    requires { length t.old ≡ lists.now.mesh.n * 4 }
    ensures tangents { t.new ≡ fold_to (put_first lists.now t.old old) t.old lists.now.mesh.n }
    ensures directionless { result ≡ count_firsts lists.now.mesh t.old old }
{
    if old {
        return put_each(lists, t);
    }
    put_edges(lists, t)
}

// Which triangles lie in flat faces, and the first tangents, whatever `flat` and `at` held; and how many of these are circular
// tangents on an edge without direction. Each tangent is written whole, so `t` may stand for the Rust's list of zeros.
pub fn first_tangents(
    mesh: MeshLists<'_>,
    old: bool,
    t: &mut [f64],
    flat: &mut [u8],
    at: &mut [usize],
) -> usize
    requires { (length t.old ≡ mesh.n * 4) × (length flat.old ≡ mesh.n) × (length at.old ≡ mesh.p) }
    ensures flat { flat.new ≡ flat_flags (as_halfedges mesh.entry.h.now) mesh.entry.refs.now mesh.entry.n }
    ensures tangents { let m = mesh.entry in t.new ≡ first_tangents (as_halfedges m.h.now) m.pos.now m.normals.now m.face_normals.now m.refs.now (inside_quad m t.old old) m.n }
    ensures directionless { result ≡ count_firsts mesh.entry t.old old }
{
    faces::flat_faces(mesh.h, mesh.refs, flat);
    faces::vert_flat_face(mesh.h, mesh.refs, flat, at);
    let lists = FaceLists { mesh, at };
    put_first_tangents(&lists, old, t)
}
