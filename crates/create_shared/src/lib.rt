// What both makings share: the lowest halfedge of each point (`vert_halfedge`), question 2 of the lists that both read, two halfedges
// of a point along one line, and the answer. Each function asks for its own place (`e * 4 + 4 ≤ length t`): it differs from call to
// call, so no struct of the lists can hold it.
#![tactic(auto)]

ghost use Rattle.std.specs.Prelude.{◌≡◌, ℕ, ◌+◌, ◌*◌, ◌≤◌, ◌<◌, length, get_or};
ghost use Rattle.mesh.specs.Mesh.{as_halfedges};
ghost use Rattle.smoothing.specs.Edges.{EdgeIn};
ghost use Rattle.create_shared.specs.Verts.{vert_halfedge};
ghost use Rattle.smoothing.specs.Lent.{VertsIn};
ghost use Rattle.create_shared.specs.Lengths.{mesh_lists_fit};
ghost use Rattle.create_shared.specs.Makings.{MakingIn, tangents_of, put_circular_tangent, align_tangents, directionless_at, aligned_directionless};
ghost use Rattle.create_shared.specs.Answer.{directionless_of};

mod mesh_lists;

use linalg::Vec3;
pub use mesh_lists::MeshLists;
use questions::Refusal;

// What a part of a making gives, and how many circular tangents it computed on an edge without direction.
#[derive(Clone, Copy)]
pub struct Counted<T> {
    pub value: T,
    pub directionless: usize,
}

// The lowest halfedge that starts at each point, n where there is none: the list is lent, for C too, and has no room for an Option.
pub fn vert_halfedge(h: &[i32], at: &mut [usize], n: usize)
    requires { VertsIn (as_halfedges h.now) n (length at.old) }
    ensures { (v : ℕ) → v < length at.old → get_or at.new v 0 ≡ vert_halfedge (as_halfedges h.now) n v }
{
    at.fill(n);
    for e in (0..n).rev() {
        let v = mesh::start_vert(h, e);
        at[v] = e;
    }
}

// Question 2 of the lists that both read, from the length of each.
pub fn mesh_lists_fit(
    n: usize,
    p: usize,
    halfedges: usize,
    positions: usize,
    normals: usize,
    face_normals: usize,
    refs: usize,
) -> bool
    ensures { result ≡ mesh_lists_fit halfedges positions normals face_normals refs n p }
{
    let points = questions::points_fit(n, p, halfedges, positions, normals);
    points
        & questions::has_length(face_normals, n / 3, 3)
        & questions::has_length(refs, n / 3, mesh::REF_STRIDE)
}

// ---- two halfedges of a point along one line

// The circular tangent of halfedge e that leaves in the direction `dir`, and 1 where its edge has no direction.
#[tactic(auto, unfolding(crate::specs::Makings::put_circular_tangent, crate::specs::Makings::directionless_at))]
fn put_circular_tangent(h: &[i32], pos: &[f64], t: &mut [f64], e: usize, dir: Vec3) -> usize
    requires { (e * 4 + 4 ≤ length t.old) × EdgeIn (as_halfedges h.now) pos.now e }
    ensures tangents { t.new ≡ put_circular_tangent (as_halfedges h.now) pos.now t.old e dir }
    ensures directionless { result ≡ directionless_at (as_halfedges h.now) pos.now e }
{
    let made = smoothing::circular_tangent(dir, smoothing::edge_vec(h, pos, e));
    smoothing::put_tangent(t, e, made.tangent);
    usize::from(made.directionless)
}

// Two halfedges of a point along one line, the first in the direction `dir`, and fixed: how many of the two have an edge without
// direction.
#[tactic(auto, unfolding(crate::specs::Makings::align_tangents, crate::specs::Makings::aligned_directionless))]
pub fn align_tangents(
    h: &[i32],
    pos: &[f64],
    t: &mut [f64],
    fixed: &mut [u8],
    first: usize,
    second: usize,
    dir: Vec3,
) -> usize
    requires { (first < length fixed.old) × (second < length fixed.old) × MakingIn (as_halfedges h.now) pos.now t.old fixed.old (length fixed.old) }
    ensures tangents { tangents_of t.new fixed.new ≡ align_tangents (as_halfedges h.now) pos.now (tangents_of t.old fixed.old) first second dir }
    ensures directionless { result ≡ aligned_directionless (as_halfedges h.now) pos.now first second }
{
    let one = put_circular_tangent(h, pos, t, first, dir);
    let other = put_circular_tangent(h, pos, t, second, -dir);
    fixed[first] = 1;
    fixed[second] = 1;
    one + other
}

// ---- the answer

// How many circular tangents a making computed on an edge without direction; 0 where it is refused, which computes none.
pub fn directionless_of(making: Result<usize, Refusal>) -> usize
    ensures { result ≡ directionless_of making }
{
    making.unwrap_or(0)
}
