// The loops of `create_tangents_from_normals` round a vertex cycle, what it does at a point, and the loop over the points; and how
// many circular tangents each computes on an edge without direction. No walk has a guard: a vertex cycle comes back.
// Each function asks for its own place (`e < n`, `v < p`): the place differs from call to call, so no struct of the lists can hold it.

mod lists;

ghost use Rattle.std.specs.Prelude.{◌≡◌, ◌*◌, ◌<◌, length};
ghost use Rattle.create_shared.specs.Makings.{tangents_of};
ghost use Rattle.create_from_normals.specs.Steps.Steps.{StartIn, StateIn, walk_of};
ghost use Rattle.create_from_normals.specs.Walks.Lists.{normal_walk_by, vert_normal_walk_by, fill_walk_by, fill_missing_by, finish_vert_by, normals_vert_by, normals_verts_by};
ghost use Rattle.create_from_normals.specs.Walks.Lists.{normal_walk_count, vert_normal_walk_count, fill_walk_count, fill_missing_count, finish_vert_count, normals_vert_count, normals_verts_count};

use crate::state::{CycleState, NormalPair, StartHalfedge};
use crate::steps::FaceLists;
pub use crate::walks::lists::{NormalLists, WalkLists};
use crate::{state, steps};
use create_shared::Counted;
use linalg::Vec3;

// ---- a vertex cycle

// The first loop, from halfedge e: what it carries after the last one, and what it counts. A loop and no iterator, here and in both
// walks below: the rule for a walk round a point. The two lists that are written stay parameters, and their lengths clauses, here and
// below: of a struct that lends them a clause would say `made.entry.t.now` for `t.old` and `made.exit.t.now` for `t.new`.
fn normal_walk(
    walks: &WalkLists<'_>,
    t: &mut [f64],
    fixed: &mut [u8],
    e: usize,
) -> Counted<CycleState>
    requires { (e < walks.now.lists.mesh.n) × (length t.old ≡ walks.now.lists.mesh.n * 4) × (length fixed.old ≡ walks.now.lists.mesh.n) }
    ensures state { walk_of t.new fixed.new result.value ≡ normal_walk_by walks.now (tangents_of t.old fixed.old) e }
    ensures state_in { StateIn walks.now.lists.mesh.n result.value }
    ensures directionless { result.directionless ≡ normal_walk_count walks.now (tangents_of t.old fixed.old) e }
{
    let mesh = &walks.lists.mesh;
    let h = mesh.h;
    let rows = walks.lists.rows;
    let face_units = walks.face_units;
    let faces = FaceLists::from(mesh);
    let inside = walks.inside;
    let mut state = state::start_state();
    let mut here = state::halfedge_normal(h, face_units, rows, e);
    let mut directionless = 0;
    let mut current = e;
    loop {
        let following = cycles::next_around(h, current);
        let next = state::normal_after(h, face_units, rows, here.normal, here.unit, following);
        let normals = NormalPair { here, next };
        let step = steps::normal_step(&faces, inside, t, fixed, state, &normals, current);
        state = step.value;
        directionless += step.directionless;
        here = next;
        current = following;
        if current == e {
            break;
        }
    }
    Counted {
        value: state,
        directionless,
    }
}

// All normals are missing: the loop that takes the point's normal, from halfedge e.
fn vert_normal_walk(lists: &NormalLists<'_>, normal: Vec3, t: &mut [f64], e: usize) -> usize
    requires { (e < lists.now.mesh.n) × (length t.old ≡ lists.now.mesh.n * 4) }
    ensures tangents { t.new ≡ vert_normal_walk_by lists.now normal t.old e }
    ensures directionless { result ≡ vert_normal_walk_count lists.now normal t.old e }
{
    let mesh = &lists.mesh;
    let h = mesh.h;
    let faces = FaceLists::from(mesh);
    let mut directionless = 0;
    let mut current = e;
    loop {
        directionless += steps::vert_normal_step(&faces, normal, t, current);
        current = cycles::next_around(h, current);
        if current == e {
            break;
        }
    }
    directionless
}

// Some normals are missing: the loop that fills them in, backwards from `start`. `last` is the last normal of the first loop.
#[tactic(auto, using(mesh::proofs::Halfedges::prev_below))]
fn fill_walk(lists: &NormalLists<'_>, last: Vec3, t: &mut [f64], start: usize) -> usize
    requires { (start < lists.now.mesh.n) × (length t.old ≡ lists.now.mesh.n * 4) }
    ensures tangents { t.new ≡ fill_walk_by lists.now last t.old start }
    ensures directionless { result ≡ fill_walk_count lists.now last t.old start }
{
    let mesh = &lists.mesh;
    let h = mesh.h;
    let rows = lists.rows;
    let faces = FaceLists::from(mesh);
    let next = cycles::next_around(h, start);
    let mut prev = state::get_normal(h, rows, next);
    let mut directionless = 0;
    let mut current = start;
    loop {
        let step = steps::fill_step(&faces, rows, last, t, prev, current);
        prev = step.value;
        directionless += step.directionless;
        current = cycles::prev_around(h, current);
        if current == start {
            break;
        }
    }
    directionless
}

// The same where there is a halfedge to start from.
#[tactic(auto, unfolding(crate::specs::Walks::Walks::fill_missing, crate::specs::Walks::Walks::fill_missing_directionless))]
fn fill_missing(lists: &NormalLists<'_>, last: Vec3, t: &mut [f64], start: StartHalfedge) -> usize
    requires { StartIn lists.now.mesh.n start × (length t.old ≡ lists.now.mesh.n * 4) }
    ensures tangents { t.new ≡ fill_missing_by lists.now last t.old start }
    ensures directionless { result ≡ fill_missing_count lists.now last t.old start }
{
    match start {
        StartHalfedge::NoneMissing => 0,
        StartHalfedge::SomeMissing => 0,
        StartHalfedge::StartAt(e) => fill_walk(lists, last, t, e),
    }
}

// ---- a point

// What follows the first loop, at point v with its lowest halfedge e, and what it counts.
#[tactic(auto, unfolding(crate::specs::Walks::Walks::finish_vert, crate::specs::Walks::Walks::finish_vert_directionless))]
fn finish_vert(
    lists: &NormalLists<'_>,
    t: &mut [f64],
    fixed: &mut [u8],
    state: CycleState,
    v: usize,
    e: usize,
) -> usize
    requires { (e < lists.now.mesh.n) × (v < lists.now.mesh.p) × StateIn lists.now.mesh.n state × (length t.old ≡ lists.now.mesh.n * 4) × (length fixed.old ≡ lists.now.mesh.n) }
    ensures tangents { tangents_of t.new fixed.new ≡ finish_vert_by lists.now (walk_of t.old fixed.old state) v e }
    ensures directionless { result ≡ finish_vert_count lists.now (walk_of t.old fixed.old state) v e }
{
    let mesh = &lists.mesh;
    let start = state.start_halfedge;
    let last = state.last_normal;
    if state::some_missing(start) & linalg::is_zero(last) {
        let normal = smoothing::point_at(mesh.normals, v);
        return vert_normal_walk(lists, normal, t, e);
    }
    let filled = fill_missing(lists, last, t, start);
    let aligned = steps::align_face_edges(mesh.h, mesh.pos, t, fixed, state.face_edges);
    filled + aligned
}

// The body of the loop over the points, at point v, and what it counts: nothing where no halfedge starts.
#[tactic(auto, unfolding(crate::specs::Walks::Walks::normals_vert, crate::specs::Walks::Walks::normals_vert_directionless))]
fn normals_vert(walks: &WalkLists<'_>, t: &mut [f64], fixed: &mut [u8], v: usize) -> usize
    requires { (v < walks.now.lists.mesh.p) × (length t.old ≡ walks.now.lists.mesh.n * 4) × (length fixed.old ≡ walks.now.lists.mesh.n) }
    ensures tangents { tangents_of t.new fixed.new ≡ normals_vert_by walks.now (tangents_of t.old fixed.old) v }
    ensures directionless { result ≡ normals_vert_count walks.now (tangents_of t.old fixed.old) v }
{
    let n = walks.lists.mesh.n;
    let e = walks.first[v];
    if e >= n {
        return 0;
    }
    let walk = normal_walk(walks, t, fixed, e);
    let finish = finish_vert(&walks.lists, t, fixed, walk.value, v, e);
    walk.directionless + finish
}

// The loop over the points, and what it counts.
#[tactic(auto, using(common::proofs::Fold::fold_next, crate::proofs::WalksLaws::Counting::turn), unfolding(common::specs::Fold::fold_to, crate::specs::Walks::Walks::normals_verts_directionless))]
pub fn normals_verts(walks: &WalkLists<'_>, t: &mut [f64], fixed: &mut [u8]) -> usize
    requires { (length t.old ≡ walks.now.lists.mesh.n * 4) × (length fixed.old ≡ walks.now.lists.mesh.n) }
    ensures tangents { tangents_of t.new fixed.new ≡ normals_verts_by walks.now (tangents_of t.old fixed.old) }
    ensures directionless { result ≡ normals_verts_count walks.now (tangents_of t.old fixed.old) }
{
    let mut directionless = 0;
    for v in 0..walks.lists.mesh.p {
        directionless += normals_vert(walks, t, fixed, v);
    }
    directionless
}
