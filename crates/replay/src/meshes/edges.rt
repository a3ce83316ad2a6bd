// Leaves at the edges of a mesh: `tangent_from_normal`, `is_inside_quad` and `is_marked_inside_quad`.

use crate::cases::Case;
use crate::meshes::is_accepted;
use questions::has_length;

// The lists of `tangent_from_normal`: `own` holds the normal of each halfedge.
#[derive(Clone, Copy)]
struct Normals<'a> {
    h: &'a [i32],
    pos: &'a [f64],
    face_normals: &'a [f64],
    own: &'a [f64],
}

// The tangent of each halfedge from its own normal.
#[tactic(auto, using(smoothing::proofs::Edges::faces_in, questions::proofs::Lengths::has_length_lem))]
fn same_tangents(case: Case<'_>, lists: Normals<'_>) -> bool {
    let n = case.n;
    let fits = is_accepted(lists.h, n, case.p)
        & has_length(lists.pos.len(), case.p, 3)
        & has_length(lists.face_normals.len(), n, 1)
        & has_length(lists.own.len(), n, 3);
    if !fits {
        return false;
    }
    let mut body = case.body;
    body.skip(4);
    for e in 0..n {
        let normal = smoothing::point_at(lists.own, e);
        let made = smoothing::tangent_from_normal(
            lists.h,
            lists.pos,
            lists.face_normals,
            normal,
            e,
        );
        let v = made.tangent;
        if !body.holds(&[v.x, v.y, v.z, v.w]) {
            return false;
        }
    }
    true
}

pub fn tangent_from_normal(mut case: Case<'_>) -> bool {
    let mut pos = [0.0f64; 256];
    let mut h = [0i32; 256];
    let mut face_normals = [0.0f64; 256];
    let mut own = [0.0f64; 256];
    let lists = Normals {
        pos: case.body.list(&mut pos),
        h: case.body.list(&mut h),
        face_normals: case.body.list(&mut face_normals),
        own: case.body.list(&mut own),
    };
    same_tangents(case, lists)
}

// The lists of the questions whether a halfedge is inside a quad: the tangents are old ones, or else zeros, which have no mark.
#[derive(Clone, Copy)]
struct Quads<'a> {
    h: &'a [i32],
    refs: &'a [i32],
    old: bool,
    t: &'a [f64],
}

// Is each halfedge inside a quad, by a byte 1 or 0, and is it marked, by another?
fn same_quads(case: Case<'_>, lists: Quads<'_>) -> bool {
    if !is_accepted(lists.h, case.n, case.p) {
        return false;
    }
    if !has_length(lists.t.len(), case.n, 4) {
        return false;
    }
    let mut inside = case.body;
    inside.skip(4);
    let mut marked = inside;
    marked.skip(case.n);
    marked.skip(4);
    for e in 0..case.n {
        let is_inside = smoothing::is_inside_quad(lists.h, lists.refs, lists.t, lists.old, e);
        let is_marked = smoothing::is_marked_inside_quad(lists.t, e);
        if (inside.read::<u8>() != u8::from(is_inside))
            | (marked.read::<u8>() != u8::from(is_marked))
        {
            return false;
        }
    }
    true
}

pub fn inside_quad(mut case: Case<'_>) -> bool {
    let mut h = [0i32; 256];
    let mut refs = [0i32; 256];
    let mut t = [0.0f64; 256];
    let h = case.body.list(&mut h);
    let refs = case.body.list(&mut refs);
    let old = case.body.read::<usize>() == 1;
    case.body.list(&mut t);
    let t = t.get(..case.n.saturating_mul(4)).unwrap_or(&[]);
    same_quads(case, Quads { h, refs, old, t })
}
