// The leaves of src/smoothing.rs: directions, angles and circular tangents, each the Rust's, operation by operation; and
// tangents, points and normals as values of flat lists. Each function asks for its own place (`EdgeIn e`, `e * 4 + 4 ≤ length t`): it
// differs from call to call, so no struct of the lists can hold it.
#![tactic(auto)]

pub mod faces;

ghost use Rattle.std.specs.Prelude.{◌≡◌, ◌+◌, ◌*◌, ◌≤◌, length};
ghost use Rattle.mesh.specs.Mesh.{as_halfedges, paired_halfedge};
ghost use Rattle.mesh.specs.Inside.{Inside};
ghost use Rattle.smoothing.specs.Directions.{vec3_from_vec4, with_weight, is_degenerate, safe_normalize, direction_of, wrap_of, angle_between, equal_normals, equal_units, circular_tangent_of};
ghost use Rattle.smoothing.specs.Lists.{point_at, put_point, tangent_at, put_tangent, weight_at, is_marked_inside_quad};
ghost use Rattle.smoothing.specs.Edges.{EdgeIn, NormalsIn, FacesIn, TriangleIn, InsideQuadIn, edge_vec, bi_tangent, tangent_from_normal_of, same_face_across, no_other_neighbor, is_inside_quad};
ghost use Rattle.smoothing.specs.Inner.{angle_of_cosine, edge_normal, direction_from_normal, EdgesIn, PairIn, tangents_from_normals};
ghost use Rattle.sqrt.specs.Sqrt.{sqrt_of};
ghost use Rattle.linalg.specs.Vec.{dot_of, cross_of};

use linalg::{Vec3, Vec4};
use std::f64::consts::{PI, TAU};

// A vector with its squared length and its length, worked out once for all that need them.
#[derive(Clone, Copy)]
struct Measured {
    vec: Vec3,
    len2: f64,
    len: f64,
    ghost squared: { len2 ≡ dot_of vec vec },
    ghost root: { len ≡ sqrt_of len2 },
}

// A circular tangent, and whether its edge has no direction. No Option: the Rust makes a tangent on such an edge too.
#[derive(Clone, Copy)]
pub struct CircularTangent {
    pub tangent: Vec4,
    pub directionless: bool,
}

// The edges of a halfedge and of its pair.
#[derive(Clone, Copy)]
struct EdgeVecs {
    here: Measured,
    there: Measured,
}

// The tangents of a halfedge and of its pair, and whether their edge, the same for both, has no direction. No Option here either.
#[derive(Clone, Copy)]
pub struct TwoTangents {
    pub here: Vec4,
    pub there: Vec4,
    pub directionless: bool,
}

// By the Rust's name, and so no `From`.
#[tactic(auto, unfolding(crate::specs::Directions::vec3_from_vec4))]
pub fn vec3_from_vec4(v: Vec4) -> Vec3
    ensures { result ≡ vec3_from_vec4 v }
{
    Vec3 {
        x: v.x,
        y: v.y,
        z: v.z,
    }
}

// A vector with a weight.
pub fn with_weight(v: Vec3, w: f64) -> Vec4
    ensures { result ≡ with_weight v w }
{
    Vec4 {
        x: v.x,
        y: v.y,
        z: v.z,
        w,
    }
}

// Has a vector with this squared length no direction?
#[tactic(auto, unfolding(crate::specs::Directions::is_degenerate))]
fn is_degenerate(len2: f64) -> bool
    ensures { result ≡ is_degenerate len2 }
{
    if len2 <= 0.0 {
        return true;
    }
    !float::is_finite(len2)
}

impl Measured {
    fn new(vec: Vec3) -> Measured
        ensures { result.vec ≡ vec }
    {
        let len2 = linalg::dot(vec, vec);
        let len = sqrt::sqrt(len2);
        Measured { vec, len2, len }
    }

    // Its direction, none by the test of `safe_normalize`. A zero that the division gives is one.
    #[tactic(auto, unfolding(crate::specs::Directions::directionless, crate::specs::Directions::safe_normalize, crate::specs::Directions::direction_by))]
    fn direction(self) -> Option<Vec3>
        ensures { result ≡ direction_of self.vec }
    {
        if is_degenerate(self.len2) {
            return None;
        }
        let unit = self.vec / self.len;
        Some(unit)
    }

    // The Rust's value: zero where there is no direction.
    #[tactic(auto, using(crate::proofs::Directions::unit_is))]
    fn unit(self) -> Vec3
        ensures { result ≡ safe_normalize self.vec }
    {
        self.direction().unwrap_or(Vec3::ZERO)
    }
}

pub fn safe_normalize(v: Vec3) -> Option<Vec3>
    ensures { result ≡ direction_of v }
{
    Measured::new(v).direction()
}

// The Rust's value of `safe_normalize`, for callers who do not ask whether there is a direction: it is fewer instructions, as long
// as `unit` is a function of its own.
pub fn unit_vector(v: Vec3) -> Vec3
    ensures { result ≡ safe_normalize v }
{
    Measured::new(v).unit()
}

#[tactic(auto, unfolding(crate::specs::Directions::wrap_of))]
pub fn wrap(radians: f64) -> f64
    ensures { result ≡ wrap_of radians }
{
    if radians < -PI {
        radians + TAU
    } else if radians > PI {
        radians - TAU
    } else {
        radians
    }
}

// `angle_between`, of the dot product of the two directions: a number is cheaper to pass than two vectors.
#[tactic(auto, unfolding(crate::specs::Inner::angle_of_cosine))]
pub fn angle_of_cosine(d: f64) -> f64
    ensures { result ≡ angle_of_cosine d }
{
    if d >= 1.0 {
        0.0
    } else if d <= -1.0 {
        PI
    } else {
        math::acos(d)
    }
}

#[tactic(auto, using(crate::proofs::Inner::angle_between_is))]
pub fn angle_between(a: Vec3, b: Vec3) -> f64
    ensures { result ≡ angle_between a b }
{
    angle_of_cosine(linalg::dot(a, b))
}

// Do two normals agree within a tolerance, about 0.81 degrees? Of their unit vectors.
#[tactic(auto, unfolding(crate::specs::Directions::equal_units))]
pub fn equal_units(u: Vec3, v: Vec3) -> bool
    ensures { result ≡ equal_units u v }
{
    linalg::dot(u, v) > 0.9999
}

#[tactic(auto, unfolding(crate::specs::Directions::equal_normals))]
pub fn equal_normals(a: Vec3, b: Vec3) -> bool
    ensures { result ≡ equal_normals a b }
{
    equal_units(unit_vector(a), unit_vector(b))
}

// `circular_tangent`, where the edge's length is known.
#[tactic(auto, using(crate::proofs::Directions::unit_is), unfolding(crate::specs::Directions::circular_tangent, linalg::specs::Vec::length_of, linalg::specs::Vec::length2_of))]
fn circular_tangent_by(tangent: Vec3, edge: Measured) -> CircularTangent
    ensures { result ≡ circular_tangent_of tangent edge.vec }
{
    let dir = safe_normalize(tangent).unwrap_or(Vec3::ZERO);
    let edge_dir = edge.direction();
    let edge_unit = edge_dir.unwrap_or(Vec3::ZERO);
    let weight = float::max(0.5, linalg::dot(dir, edge_unit));
    let bz2 = Vec4 {
        x: dir.x * 0.5 * edge.len,
        y: dir.y * 0.5 * edge.len,
        z: dir.z * 0.5 * edge.len,
        w: weight,
    };
    let bz3 = Vec4 {
        x: bz2.x * (2.0 / 3.0),
        y: bz2.y * (2.0 / 3.0),
        z: bz2.z * (2.0 / 3.0),
        w: 1.0 + (bz2.w - 1.0) * (2.0 / 3.0),
    };
    let made = Vec4 {
        x: bz3.x / bz3.w,
        y: bz3.y / bz3.w,
        z: bz3.z / bz3.w,
        w: bz3.w,
    };
    CircularTangent {
        tangent: made,
        directionless: edge_dir.is_none(),
    }
}

// The length of the edge is worked out once, for its direction and for itself.
pub fn circular_tangent(tangent: Vec3, edge_vec: Vec3) -> CircularTangent
    ensures { result ≡ circular_tangent_of tangent edge_vec }
{
    circular_tangent_by(tangent, Measured::new(edge_vec))
}

// The point, or the normal, k of a list with three numbers each. These lists and the tangents stay flat: so the C interface lends them.
#[tactic(auto, unfolding(crate::specs::Lists::point_at))]
pub fn point_at(p: &[f64], k: usize) -> Vec3
    requires { k * 3 + 3 ≤ length p.now }
    ensures { result ≡ point_at p.now k }
{
    let at = k * 3;
    let x = p[at];
    let y = p[at + 1];
    let z = p[at + 2];
    Vec3 { x, y, z }
}

// Another point k.
#[tactic(auto, unfolding(crate::specs::Lists::put_point))]
pub fn put_point(p: &mut [f64], k: usize, a: Vec3)
    requires { k * 3 + 3 ≤ length p.old }
    ensures { p.new ≡ put_point p.old k a }
{
    let at = k * 3;
    p[at] = a.x;
    p[at + 1] = a.y;
    p[at + 2] = a.z;
}

// The tangent of halfedge e.
#[tactic(auto, unfolding(crate::specs::Lists::tangent_at))]
pub fn tangent_at(t: &[f64], e: usize) -> Vec4
    requires { e * 4 + 4 ≤ length t.now }
    ensures { result ≡ tangent_at t.now e }
{
    let at = e * 4;
    let x = t[at];
    let y = t[at + 1];
    let z = t[at + 2];
    let w = t[at + 3];
    Vec4 { x, y, z, w }
}

// Another tangent for halfedge e.
#[tactic(auto, unfolding(crate::specs::Lists::put_tangent))]
pub fn put_tangent(t: &mut [f64], e: usize, v: Vec4)
    requires { e * 4 + 4 ≤ length t.old }
    ensures { t.new ≡ put_tangent t.old e v }
{
    let at = e * 4;
    t[at] = v.x;
    t[at + 1] = v.y;
    t[at + 2] = v.z;
    t[at + 3] = v.w;
}

// The weight of halfedge e.
#[tactic(auto, unfolding(crate::specs::Lists::weight_at))]
pub fn weight_at(t: &[f64], e: usize) -> f64
    requires { e * 4 + 4 ≤ length t.now }
    ensures { result ≡ weight_at t.now e }
{
    t[e * 4 + 3]
}

pub fn is_marked_inside_quad(t: &[f64], e: usize) -> bool
    requires { e * 4 + 4 ≤ length t.now }
    ensures { result ≡ is_marked_inside_quad t.now e }
{
    weight_at(t, e) == -1.0
}

// The end of halfedge e minus its start.
#[tactic(auto, unfolding(crate::specs::Edges::edge_vec))]
pub fn edge_vec(h: &[i32], pos: &[f64], e: usize) -> Vec3
    requires { EdgeIn (as_halfedges h.now) pos.now e }
    ensures { result ≡ edge_vec (as_halfedges h.now) pos.now e }
{
    point_at(pos, mesh::end_vert(h, e)) - point_at(pos, mesh::start_vert(h, e))
}

#[tactic(auto, unfolding(crate::specs::Edges::bi_tangent))]
fn bi_tangent(normal: Vec3, edge_normal: Vec3, edge_vec: Vec3) -> Vec3
    ensures { result ≡ bi_tangent normal edge_normal edge_vec }
{
    if linalg::dot(normal, edge_normal) < 0.0 {
        linalg::cross(edge_normal, edge_vec)
    } else {
        linalg::cross(normal, edge_vec)
    }
}

// The sum of the normals of the triangles at halfedge e.
#[tactic(auto, unfolding(crate::specs::Inner::edge_normal))]
fn edge_normal(h: &[i32], face_normals: &[f64], e: usize) -> Vec3
    requires { NormalsIn (as_halfedges h.now) face_normals.now e }
    ensures { result ≡ edge_normal (as_halfedges h.now) face_normals.now e }
{
    let pair = mesh::paired_halfedge(h, e);
    point_at(face_normals, e / 3) + point_at(face_normals, pair / 3)
}

// The direction of the tangent of halfedge e from a normal, where its edge is known.
#[tactic(auto, unfolding(crate::specs::Inner::direction_from_normal))]
pub fn direction_from_normal(
    h: &[i32],
    face_normals: &[f64],
    normal: Vec3,
    edge: Vec3,
    e: usize,
) -> Vec3
    requires { NormalsIn (as_halfedges h.now) face_normals.now e }
    ensures { result ≡ direction_from_normal (as_halfedges h.now) face_normals.now normal edge e }
{
    let bi = bi_tangent(normal, edge_normal(h, face_normals, e), edge);
    linalg::cross(bi, normal)
}

#[tactic(auto, using(crate::proofs::Inner::tangent_by_direction))]
pub fn tangent_from_normal(
    h: &[i32],
    pos: &[f64],
    face_normals: &[f64],
    normal: Vec3,
    e: usize,
) -> CircularTangent
    requires { FacesIn (as_halfedges h.now) pos.now face_normals.now e }
    ensures { result ≡ tangent_from_normal_of (as_halfedges h.now) pos.now face_normals.now normal e }
{
    let edge = edge_vec(h, pos, e);
    circular_tangent(
        direction_from_normal(h, face_normals, normal, edge, e),
        edge,
    )
}

// The edges of halfedge e and of its pair, with one length. Each is a difference: where two coordinates are the same both are +0,
// and the negative of one would be -0.
#[tactic(auto, using(crate::proofs::Floats::dot_sub3), unfolding(crate::specs::Edges::edge_vec))]
fn edge_vecs(h: &[i32], pos: &[f64], e: usize) -> EdgeVecs
    requires { EdgesIn (as_halfedges h.now) pos.now e }
    ensures here { result.here.vec ≡ edge_vec (as_halfedges h.now) pos.now e }
    ensures there { result.there.vec ≡ edge_vec (as_halfedges h.now) pos.now (paired_halfedge (as_halfedges h.now) e) }
{
    let end = point_at(pos, mesh::end_vert(h, e));
    let start = point_at(pos, mesh::start_vert(h, e));
    let here = Measured::new(end - start);
    let there = Measured {
        vec: start - end,
        len2: here.len2,
        len: here.len,
    };
    EdgeVecs { here, there }
}

// The tangent from a normal, where the edge and its normal are known. Taken in at both calls: as a call of its own it is handed the
// edge in memory, and making from sharp edges takes 117 ns a halfedge of the small torus for 95.
#[inline(always)]
fn tangent_across(normal: Vec3, edge_normal: Vec3, edge: Measured) -> CircularTangent
    ensures { result ≡ circular_tangent_of (cross_of (bi_tangent normal edge_normal edge.vec) normal) edge.vec }
{
    let bi = bi_tangent(normal, edge_normal, edge.vec);
    circular_tangent_by(linalg::cross(bi, normal), edge)
}

// The tangents of halfedge e and of its pair from a normal each. The squared length and the sum of the two triangles' normals are the
// same either way, so each is worked out once, with one root; and so is whether the edge has no direction.
#[tactic(auto, using(crate::proofs::Inner::tangent_across, crate::proofs::Inner::normal_there), unfolding(crate::specs::Inner::tangents_from_normals))]
pub fn tangents_from_normals(
    h: &[i32],
    pos: &[f64],
    face_normals: &[f64],
    a: Vec3,
    b: Vec3,
    e: usize,
) -> TwoTangents
    requires { PairIn (as_halfedges h.now) pos.now face_normals.now e }
    ensures { result ≡ tangents_from_normals (as_halfedges h.now) pos.now face_normals.now a b e }
{
    let edges = edge_vecs(h, pos, e);
    let normal = edge_normal(h, face_normals, e);
    let here = tangent_across(a, normal, edges.here);
    let there = tangent_across(b, normal, edges.there);
    TwoTangents {
        here: here.tangent,
        there: there.tangent,
        directionless: here.directionless,
    }
}

// Is the triangle across halfedge e of triangle t's face? The two lists stay parameters, here and below: of a struct of them each
// clause would say `faces.now.h.now` for `h.now`.
#[tactic(auto, unfolding(crate::specs::Edges::same_face_across))]
fn same_face_across(h: &[i32], refs: &[i32], e: usize, t: usize) -> bool
    requires { Inside (as_halfedges h.now) e }
    ensures { result ≡ same_face_across (as_halfedges h.now) refs.now e t }
{
    mesh::same_face(refs, t, mesh::paired_halfedge(h, e) / 3)
}

// Has neither of the other two halfedges of e's triangle its face across?
#[tactic(auto, using(mesh::proofs::Inside::inside_list, crate::proofs::Edges::next_at_most), unfolding(crate::specs::Edges::no_other_neighbor))]
fn no_other_neighbor(h: &[i32], refs: &[i32], e: usize) -> bool
    requires { TriangleIn (as_halfedges h.now) e }
    ensures { result ≡ no_other_neighbor (as_halfedges h.now) refs.now e }
{
    let next = mesh::next_halfedge(e);
    if same_face_across(h, refs, next, e / 3) {
        return false;
    }
    !same_face_across(h, refs, mesh::next_halfedge(next), e / 3)
}

// `old` says whether old tangents exist: their weights decide, else the face references. It stands beside the list and not in an
// Option of it: the C interface lends the list either way, and the new tangents are written into it.
#[tactic(auto, unfolding(crate::specs::Edges::is_inside_quad))]
pub fn is_inside_quad(h: &[i32], refs: &[i32], t: &[f64], old: bool, e: usize) -> bool
    requires { InsideQuadIn (as_halfedges h.now) t.now e }
    ensures { result ≡ is_inside_quad (as_halfedges h.now) refs.now t.now old e }
{
    if old {
        return weight_at(t, e) < 0.0;
    }
    if !same_face_across(h, refs, e, e / 3) {
        return false;
    }
    if !no_other_neighbor(h, refs, e) {
        return false;
    }
    no_other_neighbor(h, refs, mesh::paired_halfedge(h, e))
}
