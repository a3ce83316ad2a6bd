// What `create_tangents_from_normals` reads of the normals, and what it carries on its way round a vertex cycle.
// `RowIn` stays in three `requires`: a value that has it would be made at each halfedge, and each maker would have to show it. Each
// function asks for its own place besides (`e / 3 * 3 + 3 ≤ length face_units`, `t * 3 + 3 ≤ length units`): the place differs from
// call to call, so no struct of the lists can hold it.

ghost use Rattle.std.specs.Prelude.{◌≡◌, ◌+◌, ◌*◌, ◌/◌, ◌≤◌, length};
ghost use Rattle.smoothing.specs.Directions.{safe_normalize};
ghost use Rattle.create_from_normals.specs.State.State.{RowIn, get_normal, normal_or, add_face_edge, next_face_edges, set_start, missing_start, next_start, some_missing, next_last, start_state, spoil_face_edges};
ghost use Rattle.create_from_normals.specs.State.Carried.{halfedge_normal, same_bits, same_normal, next_state_of};
ghost use Rattle.create_from_normals.specs.State.Units.{put_unit, put_units};

use linalg::Vec3;

// The normal of a halfedge, its unit vector, whether it is missing, and whether it is that of its triangle. Each is worked out
// once, for the halfedge and for the one before it round the point. No Option where the normal is missing: its unit vector is read
// in each case, by the halfedge after it, and both flags are.
#[derive(Clone, Copy)]
pub struct HalfedgeNormal {
    pub normal: Vec3,
    pub unit: Vec3,
    pub zero: bool,
    pub flat: bool,
}

// The normal of a halfedge and that of the next one round its point.
#[derive(Clone, Copy)]
pub struct NormalPair {
    pub here: HalfedgeNormal,
    pub next: HalfedgeNormal,
}

// The Rust's `face_edges`, the halfedges round a point at which a flat face begins or ends: none yet; one; two; or a third, or
// more than one normal at the point (its -2), so that there is no single flat face.
#[derive(Clone, Copy)]
pub enum FaceEdges {
    NoEdge,
    OneEdge(usize),
    TwoEdges { first: usize, second: usize },
    Spoiled,
}

// The Rust's `start_halfedge`: no normal is missing (its -1); some are, and none follows them yet (its -2); or the first halfedge
// whose normal is missing and the next one's is not.
#[derive(Clone, Copy)]
pub enum StartHalfedge {
    NoneMissing,
    SomeMissing,
    StartAt(usize),
}

// What the loop round a vertex cycle carries besides the lists. `last_normal` is the last one before a missing one.
#[derive(Clone, Copy)]
pub struct CycleState {
    pub face_edges: FaceEdges,
    pub start_halfedge: StartHalfedge,
    pub last_normal: Vec3,
}

// ---- normals

// The normal of halfedge e, which stands at its row. The one place where a row is read.
#[tactic(auto, unfolding(crate::specs::State::State::get_normal))]
pub fn get_normal(h: &[i32], rows: &[f64], e: usize) -> Vec3
    requires { RowIn h.now rows.now e }
    ensures { result ≡ get_normal h.now rows.now e }
{
    smoothing::point_at(rows, mesh::prop_vert(h, e))
}

// A normal, or another where it is missing: a missing one is zero.
#[tactic(auto, unfolding(crate::specs::State::State::normal_or))]
pub fn normal_or(v: Vec3, other: Vec3) -> Vec3
    ensures { result ≡ normal_or v other }
{
    if linalg::is_zero(v) {
        return other;
    }
    v
}

// Are the two the same bit for bit? Zeros of different sign are not.
#[tactic(auto, unfolding(crate::specs::State::Carried::same_bits))]
fn same_number(a: f64, b: f64) -> bool
    ensures { result ≡ same_bits a b }
{
    float::bits(a) == float::bits(b)
}

#[tactic(auto, unfolding(crate::specs::State::Carried::same_normal))]
fn same_normal(a: Vec3, b: Vec3) -> bool
    ensures { result ≡ same_normal a b }
{
    let same_x = same_number(a.x, b.x);
    let same_y = same_number(a.y, b.y);
    let same_z = same_number(a.z, b.z);
    same_x & same_y & same_z
}

// The unit vector of a normal, where that of the normal before it is known: on a smooth surface the two are mostly the same.
fn unit_after(normal: Vec3, before: Vec3, unit: Vec3) -> Vec3
    requires { unit ≡ safe_normalize before }
    ensures { result ≡ safe_normalize normal }
{
    if same_normal(normal, before) {
        return unit;
    }
    smoothing::unit_vector(normal)
}

// The unit vector of the normal of triangle t, in its place.
#[tactic(auto, unfolding(crate::specs::State::Units::put_unit))]
fn put_unit(face_normals: &[f64], units: &mut [f64], t: usize)
    requires { (t * 3 + 3 ≤ length face_normals.now) × (t * 3 + 3 ≤ length units.old) }
    ensures { units.new ≡ put_unit face_normals.now units.old t }
{
    let unit = smoothing::unit_vector(smoothing::point_at(face_normals, t));
    smoothing::put_point(units, t, unit);
}

// The unit vectors of all triangles' normals, three numbers each, whatever the list held. By number: chunks of both lists were tried,
// and that a chunk has the three numbers which `point_at` asks for did not close.
#[tactic(auto, using(common::proofs::Fold::fold_next), unfolding(crate::specs::State::Units::put_units, common::specs::Fold::fold_to))]
pub fn put_units(face_normals: &[f64], units: &mut [f64])
    requires { length face_normals.now ≡ length units.old }
    ensures { units.new ≡ put_units face_normals.now units.old (length units.old) }
{
    for t in 0..units.len() / 3 {
        put_unit(face_normals, units, t);
    }
}

// The normal of halfedge e with what the loop asks of it, where the unit vector of the normal before it is known. `face_units`
// are those of `put_units`.
#[tactic(auto, unfolding(crate::specs::State::Carried::halfedge_normal))]
pub fn normal_after(
    h: &[i32],
    face_units: &[f64],
    rows: &[f64],
    before: Vec3,
    unit: Vec3,
    e: usize,
) -> HalfedgeNormal
    requires { (e / 3 * 3 + 3 ≤ length face_units.now) × RowIn h.now rows.now e × (unit ≡ safe_normalize before) }
    ensures { result ≡ halfedge_normal face_units.now (get_normal h.now rows.now) e }
{
    let normal = get_normal(h, rows, e);
    let unit = unit_after(normal, before, unit);
    let face_unit = smoothing::point_at(face_units, e / 3);
    HalfedgeNormal {
        normal,
        unit,
        zero: linalg::is_zero(normal),
        flat: smoothing::equal_units(unit, face_unit),
    }
}

// The same where no normal is before it.
pub fn halfedge_normal(h: &[i32], face_units: &[f64], rows: &[f64], e: usize) -> HalfedgeNormal
    requires { (e / 3 * 3 + 3 ≤ length face_units.now) × RowIn h.now rows.now e }
    ensures { result ≡ halfedge_normal face_units.now (get_normal h.now rows.now) e }
{
    let normal = get_normal(h, rows, e);
    let unit = smoothing::unit_vector(normal);
    normal_after(h, face_units, rows, normal, unit, e)
}

// ---- what the loop carries

#[tactic(auto, unfolding(crate::specs::State::State::add_face_edge))]
fn add_face_edge(edges: FaceEdges, e: usize) -> FaceEdges
    ensures { result ≡ add_face_edge edges e }
{
    match edges {
        FaceEdges::NoEdge => FaceEdges::OneEdge(e),
        FaceEdges::OneEdge(first) => FaceEdges::TwoEdges { first, second: e },
        FaceEdges::TwoEdges {
            first: _,
            second: _,
        } => FaceEdges::Spoiled,
        FaceEdges::Spoiled => FaceEdges::Spoiled,
    }
}

#[tactic(auto, using(crate::proofs::StateLaws::Tests::xor_is), unfolding(crate::specs::State::State::next_face_edges))]
fn next_face_edges(here: bool, next: bool, edges: FaceEdges, e: usize) -> FaceEdges
    ensures { result ≡ next_face_edges here next edges e }
{
    if here != next {
        return add_face_edge(edges, e);
    }
    edges
}

// Another start, where there is none yet.
#[tactic(auto, unfolding(crate::specs::State::State::set_start))]
fn set_start(start: StartHalfedge, to: StartHalfedge) -> StartHalfedge
    ensures { result ≡ set_start start to }
{
    match start {
        StartHalfedge::NoneMissing => to,
        StartHalfedge::SomeMissing => to,
        StartHalfedge::StartAt(_) => start,
    }
}

// What a missing normal at halfedge e sets, by whether the next one is missing too.
#[tactic(auto, unfolding(crate::specs::State::State::missing_start))]
fn missing_start(next: bool, e: usize) -> StartHalfedge
    ensures { result ≡ missing_start next e }
{
    if next {
        return StartHalfedge::SomeMissing;
    }
    StartHalfedge::StartAt(e)
}

#[tactic(auto, unfolding(crate::specs::State::State::next_start))]
fn next_start(here: bool, next: bool, start: StartHalfedge, e: usize) -> StartHalfedge
    ensures { result ≡ next_start here next start e }
{
    if here {
        return set_start(start, missing_start(next, e));
    }
    start
}

#[tactic(auto, unfolding(crate::specs::State::State::next_last))]
fn next_last(here: bool, next: bool, normal: Vec3, last: Vec3) -> Vec3
    ensures { result ≡ next_last here next normal last }
{
    if !here & next { normal } else { last }
}

// What is carried before the first halfedge.
pub fn start_state() -> CycleState
    ensures { result ≡ start_state }
{
    CycleState {
        face_edges: FaceEdges::NoEdge,
        start_halfedge: StartHalfedge::NoneMissing,
        last_normal: Vec3::ZERO,
    }
}

// What is carried after halfedge e, by its normal and the next one round its point, whatever these are.
#[tactic(auto, unfolding(crate::specs::State::Carried::next_state_of))]
pub fn next_state(state: CycleState, normals: &NormalPair, e: usize) -> CycleState
    ensures { result ≡ next_state_of state normals.now.here normals.now.next e }
{
    let here = normals.here;
    let next = normals.next;
    let edges = state.face_edges;
    let start = state.start_halfedge;
    let last = state.last_normal;
    CycleState {
        face_edges: next_face_edges(here.flat, next.flat, edges, e),
        start_halfedge: next_start(here.zero, next.zero, start, e),
        last_normal: next_last(here.zero, next.zero, here.normal, last),
    }
}

// There is no single flat face.
#[tactic(auto, unfolding(crate::specs::State::State::spoil_face_edges))]
pub fn spoil_face_edges(state: CycleState) -> CycleState
    ensures { result ≡ spoil_face_edges state }
{
    CycleState {
        face_edges: FaceEdges::Spoiled,
        ..state
    }
}

// Is any normal of the vertex cycle missing?
pub fn some_missing(start: StartHalfedge) -> bool
    ensures { result ≡ some_missing start }
{
    !matches!(start, StartHalfedge::NoneMissing)
}
