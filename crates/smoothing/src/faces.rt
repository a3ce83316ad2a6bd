// Flat faces: which triangles lie in one (`flat_faces`), and the flat faces at each point (`vert_flat_face`). Each function asks for
// its own place (`Inside e`): it differs from call to call, so no struct of the lists can hold it.
ghost use Rattle.std.specs.Prelude.{◌≡◌, ℕ, ◌+◌, ◌*◌, ◌<◌, ◌^◌, length, get_or};
ghost use Rattle.mesh.specs.Mesh.{as_halfedges};
ghost use Rattle.mesh.specs.Inside.{Inside};
ghost use Rattle.smoothing.specs.Faces.{neighbor_tri, is_face_neighbor, face_neighbors, mark_neighbor, mark_flat, is_flat, add_flat_face, vert_face_at, vert_flat_face};
ghost use Rattle.smoothing.specs.Lent.{FlatIn, VertsIn, face_of, flat_flags};

// The flat faces at a point, the Rust's -1, triangle and -2: none; one, with its lowest triangle; or more, with the last
// triangle that brought another face.
#[derive(Clone, Copy)]
pub enum FlatFace {
    NoFace,
    OneFace(usize),
    MoreFaces(usize),
}

// The lists h and refs stay two parameters: of a struct of the two a clause would say `faces.now.h.now` for `h.now`.
// `FlatIn` and `VertsIn` stay clauses: they speak of the length of the list that is written, which no struct of lists that are read
// can hold.

// The triangle across edge j of triangle t.
fn neighbor_tri(h: &[i32], t: usize, j: usize) -> usize
    requires { Inside (as_halfedges h.now) (t * 3 + j) }
    ensures { result ≡ neighbor_tri (as_halfedges h.now) t j }
{
    mesh::paired_halfedge(h, t * 3 + j) / 3
}

#[tactic(auto, unfolding(crate::specs::Faces::is_face_neighbor))]
fn is_face_neighbor(h: &[i32], refs: &[i32], t: usize, j: usize) -> bool
    requires { Inside (as_halfedges h.now) (t * 3 + j) }
    ensures { result ≡ is_face_neighbor (as_halfedges h.now) refs.now t j }
{
    mesh::same_face(refs, neighbor_tri(h, t, j), t)
}

#[tactic(auto, unfolding(crate::specs::Faces::face_neighbors))]
fn face_neighbors(h: &[i32], refs: &[i32], t: usize) -> usize
    requires { (j : ℕ) → j < 3 → Inside (as_halfedges h.now) (t * 3 + j) }
    ensures { result ≡ face_neighbors (as_halfedges h.now) refs.now t }
{
    let a = usize::from(is_face_neighbor(h, refs, t, 0));
    let b = usize::from(is_face_neighbor(h, refs, t, 1));
    let c = usize::from(is_face_neighbor(h, refs, t, 2));
    a + b + c
}

#[tactic(auto, unfolding(crate::specs::Faces::mark_neighbor))]
fn mark_neighbor(h: &[i32], refs: &[i32], flat: &mut [u8], t: usize, j: usize)
    requires { (t * 3 + j < length flat.old) × FlatIn (as_halfedges h.now) (length flat.old) }
    ensures { flat.new ≡ mark_neighbor (as_halfedges h.now) refs.now t flat.old j }
{
    if is_face_neighbor(h, refs, t, j) {
        let k = neighbor_tri(h, t, j);
        flat[k] = 1;
    }
}

#[tactic(auto, unfolding(crate::specs::Faces::mark_flat, common::specs::Fold::fold_to))]
fn mark_flat(h: &[i32], refs: &[i32], flat: &mut [u8], t: usize)
    requires { (t * 3 + 2 < length flat.old) × FlatIn (as_halfedges h.now) (length flat.old) }
    ensures { flat.new ≡ mark_flat (as_halfedges h.now) refs.now flat.old t }
{
    if face_neighbors(h, refs, t) <= 1 {
        return;
    }
    flat[t] = 1;
    mark_neighbor(h, refs, flat, t, 0);
    mark_neighbor(h, refs, flat, t, 1);
    mark_neighbor(h, refs, flat, t, 2);
}

// A 1 for each triangle in a flat face. The list has a place for each halfedge; all but the first third become 0.
pub fn flat_faces(h: &[i32], refs: &[i32], flat: &mut [u8])
    requires { FlatIn (as_halfedges h.now) (length flat.old) }
    ensures { flat.new ≡ flat_flags (as_halfedges h.now) refs.now (length flat.old) }
{
    flat.fill(0);
    for t in 0..flat.len() / 3 {
        mark_flat(h, refs, flat, t);
    }
}

// What stands for the flat faces at a point after another triangle t: 0 for none, t * 2 + 1 for one, t * 2 + 2 for more. They
// stand as numbers and not as `FlatFace`, since the list that holds them is lent by the caller, for C too, and has no heap of its own.
fn add_flat_face(refs: &[i32], code: usize, t: usize) -> usize
    requires { t * 2 + 2 < 2 ^ 64 }
    ensures { face_of result ≡ add_flat_face refs.now (face_of code) t }
{
    if code == 0 {
        return t * 2 + 1;
    }
    if mesh::same_face(refs, (code - 1) / 2, t) {
        return code;
    }
    t * 2 + 2
}

#[tactic(auto, unfolding(crate::specs::Faces::vert_face_at))]
fn vert_face_at(h: &[i32], refs: &[i32], flat: &[u8], at: &mut [usize], e: usize)
    requires { (e < length flat.now) × VertsIn (as_halfedges h.now) (length flat.now) (length at.old) }
    ensures { (v : ℕ) → v < length at.old → face_of (get_or at.new v 0) ≡ vert_face_at (as_halfedges h.now) refs.now (is_flat flat.now) v (face_of (get_or at.old v 0)) e }
{
    let t = e / 3;
    if flat[t] != 1 {
        return;
    }
    let v = mesh::start_vert(h, e);
    let code = at[v];
    at[v] = add_flat_face(refs, code, t);
}

// The flat faces at each point, from the result of `flat_faces`.
#[tactic(auto, unfolding(crate::specs::Faces::vert_flat_face))]
pub fn vert_flat_face(h: &[i32], refs: &[i32], flat: &[u8], at: &mut [usize])
    requires { VertsIn (as_halfedges h.now) (length flat.now) (length at.old) }
    ensures { (v : ℕ) → v < length at.old → face_of (get_or at.new v 0) ≡ vert_flat_face (as_halfedges h.now) refs.now (is_flat flat.now) (length flat.now) v }
{
    at.fill(0);
    for e in 0..flat.len() {
        vert_face_at(h, refs, flat, at, e);
    }
}

// The flat faces at point v, from the result of `vert_flat_face`.
pub fn flat_face(at: &[usize], v: usize) -> FlatFace
    requires { v < length at.now }
    ensures { result ≡ face_of (get_or at.now v 0) }
{
    let code = at[v];
    if code == 0 {
        return FlatFace::NoFace;
    }
    let t = (code - 1) / 2;
    if (code - 1) % 2 == 0 {
        return FlatFace::OneFace(t);
    }
    FlatFace::MoreFaces(t)
}
