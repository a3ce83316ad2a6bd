// The mesh of the Rust's src/types.rs as flat lists: the halfedges and the face references, and what is read of them.
// `field` and `number_at` read lists of any length and content, and past the end a default; the other reads are of accepted meshes.
// Each read asks for its own place (`Inside e`, `e + 1 < 2 ^ 64`): it differs from call to call, so no struct of the lists can hold it.
#![tactic(auto)]

ghost use Rattle.std.specs.Prelude.{◌≡◌, ◌+◌, ◌*◌, ◌<◌, ◌≤◌, ◌^◌, length};
ghost use Rattle.mesh.specs.Mesh.{halfedge_stride, number_at, index_of, field, start_vert, end_vert, paired_halfedge, prop_vert, is_forward, next_halfedge, prev_halfedge, eq_z, ref_at, same_face, as_halfedges, no_index};
ghost use Rattle.mesh.specs.Inside.{Inside};
ghost use Rattle.mesh.specs.Limits.{MeshLimits};
ghost use Rattle.mesh.specs.Scalar.{radians_of};

// The most halfedges and points that a mesh may have (question 1).
pub const MAX_HALFEDGES: usize = 65535;

pub const MAX_POINTS: usize = 65535;

// How many numbers a halfedge has in its list (start, end, pair, row), and a face reference in its (mesh, coplanar, face).
pub const HALFEDGE_STRIDE: usize = 4;

pub const REF_STRIDE: usize = 3;

// What a negative entry is read as: a number above every count, so that the questions compare it like any other. An Option would be
// opened in each of them to answer the same no.
pub const NO_INDEX: usize = 4294967296;

// Law: these are the stated numbers (specs/Limits.antt, `MeshLimits`).
pub fn limits_hold()
    ensures { MeshLimits }
{}

// The index that x is known to be.
pub fn index_of(x: i32) -> usize
    requires { index_of x < no_index }
    ensures { result ≡ index_of x }
{
    x as usize
}

// Number k of item e, in a list of `stride` numbers to an item. That k is few stays a clause, here and below: an enum of the numbers
// would be one for halfedges and another for references.
#[tactic(auto, unfolding(crate::specs::Mesh::number_at))]
pub fn number_at(s: &[i32], e: usize, stride: usize, k: usize) -> i32
    requires { (0 < stride) × (stride ≤ 4) × (k ≤ 4) }
    ensures { result ≡ number_at s.now e stride k }
{
    if s.len() <= e {
        return 0;
    }
    s.get(e * stride + k).copied().unwrap_or(0)
}

// Number k of halfedge e of any list, as the number of a point or a halfedge. What the questions read.
#[tactic(auto, unfolding(crate::specs::Mesh::field, crate::specs::Mesh::index_of))]
pub fn field(h: &[i32], e: usize, k: usize) -> usize
    requires { k ≤ 4 }
    ensures { result ≡ field h.now e k }
{
    let x = number_at(h, e, HALFEDGE_STRIDE, k);
    usize::try_from(x).unwrap_or(NO_INDEX)
}

// Number k of a halfedge e that is known to lie in the list, as on an accepted mesh: read without a test.
#[tactic(auto, unfolding(crate::specs::Mesh::field, crate::specs::Mesh::number_at))]
fn known_field(h: &[i32], e: usize, k: usize) -> usize
    requires { (e * halfedge_stride + k < length h.now) × (field h.now e k < no_index) }
    ensures { result ≡ field h.now e k }
{
    index_of(h[e * HALFEDGE_STRIDE + k])
}

#[tactic(auto, unfolding(crate::specs::Mesh::as_halfedges))]
pub fn start_vert(h: &[i32], e: usize) -> usize
    requires { Inside (as_halfedges h.now) e }
    ensures { result ≡ start_vert (as_halfedges h.now) e }
{
    known_field(h, e, 0)
}

#[tactic(auto, unfolding(crate::specs::Mesh::as_halfedges))]
pub fn end_vert(h: &[i32], e: usize) -> usize
    requires { Inside (as_halfedges h.now) e }
    ensures { result ≡ end_vert (as_halfedges h.now) e }
{
    known_field(h, e, 1)
}

#[tactic(auto, unfolding(crate::specs::Mesh::as_halfedges))]
pub fn paired_halfedge(h: &[i32], e: usize) -> usize
    requires { Inside (as_halfedges h.now) e }
    ensures { result ≡ paired_halfedge (as_halfedges h.now) e }
{
    known_field(h, e, 2)
}

// The row of the normal of halfedge e, which making from normals alone reads.
pub fn prop_vert(h: &[i32], e: usize) -> usize
    requires { (e * halfedge_stride + halfedge_stride ≤ length h.now) × (prop_vert h.now e < no_index) }
    ensures { result ≡ prop_vert h.now e }
{
    known_field(h, e, 3)
}

#[tactic(auto, unfolding(crate::specs::Mesh::as_halfedges, crate::specs::Mesh::field, crate::specs::Mesh::number_at))]
pub fn is_forward(h: &[i32], e: usize) -> bool
    requires { Inside (as_halfedges h.now) e }
    ensures { result ≡ is_forward (as_halfedges h.now) e }
{
    let at = e * HALFEDGE_STRIDE;
    h[at] < h[at + 1]
}

#[tactic(auto, unfolding(crate::specs::Mesh::next_halfedge))]
pub fn next_halfedge(e: usize) -> usize
    requires { e + 1 < 2 ^ 64 }
    ensures { result ≡ next_halfedge e }
{
    let n = e + 1;
    if n % 3 == 0 { n - 3 } else { n }
}

#[tactic(auto, unfolding(crate::specs::Mesh::prev_halfedge))]
pub fn prev_halfedge(e: usize) -> usize
    requires { e + 1 < 2 ^ 64 }
    ensures { result ≡ prev_halfedge e }
{
    let base = e - e % 3;
    let pos = (e % 3 + 2) % 3;
    base + pos
}

// Do the references of the triangles a and b have the same number k? No `==` of slices: past the end of a list a number is 0.
fn same_ref(refs: &[i32], a: usize, b: usize, k: usize) -> bool
    requires { k ≤ 4 }
    ensures { result ≡ eq_z (ref_at refs.now a k) (ref_at refs.now b k) }
{
    number_at(refs, a, REF_STRIDE, k) == number_at(refs, b, REF_STRIDE, k)
}

#[tactic(auto, unfolding(crate::specs::Mesh::same_face))]
pub fn same_face(refs: &[i32], a: usize, b: usize) -> bool
    ensures { result ≡ same_face refs.now a b }
{
    same_ref(refs, a, b, 0) & same_ref(refs, a, b, 1) & same_ref(refs, a, b, 2)
}

#[tactic(auto, unfolding(crate::specs::Scalar::radians_of))]
pub fn radians(degrees: f64) -> f64
    ensures { result ≡ radians_of degrees }
{
    degrees * 3.14159265358979323846264338327950288 / 180.0
}
