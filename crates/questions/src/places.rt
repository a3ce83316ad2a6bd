// The test of each question, put once or to one place: what a test asks (`e + 1 < 2 ^ 64`) is of its own place, which no struct holds.
ghost use Rattle.std.specs.Prelude.{◌≡◌, ◌+◌, ◌<◌, ◌^◌};
ghost use Rattle.mesh.specs.Mesh.{start_vert, end_vert, paired_halfedge, as_halfedges};
ghost use Rattle.questions.specs.Questions.{counts_fit, has_points, has_pair, is_mutual, is_opposite, is_joined, has_mesh, names_halfedge, has_clear_sign, is_flag, has_row};

use super::sign_clear;
use mesh::{MAX_HALFEDGES, MAX_POINTS, NO_INDEX, REF_STRIDE, field, next_halfedge, number_at};

pub fn counts_fit(n: usize, p: usize) -> bool
    ensures { result ≡ counts_fit n p }
{
    (n % 3 == 0) & (n <= MAX_HALFEDGES) & (p <= MAX_POINTS)
}

// The reads of any list.
#[tactic(auto, unfolding(mesh::specs::Mesh::as_halfedges))]
fn start_of(h: &[i32], e: usize) -> usize
    ensures { result ≡ start_vert (as_halfedges h.now) e }
{
    field(h, e, 0)
}

#[tactic(auto, unfolding(mesh::specs::Mesh::as_halfedges))]
fn end_of(h: &[i32], e: usize) -> usize
    ensures { result ≡ end_vert (as_halfedges h.now) e }
{
    field(h, e, 1)
}

#[tactic(auto, unfolding(mesh::specs::Mesh::as_halfedges))]
fn pair_of(h: &[i32], e: usize) -> usize
    ensures { result ≡ paired_halfedge (as_halfedges h.now) e }
{
    field(h, e, 2)
}

pub fn has_points(h: &[i32], p: usize, e: usize) -> bool
    ensures { result ≡ has_points (as_halfedges h.now) p e }
{
    (start_of(h, e) < p) & (end_of(h, e) < p)
}

pub fn has_pair(h: &[i32], n: usize, e: usize) -> bool
    ensures { result ≡ has_pair (as_halfedges h.now) n e }
{
    pair_of(h, e) < n
}

pub fn is_mutual(h: &[i32], e: usize) -> bool
    ensures { result ≡ is_mutual (as_halfedges h.now) e }
{
    pair_of(h, pair_of(h, e)) == e
}

pub fn is_opposite(h: &[i32], e: usize) -> bool
    ensures { result ≡ is_opposite (as_halfedges h.now) e }
{
    let start = start_of(h, e);
    let end = end_of(h, e);
    let pair = pair_of(h, e);
    (start != end) & (start_of(h, pair) == end) & (end_of(h, pair) == start)
}

pub fn is_joined(h: &[i32], e: usize) -> bool
    requires { e + 1 < 2 ^ 64 }
    ensures { result ≡ is_joined (as_halfedges h.now) e }
{
    start_of(h, next_halfedge(e)) == end_of(h, e)
}

pub fn has_mesh(refs: &[i32], t: usize) -> bool
    ensures { result ≡ has_mesh refs.now t }
{
    number_at(refs, t, REF_STRIDE, 0) >= 1
}

pub fn names_halfedge(entries: &[usize], n: usize, k: usize) -> bool
    ensures { result ≡ names_halfedge entries.now n k }
{
    entries.get(k).copied().unwrap_or(0) < n
}

#[tactic(auto, unfolding(crate::specs::Questions::sign_clear))]
pub fn has_clear_sign(smoothness: &[f64], k: usize) -> bool
    ensures { result ≡ has_clear_sign smoothness.now k }
{
    smoothness.get(k).is_some_and(|s| sign_clear(*s))
}

pub fn is_flag(fixed: &[u8], e: usize) -> bool
    ensures { result ≡ is_flag fixed.now e }
{
    fixed.get(e).copied().unwrap_or(0) <= 1
}

pub fn has_row(h: &[i32], rows: usize, e: usize) -> bool
    ensures { result ≡ has_row h.now rows e }
{
    let row = field(h, e, 3);
    (row < NO_INDEX) & (row < rows)
}
