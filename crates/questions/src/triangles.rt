// The questions 3 to 7 put to the three halfedges of a triangle at once, by comparisons of the list's own numbers, with an exit at
// the first no. The list and the counts stay parameters, with their facts as clauses of two functions, and the limits of `all_hold` too:
// of a struct of them each clause would say `mesh.now.h.now` for `h.now`.
ghost use Rattle.std.specs.Prelude.{◌≡◌, ◌+◌, ◌*◌, ◌<◌, ◌≤◌, ◌^◌, ◌&&◌, ltb, length};
ghost use Rattle.mesh.specs.Mesh.{max_halfedges, max_points, halfedge_stride, number_at, index_of, as_halfedges, no_index};
ghost use Rattle.questions.specs.All.{halfedge_holds, triangle_holds};

use mesh::{HALFEDGE_STRIDE, index_of};

// Is x the number of one of so many? The remainder, which is the count itself, shows the compiler that the limit is not
// negative, so that it makes the two comparisons one.
fn is_below(x: i32, count: usize) -> bool
    requires { count < 2 ^ 31 }
    ensures { result ≡ ltb (index_of x) count }
{
    (x >= 0) & (x < (count % 0x8000_0000) as i32)
}

// Number k of halfedge e, within the list.
#[tactic(auto, unfolding(mesh::specs::Mesh::number_at))]
fn number_in(h: &[i32], e: usize, k: usize) -> i32
    requires { e * halfedge_stride + k < length h.now }
    ensures { result ≡ number_at h.now e halfedge_stride k }
{
    h[e * HALFEDGE_STRIDE + k]
}

// Are all three the numbers of points?
fn are_points(a: i32, b: i32, c: i32, p: usize) -> bool
    requires { p < 2 ^ 31 }
    ensures { result ≡ ltb (index_of a) p && (ltb (index_of b) p && ltb (index_of c) p) }
{
    is_below(a, p) & (is_below(b, p) & is_below(c, p))
}

// The questions 4 to 7 at a halfedge e that starts at a, where the next one starts at b. That the pair ends at a is asked of it in
// its own turn: there e is the pair, and starts where it ends.
#[tactic(auto, unfolding(mesh::specs::Mesh::field, mesh::specs::Mesh::as_halfedges, mesh::specs::Mesh::index_of, crate::specs::All::halfedge_holds))]
fn halfedge_holds(h: &[i32], n: usize, e: usize, a: i32, b: i32) -> bool
    requires { (length h.now ≡ n * halfedge_stride) × (n ≤ max_halfedges) × (e < n) × (index_of b < no_index) }
    ensures { result ≡ halfedge_holds (as_halfedges h.now) n e (index_of a) (index_of b) }
{
    if number_in(h, e, 1) != b {
        return false;
    }
    let c = number_in(h, e, 2);
    if !is_below(c, n) {
        return false;
    }
    let pair = index_of(c);
    if number_in(h, pair, 2) != e as i32 {
        return false;
    }
    if number_in(h, pair, 0) != b {
        return false;
    }
    a != b
}

// The questions 3 to 7 at the halfedges e, e + 1 and e + 2 of a triangle. That an end is a point follows from the next one's start.
#[tactic(auto, unfolding(mesh::specs::Mesh::as_halfedges, mesh::specs::Mesh::field, crate::specs::All::triangle_holds))]
pub fn triangle_holds(h: &[i32], n: usize, p: usize, e: usize) -> bool
    requires { (length h.now ≡ n * halfedge_stride) × (n ≤ max_halfedges) × (p ≤ max_points) × (e + 2 < n) }
    ensures { result ≡ triangle_holds (as_halfedges h.now) n p e }
{
    let a = number_in(h, e, 0);
    let b = number_in(h, e + 1, 0);
    let c = number_in(h, e + 2, 0);
    if !are_points(a, b, c, p) {
        return false;
    }
    if !halfedge_holds(h, n, e, a, b) {
        return false;
    }
    if !halfedge_holds(h, n, e + 1, b, c) {
        return false;
    }
    halfedge_holds(h, n, e + 2, c, a)
}
