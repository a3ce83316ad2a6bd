// What the creases are to each point in `create_tangents`. The Rust's map `vert_tangents` is two scratch lists here: at each
// point the number of its first crease, at each halfedge that of the next.
// Each function asks for its own place (`e < n`, `v < length at`, `Inside e`): the place differs from call to call, so no struct of
// the lists can hold it.

ghost use Rattle.std.specs.Prelude.{◌≡◌, ℕ, suc, ◌+◌, ◌<◌, ◌^◌, length, get_or, set};
ghost use Rattle.mesh.specs.Mesh.{start_vert, as_halfedges};
ghost use Rattle.mesh.specs.Inside.{Inside};
ghost use Rattle.smoothing.specs.Faces.{is_flat};
ghost use Rattle.create_shared.specs.Verts.{vert_halfedge};
ghost use Rattle.create.specs.Edges.Smoothness.{smoothness};
ghost use Rattle.create.specs.Creases.Creases.{through_of, count_of, add_sides, sums_of, mean_of, crease_of};
ghost use Rattle.create.specs.Creases.Linked.{halfedge_of, LinkedFrom, LinkedAll, Lists};
ghost use Rattle.create.specs.Creases.Lists.{pair_by, pairs_by};

mod linked_creases;

use crate::edges;
pub use linked_creases::LinkedCreases;

// What the creases are to a point: none; the end of one; one through it, with its two halfedges and the smoothness of either side,
// around from the first to the second and from the second on; or a meeting of more, with the mean smoothness.
#[derive(Clone, Copy)]
pub enum Crease {
    NoCrease,
    OneEnd,
    Through {
        first: usize,
        second: usize,
        between: f64,
        beyond: f64,
    },
    Meeting {
        mean: f64,
    },
}

// Over the sides of creases: the sum of their smoothness, and how many are not 0.
#[derive(Clone, Copy)]
pub struct Sums {
    pub smoothness: f64,
    pub denom: f64,
}

// ---- the creases of each point

// Puts e in front of the list of the point where it starts. Of n halfedges the number n + 1 + e stands for e; a number and no enum,
// since both lists are lent by the caller, for C too.
fn link_halfedge(h: &[i32], at: &mut [usize], link: &mut [usize], e: usize)
    requires { (e < length link.old) × (start_vert (as_halfedges h.now) e < length at.old) × (length link.old + 1 + e < 2 ^ 64) × Inside (as_halfedges h.now) e }
    ensures { (link.new ≡ set link.old e (get_or at.old (start_vert (as_halfedges h.now) e) 0)) × (at.new ≡ set at.old (start_vert (as_halfedges h.now) e) (suc (length link.old) + e)) }
{
    let v = mesh::start_vert(h, e);
    link[e] = at[v];
    at[v] = link.len() + 1 + e;
}

// Puts the edge of f, if it is a crease, in front of the lists of its two points. `Lists` stays a clause, here and below, and is no
// struct's: it speaks of `at` and `link`, which are written.
fn link_edge(h: &[i32], smooth: &[f64], at: &mut [usize], link: &mut [usize], f: usize)
    requires { let n = length smooth.now in (f < n) × Lists (as_halfedges h.now) smooth.now at.old link.old n × LinkedFrom (as_halfedges h.now) smooth.now at.old link.old n (f + 1) }
    ensures { LinkedFrom (as_halfedges h.now) smooth.now at.new link.new (length smooth.now) f }
{
    if !edges::is_crease(h, smooth, f) {
        return;
    }
    let k = mesh::paired_halfedge(h, f);
    link_halfedge(h, at, link, k);
    link_halfedge(h, at, link, f);
}

// The creases of each point, from the last edge to the first, so that each list ascends by the forward halfedge. `at` holds
// each point's lowest halfedge, the result of `vert_halfedge`.
#[tactic(auto, using(crate::proofs::CreasesLaws::Creases::creases_end))]
pub fn link_creases(h: &[i32], smooth: &[f64], at: &mut [usize], link: &mut [usize])
    requires { let n = length smooth.now in Lists (as_halfedges h.now) smooth.now at.old link.old n × ((v : ℕ) → v < length at.old → get_or at.old v 0 ≡ vert_halfedge (as_halfedges h.now) n v) }
    ensures { LinkedAll (as_halfedges h.now) smooth.now at.new link.new (length smooth.now) }
{
    for f in (0..smooth.len()).rev() {
        link_edge(h, smooth, at, link, f);
    }
}

// The smoothness of each halfedge, where `smooth` holds that of the caller's entries, and the creases of each point, whatever
// `at` and `link` held.
pub fn find_creases(
    h: &[i32],
    refs: &[i32],
    flat: &[u8],
    smooth: &mut [f64],
    at: &mut [usize],
    link: &mut [usize],
)
    requires { Lists (as_halfedges h.now) smooth.old at.old link.old (length flat.now) }
    ensures { let n = length flat.now in (smooth.new ≡ smoothness (as_halfedges h.now) refs.now (is_flat flat.now) smooth.old n) × LinkedAll (as_halfedges h.now) smooth.new at.new link.new n }
{
    edges::add_flat_boundaries(h, refs, flat, smooth);
    create_shared::vert_halfedge(h, at, flat.len());
    link_creases(h, smooth, at, link);
}

// The halfedge that stands at a point after `link_creases`: that of its first crease, or with no crease its lowest, n for none.
// No Option: at a meeting, which is walked round from it, it is always there, and a branch for none would be one that nothing
// takes. And no `LinkedCreases`, which would ask more: it reads `at` alone.
#[tactic(auto, unfolding(crate::specs::Creases::Linked::halfedge_of))]
pub fn first_crease(n: usize, at: &[usize], v: usize) -> usize
    requires { (v < length at.now) × (n + 1 < 2 ^ 64) }
    ensures { result ≡ halfedge_of n (get_or at.now v 0) }
{
    let code = at[v];
    code.checked_sub(n + 1).unwrap_or(code)
}

// ---- what the creases are to a point

// What a side adds to the denominator.
fn count(s: f64) -> f64
    ensures { result ≡ count_of s }
{
    f64::from(s != 0.0)
}

// The sums with both sides of crease e.
#[tactic(auto, unfolding(crate::specs::Creases::Creases::add_sides), using(crate::proofs::CreasesLaws::Lent::sides_in))]
fn add_sides(creases: &LinkedCreases<'_>, sums: Sums, e: usize) -> Sums
    requires { e < creases.now.n }
    ensures { result ≡ add_sides sums (pair_by creases.now e) }
{
    let a = creases.smooth[e];
    let b = edges::pair_smoothness(creases.h, creases.smooth, e);
    Sums {
        smoothness: sums.smoothness + (a + b),
        denom: sums.denom + count(a) + count(b),
    }
}

// The sums over all creases of point v.
#[tactic(auto, using(crate::proofs::CreasesLaws::Linked::walk_below, crate::proofs::CreasesLaws::Linked::walk_end, create_shared::proofs::Verts::vert_halfedge_within))]
fn crease_sums(creases: &LinkedCreases<'_>, v: usize) -> Sums
    requires { v < length creases.now.at.now }
    ensures { result ≡ sums_of (pairs_by creases.now v) }
{
    let n = creases.n;
    let mut sums = Sums {
        smoothness: 0.0,
        denom: 0.0,
    };
    let mut code = creases.at[v];
    while let Some(e) = code.checked_sub(n + 1) {
        sums = add_sides(creases, sums, e);
        code = creases.link[e];
    }
    sums
}

// Their mean smoothness.
#[tactic(auto, unfolding(crate::specs::Creases::Creases::mean_of))]
fn mean(sums: Sums) -> f64
    ensures { result ≡ mean_of sums }
{
    if sums.denom > 0.0 {
        sums.smoothness / sums.denom
    } else {
        sums.smoothness
    }
}

// A crease through a point, of the halfedges `first` and `second`.
#[tactic(auto, unfolding(crate::specs::Creases::Creases::through_of), using(crate::proofs::CreasesLaws::Lent::sides_in))]
fn through(creases: &LinkedCreases<'_>, first: usize, second: usize) -> Crease
    requires { (first < creases.now.n) × (second < creases.now.n) }
    ensures { result ≡ through_of (pair_by creases.now first) (pair_by creases.now second) }
{
    let h = creases.h;
    let smooth = creases.smooth;
    Crease::Through {
        first: first,
        second: second,
        between: (edges::pair_smoothness(h, smooth, first) + smooth[second]) / 2.0,
        beyond: (edges::pair_smoothness(h, smooth, second) + smooth[first]) / 2.0,
    }
}

// What the creases are to point v.
#[tactic(auto, using(crate::proofs::CreasesLaws::Points::first_below, crate::proofs::CreasesLaws::Points::second_below, crate::proofs::CreasesLaws::Points::point_none, crate::proofs::CreasesLaws::Points::point_end, crate::proofs::CreasesLaws::Points::point_through, crate::proofs::CreasesLaws::Points::point_meeting))]
pub fn crease_at(creases: &LinkedCreases<'_>, v: usize) -> Crease
    requires { v < length creases.now.at.now }
    ensures { result ≡ crease_of (pairs_by creases.now v) }
{
    let n = creases.n;
    let Some(first) = creases.at[v].checked_sub(n + 1) else {
        return Crease::NoCrease;
    };
    let Some(second) = creases.link[first].checked_sub(n + 1) else {
        return Crease::OneEnd;
    };
    if creases.link[second] <= n {
        return through(creases, first, second);
    }
    Crease::Meeting {
        mean: mean(crease_sums(creases, v)),
    }
}
