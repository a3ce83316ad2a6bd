// Which edges are creases in `create_tangents`: the smoothness of each halfedge, from the caller's entries and the flat faces.
// The Rust's map `edges` is a scratch list here, with a place for each halfedge.
// Each function asks for its own place (`e < length flat`, `SidesIn`): the place differs from call to call, so no struct of the
// lists can hold it.

mod flat_lists;

ghost use Rattle.std.specs.Prelude.{◌≡◌, ◌<◌, length};
ghost use Rattle.mesh.specs.Mesh.{as_halfedges};
ghost use Rattle.smoothing.specs.Faces.{is_flat};
ghost use Rattle.smoothing.specs.Lent.{FlatIn};
ghost use Rattle.create.specs.Edges.Lent.{SidesIn};
ghost use Rattle.create.specs.Edges.Smoothness.{is_flat_boundary, add_flat_boundary, smoothness, pair_smoothness, is_crease};

use crate::sharp;
use flat_lists::FlatLists;

// Does halfedge e lie in a flat face, and across it another face?
#[tactic(auto, unfolding(crate::specs::Edges::Smoothness::is_flat_boundary))]
fn is_flat_boundary(lists: &FlatLists<'_>, e: usize) -> bool
    requires { e < length lists.now.flat.now }
    ensures { let l = lists.now in result ≡ is_flat_boundary (as_halfedges l.h.now) l.refs.now (is_flat l.flat.now) e }
{
    let flat = lists.flat;
    let t = e / 3;
    if flat[t] != 1 {
        return false;
    }
    let u = mesh::paired_halfedge(lists.h, e) / 3;
    if flat[u] != 1 {
        return true;
    }
    !mesh::same_face(lists.refs, t, u)
}

// The entry of a flat face for halfedge e, if it ends there.
#[tactic(auto, unfolding(crate::specs::Edges::Smoothness::add_flat_boundary))]
fn add_flat_boundary(lists: &FlatLists<'_>, smooth: &mut [f64], e: usize)
    requires { (e < length lists.now.flat.now) × (length smooth.old ≡ length lists.now.flat.now) }
    ensures { let l = lists.now in smooth.new ≡ add_flat_boundary (as_halfedges l.h.now) l.refs.now (is_flat l.flat.now) smooth.old e }
{
    if !is_flat_boundary(lists, e) {
        return;
    }
    sharp::add_entry(smooth, e, 0.0);
}

// The entries of the flat faces, after the caller's, which `smooth` holds: 0 for each halfedge where one ends. It is public, so
// `FlatIn` stays a clause: a parameter of the type `FlatLists` would ask more.
#[tactic(auto, unfolding(crate::specs::Edges::Smoothness::smoothness), using(common::proofs::Fold::fold_turn, common::proofs::Fold::fold_none))]
pub fn add_flat_boundaries(h: &[i32], refs: &[i32], flat: &[u8], smooth: &mut [f64])
    requires { FlatIn (as_halfedges h.now) (length flat.now) × (length smooth.old ≡ length flat.now) }
    ensures { smooth.new ≡ smoothness (as_halfedges h.now) refs.now (is_flat flat.now) smooth.old (length flat.now) }
{
    let lists = FlatLists { h, refs, flat };
    for e in 0..flat.len() {
        add_flat_boundary(&lists, smooth, e);
    }
}

// The smoothness of the other side of e's edge.
pub fn pair_smoothness(h: &[i32], smooth: &[f64], e: usize) -> f64
    requires { SidesIn (as_halfedges h.now) smooth.now e }
    ensures { result ≡ pair_smoothness (as_halfedges h.now) smooth.now e }
{
    let k = mesh::paired_halfedge(h, e);
    smooth[k]
}

// Is f the forward halfedge of a crease?
#[tactic(auto, unfolding(crate::specs::Edges::Smoothness::is_crease))]
pub fn is_crease(h: &[i32], smooth: &[f64], f: usize) -> bool
    requires { SidesIn (as_halfedges h.now) smooth.now f }
    ensures { result ≡ is_crease (as_halfedges h.now) smooth.now f }
{
    if !mesh::is_forward(h, f) {
        return false;
    }
    let other = pair_smoothness(h, smooth, f);
    (smooth[f] < 1.0) | (other < 1.0)
}
