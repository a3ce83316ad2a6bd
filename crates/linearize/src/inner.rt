// What another call uses of this one, the making of tangents, and its steps: its functions require what the questions established.
// Each asks for its own place (`e * 4 + 4 ≤ length t`, `HalfedgeIn`): the place differs from call to call, so no struct of the lists
// can hold it.

ghost use Rattle.std.specs.Prelude.{◌≡◌, ◌+◌, ◌*◌, ◌≤◌, length};
ghost use Rattle.mesh.specs.Mesh.{as_halfedges};
ghost use Rattle.linearize.specs.Linearize.{is_flat, with_unit_weight, linearized, linearize_end, linearize_edge, linearize_at, linearize_flat_tangents, HalfedgeIn, Lists};

use linalg::{Vec3, Vec4};

fn is_flat(tangent: Vec4) -> bool
    ensures { result ≡ is_flat tangent }
{
    tangent.w == 0.0
}

#[tactic(auto, unfolding(crate::specs::Linearize::with_unit_weight))]
fn with_unit_weight(v: Vec3) -> Vec4
    ensures { result ≡ with_unit_weight v }
{
    smoothing::with_weight(v, 1.0)
}

// The new tangent of a flat end, from the edge as it runs from that end and the tangent of the other end.
#[tactic(auto, unfolding(crate::specs::Linearize::linearized))]
fn linearized(edge: Vec3, other: Vec4) -> Vec4
    ensures { result ≡ linearized edge other }
{
    if is_flat(other) {
        return with_unit_weight(edge / 3.0);
    }
    with_unit_weight((edge + smoothing::vec3_from_vec4(other)) / 2.0)
}

// The end at halfedge e, whose tangent is `tangent`. No struct of the edge and the tangents, here or below: the pair's end has
// them turned round and exchanged, so each end would make one of its own.
#[tactic(auto, unfolding(crate::specs::Linearize::linearize_end))]
fn linearize_end(t: &mut [f64], e: usize, edge: Vec3, tangent: Vec4, other: Vec4)
    requires { e * 4 + 4 ≤ length t.old }
    ensures { t.new ≡ linearize_end t.old e edge tangent other }
{
    if !is_flat(tangent) {
        return;
    }
    smoothing::put_tangent(t, e, linearized(edge, other));
}

// Both ends of an edge, from the tangents as they were read before. Where both are flat, the third of the edge is worked out once.
#[tactic(auto, unfolding(crate::specs::Linearize::linearize_edge))]
fn linearize_edge(t: &mut [f64], e: usize, pair: usize, edge: Vec3, tangent: Vec4, other: Vec4)
    requires { (e * 4 + 4 ≤ length t.old) × (pair * 4 + 4 ≤ length t.old) }
    ensures { t.new ≡ linearize_edge t.old e pair edge tangent other }
{
    if is_flat(tangent) & is_flat(other) {
        let third = edge / 3.0;
        smoothing::put_tangent(t, e, with_unit_weight(third));
        smoothing::put_tangent(t, pair, with_unit_weight(-third));
        return;
    }
    linearize_end(t, e, edge, tangent, other);
    linearize_end(t, pair, -edge, other, tangent);
}

// The body of the loop at halfedge e. The edge is worked out only where an end is flat.
#[tactic(auto, unfolding(crate::specs::Linearize::linearize_at))]
fn linearize_at(h: &[i32], pos: &[f64], t: &mut [f64], e: usize)
    requires { HalfedgeIn (as_halfedges h.now) pos.now t.old e }
    ensures { t.new ≡ linearize_at (as_halfedges h.now) pos.now t.old e }
{
    if !mesh::is_forward(h, e) {
        return;
    }
    let pair = mesh::paired_halfedge(h, e);
    let tangent = smoothing::tangent_at(t, e);
    let other = smoothing::tangent_at(t, pair);
    if is_flat(tangent) {
        let edge = smoothing::edge_vec(h, pos, e);
        linearize_edge(t, e, pair, edge, tangent, other);
        return;
    }
    if !is_flat(other) {
        return;
    }
    let edge = smoothing::edge_vec(h, pos, e);
    linearize_end(t, pair, -edge, other, tangent);
}

// Every halfedge of lists that are known to be right.
#[tactic(auto, using(common::proofs::Fold::fold_none, common::proofs::Fold::fold_turn), unfolding(crate::specs::Linearize::linearize_flat_tangents))]
pub fn linearize_all(n: usize, p: usize, h: &[i32], pos: &[f64], t: &mut [f64])
    requires { Lists (as_halfedges h.now) pos.now t.old n p }
    ensures { t.new ≡ linearize_flat_tangents (as_halfedges h.now) pos.now t.old n }
{
    for e in 0..n {
        linearize_at(h, pos, t, e);
    }
}
