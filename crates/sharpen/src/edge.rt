// The rule for one edge, from which both listings and the tally follow.

ghost use Rattle.std.specs.Prelude.{◌≡◌, ◌<◌};
ghost use Rattle.sharpen.specs.Crease.{min_radians, dihedral_of, is_crease};
ghost use Rattle.sharpen.specs.Turn.{kind_of};

use crate::crease_lists::CreaseLists;

// What an edge is: no crease, a crease, or a crease only by a sliver: a triangle at it has the face normal zero.
#[derive(Clone, Copy)]
pub enum EdgeKind {
    NoCrease,
    Crease,
    SliverCrease,
}

// By which rule an edge is a crease: the Rust's, or the clean one (docs/changes/06-clean-listing.md).
#[derive(Clone, Copy)]
pub enum Rule {
    Ported,
    Clean,
}

// The angle above which an edge is a crease; one that is not a number acts as 1e-4.
#[tactic(auto, unfolding(crate::specs::Crease::min_radians))]
pub fn min_radians(angle: f64) -> f64
    ensures { result ≡ min_radians angle }
{
    mesh::radians(float::max(angle, 1e-4))
}

// The angle between two face normals with this dot product.
#[tactic(auto, unfolding(crate::specs::Crease::dihedral_of))]
fn dihedral(d: f64) -> f64
    ensures { result ≡ dihedral_of d }
{
    math::acos(float::clamp(d, -1.0, 1.0))
}

// What the edge of halfedge e is. Of its two halfedges the forward one stands for it, and the other for no crease.
#[tactic(auto, using(crate::proofs::Slivers::crease_alone), unfolding(crate::specs::Crease::edge_kind))]
pub fn edge_kind(lists: &CreaseLists<'_>, e: usize) -> EdgeKind
    requires { e < lists.now.n }
    ensures { result ≡ kind_of lists.now e }
{
    if !mesh::is_forward(lists.h, e) {
        return EdgeKind::NoCrease;
    }
    let pair = mesh::paired_halfedge(lists.h, e);
    let own = smoothing::point_at(lists.face_normals, e / 3);
    let other = smoothing::point_at(lists.face_normals, pair / 3);
    let d = linalg::dot(own, other);
    if dihedral(d) > lists.limit {
        // A crease that touches a zero normal has the dot product zero.
        if d == 0.0 {
            if linalg::is_zero(own) | linalg::is_zero(other) {
                return EdgeKind::SliverCrease;
            }
        }
        return EdgeKind::Crease;
    }
    EdgeKind::NoCrease
}

// Is an edge of this kind a crease by the rule?
pub fn is_crease(rule: Rule, kind: EdgeKind) -> bool
    ensures { result ≡ is_crease rule kind }
{
    match kind {
        EdgeKind::NoCrease => false,
        EdgeKind::Crease => true,
        EdgeKind::SliverCrease => match rule {
            Rule::Ported => true,
            Rule::Clean => false,
        },
    }
}
