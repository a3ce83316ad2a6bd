// What a crease listing goes by: a mesh with its face normals, and how its edges are asked about.

ghost use Rattle.std.specs.Prelude.{◌≡◌, ◌*◌, length};
ghost use Rattle.mesh.specs.Mesh.{halfedge_stride, as_halfedges};
ghost use Rattle.mesh.specs.Sound.{Sound};

use crate::edge::Rule;

// A sound mesh of n halfedges and p points with three numbers of normals for each triangle; the angle, in radians, above which an
// edge is a crease; the smoothness of its entries; and the rule by which the listing takes edges. The two counts stand beside the
// lists as the call is handed them, and p is the length of none.
#[derive(Clone, Copy)]
pub struct CreaseLists<'a> {
    pub n: usize,
    pub p: usize,
    pub h: &'a [i32],
    pub face_normals: &'a [f64],
    pub limit: f64,
    pub smooth: f64,
    pub rule: Rule,
    pub ghost sound: { Sound (as_halfedges h.now) n p },
    pub ghost whole: { (as_halfedges h.now).numbers ≡ n * halfedge_stride },
    pub ghost triangle_normals: { length face_normals.now ≡ n },
}
