// The lists of a mesh that the makings read.

ghost use Rattle.std.specs.Prelude.{◌≡◌, ◌*◌, length};
ghost use Rattle.mesh.specs.Mesh.{halfedge_stride, as_halfedges};
ghost use Rattle.mesh.specs.Sound.{Sound};

// A sound mesh of n halfedges and p points, with a position and a normal for each point, and three numbers of face normals for each
// triangle. The counts stand beside the lists, as they are handed in and checked against them: p is the length of no list.
#[derive(Clone, Copy)]
pub struct MeshLists<'a> {
    pub n: usize,
    pub p: usize,
    pub h: &'a [i32],
    pub refs: &'a [i32],
    pub pos: &'a [f64],
    pub normals: &'a [f64],
    pub face_normals: &'a [f64],
    pub ghost sound: { Sound (as_halfedges h.now) n p },
    pub ghost whole: { (as_halfedges h.now).numbers ≡ n * halfedge_stride },
    pub ghost positions: { length pos.now ≡ p * 3 },
    pub ghost point_normals: { length normals.now ≡ p * 3 },
    pub ghost triangle_normals: { length face_normals.now ≡ n },
}
