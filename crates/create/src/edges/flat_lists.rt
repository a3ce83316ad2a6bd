// The lists by which an edge is the end of a flat face, as a value that keeps what is known of them: no function asks for it again.

ghost use Rattle.std.specs.Prelude.{length};
ghost use Rattle.mesh.specs.Mesh.{as_halfedges};
ghost use Rattle.smoothing.specs.Lent.{FlatIn};

// The halfedges and the face references of a mesh, and the flags of its triangles, in a list with a place for each halfedge.
#[derive(Clone, Copy)]
pub struct FlatLists<'a> {
    pub h: &'a [i32],
    pub refs: &'a [i32],
    pub flat: &'a [u8],
    pub ghost triangles: { FlatIn (as_halfedges h.now) (length flat.now) },
}
