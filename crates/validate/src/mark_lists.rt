ghost use Rattle.std.specs.Prelude.{◌≡◌, ◌*◌, length};
ghost use Rattle.mesh.specs.Mesh.{halfedge_stride, as_halfedges};
ghost use Rattle.mesh.specs.Sound.{Sound};

// The lists of an accepted call that have tangents, of n halfedges and p points. The two counts stand beside the lists as the call
// is handed them, and p is the length of none.
#[derive(Clone, Copy)]
pub struct MarkLists<'a> {
    pub n: usize,
    pub p: usize,
    pub h: &'a [i32],
    pub t: &'a [f64],
    pub ghost sound: { Sound (as_halfedges h.now) n p },
    pub ghost whole: { (as_halfedges h.now).numbers ≡ n * halfedge_stride },
    pub ghost tangents: { length t.now ≡ n * 4 },
}
