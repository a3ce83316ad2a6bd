// The lists of creases, once they are linked, as a value that keeps what is known of them: no function asks for it again.

ghost use Rattle.std.specs.Prelude.{ℕ, ◌≡◌, ◌<◌, true, length, get_or};
ghost use Rattle.mesh.specs.Mesh.{as_halfedges};
ghost use Rattle.create_shared.specs.Verts.{vert_halfedge};
ghost use Rattle.create.specs.Creases.Linked.{creases_at, is_linked, Lists};

// The smoothness of each of n halfedges, and the creases of each point, as `link_creases` leaves them: `at` has the number of a
// point's first crease, `link` that of the next. `n` stays a field, though it is the length of `smooth`: without it each clause
// here and in the crates above would say `length creases.now.smooth.now` for `creases.now.n`. That the creases are linked is kept
// as a test, since a field can keep an answer: `linked_tests` and `linked_all` of proofs/CreasesLaws/Lent.antt say that it is
// `LinkedAll`, which `link_creases` ensures.
#[derive(Clone, Copy)]
pub struct LinkedCreases<'a> {
    pub n: usize,
    pub h: &'a [i32],
    pub smooth: &'a [f64],
    pub at: &'a [usize],
    pub link: &'a [usize],
    pub ghost lists: { Lists (as_halfedges h.now) smooth.now at.now link.now n },
    pub ghost linked: { (v : ℕ) → v < length at.now → is_linked n link.now (vert_halfedge (as_halfedges h.now) n v) (get_or at.now v 0) (creases_at (as_halfedges h.now) smooth.now n v) ≡ true },
}
