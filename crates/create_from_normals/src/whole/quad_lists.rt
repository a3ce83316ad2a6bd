// The lists that the flags of the halfedges inside a quad are worked out of.

ghost use Rattle.std.specs.Prelude.{◌≡◌, ◌*◌, length};

use create_shared::MeshLists;

// The lists of an accepted mesh, and the tangents as lent, which are old ones where `old` says so.
#[derive(Clone, Copy)]
pub struct QuadLists<'a> {
    pub mesh: MeshLists<'a>,
    pub t: &'a [f64],
    pub old: bool,
    pub ghost tangents: { length t.now ≡ mesh.n * 4 },
}
