// The lists that the loop over the points reads, as a value that keeps what is known of them: no function asks for it again.

ghost use Rattle.std.specs.Prelude.{◌≡◌, ◌*◌, length};

use crate::creases::LinkedCreases;

// The linked creases of a mesh, a position for each of its points, and the flags of the triangles, in a list with a place for each
// halfedge.
#[derive(Clone, Copy)]
pub struct ShapeLists<'a> {
    pub creases: LinkedCreases<'a>,
    pub pos: &'a [f64],
    pub flat: &'a [u8],
    pub ghost positions: { length pos.now ≡ length creases.at.now * 3 },
    pub ghost flags: { length flat.now ≡ creases.n },
}
