ghost use Rattle.std.specs.Prelude.{◌≡◌, ◌*◌, ◌<◌, length};
ghost use Rattle.mesh.specs.Mesh.{halfedge_stride, as_halfedges};
ghost use Rattle.mesh.specs.Sound.{Sound};
ghost use Rattle.distribute.specs.Steps.FloatSteps.{approx_normal};
ghost use Rattle.distribute.specs.Steps.Scratch.{directions_at};

use crate::steps::Directions;
use linalg::Vec3;

// The lists of an accepted call that spreading only reads, of n halfedges and p points. The two counts stand beside the lists as the
// call is handed them, and p is the length of none.
#[derive(Clone, Copy)]
pub struct SpreadLists<'a> {
    pub n: usize,
    pub p: usize,
    pub h: &'a [i32],
    pub pos: &'a [f64],
    pub normals: &'a [f64],
    pub fixed: &'a [u8],
    pub ghost sound: { Sound (as_halfedges h.now) n p },
    pub ghost whole: { (as_halfedges h.now).numbers ≡ n * halfedge_stride },
    pub ghost positions: { length pos.now ≡ p * 3 },
    pub ghost normals_whole: { length normals.now ≡ p * 3 },
    pub ghost flags: { length fixed.now ≡ n },
}

// A first walk from `start`: what it reads, with the approximate normal of the start's point and the directions at the
// start, which are worked out once.
#[derive(Clone, Copy)]
pub struct FirstWalk<'a> {
    pub lists: &'a SpreadLists<'a>,
    pub t: &'a [f64],
    pub start: usize,
    pub approx: Vec3,
    pub first: Directions,
    pub ghost tangents: { length t.now ≡ lists.now.n * 4 },
    pub ghost start_below: { start < lists.now.n },
    pub ghost approx_is: { approx ≡ approx_normal (as_halfedges lists.now.h.now) lists.now.normals.now start },
    pub ghost first_is: { first ≡ directions_at (as_halfedges lists.now.h.now) lists.now.pos.now t.now start start },
}
