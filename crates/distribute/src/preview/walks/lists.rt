ghost use Rattle.std.specs.Prelude.{◌≡◌, ◌*◌, ◌<◌, true, length};
ghost use Rattle.smoothing.specs.Lists.{tangent_at};
ghost use Rattle.distribute.specs.Steps.FloatSteps.{is_start, tangent_direction};

use crate::walks::SpreadLists;
use linalg::Vec3;

// A walk of the preview from `start`: the lists that it reads, and the direction of the tangent at the start, which is worked out once.
#[derive(Clone, Copy)]
pub struct Walk<'a> {
    pub lists: &'a SpreadLists<'a>,
    pub t: &'a [f64],
    pub start: usize,
    pub first: Vec3,
    pub ghost tangents: { length t.now ≡ lists.now.n * 4 },
    pub ghost start_below: { start < lists.now.n },
    pub ghost start_is: { is_start lists.now.fixed.now t.now start ≡ true },
    pub ghost first_is: { first ≡ tangent_direction (tangent_at t.now start) },
}
