// What other calls use of this one, the makings of tangents: their lists are known to be right, and spreading requires what the questions
// established.

ghost use Rattle.std.specs.Prelude.{◌≡◌, replicate};
ghost use Rattle.float.specs.Ops.{zero};
ghost use Rattle.mesh.specs.Mesh.{as_halfedges};
ghost use Rattle.distribute.specs.Walks.Walks.{Written, steps_of};
ghost use Rattle.distribute.specs.Distribute.{spread_tangents, Reports};

use crate::walks;
use crate::walks::Counts;
pub use crate::walks::SpreadLists;

// Spreading of an accepted mesh: the loop over its halfedges, and then zeros in both scratch lists. The lists written are
// parameters: with a struct that lends them each clause would read `lists.new.t.now` and state what they are lent as, too.
#[tactic(auto, using(crate::proofs::Pass::pass_begin, crate::proofs::Pass::pass_next))]
pub fn spread_tangents(
    lists: &SpreadLists,
    t: &mut [f64],
    current: &mut [f64],
    desired: &mut [f64],
) -> Counts
    requires { Written lists.now t.old current.old desired.old }
    ensures report { Reports (steps_of lists.now) (spread_tangents (as_halfedges lists.now.h.now) lists.now.pos.now lists.now.normals.now lists.now.fixed.now t.old lists.now.n) t.new result }
    ensures current { current.new ≡ replicate lists.now.n zero }
    ensures desired { desired.new ≡ replicate lists.now.n zero }
{
    let mut counts = Counts {
        looked: 0,
        turned: 0,
    };
    for start in 0..lists.n {
        counts = walks::spread_at(lists, t, current, desired, start, counts);
    }
    current.fill(0.0);
    desired.fill(0.0);
    counts
}
