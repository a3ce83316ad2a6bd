// The operations of the program `tangents` on the lists of an input: the call, and what is printed of its
// answer. A list may be longer than the counts call for.

ghost use Rattle.std.specs.Prelude.{◌≡◌, ◌*◌, ◌++◌, length, take, drop};
ghost use Rattle.mesh.specs.Mesh.{halfedge_stride, as_halfedges};
ghost use Rattle.program.specs.Operations.Operations.{straighten_lines, spread_lines, check_lines, operation_lines, straighten_tangents, spread_tangents, spread_scratch, operation_tangents, operation_scratch, SpreadIn, Shows};

use crate::lines::Output;
use questions::Refusal;
use records::Operation;

// The lists that an operation reads, cut to their lengths: n halfedges and p points. Only spreading reads the point normals
// and the fixed halfedges.
#[derive(Clone, Copy)]
struct ReadLists<'a> {
    n: usize,
    p: usize,
    h: &'a [i32],
    pos: &'a [f64],
    normals: &'a [f64],
    fixed: &'a [u8],
}

#[tactic(auto, unfolding(crate::specs::Operations::Operations::straighten_lines))]
fn straighten(lists: &ReadLists<'_>, t: &mut [f64]) -> Result<Output, Refusal>
    ensures lines { Shows (straighten_lines (as_halfedges lists.now.h.now) lists.now.pos.now t.old lists.now.n lists.now.p) lists.now.n result t.new }
    ensures tangents { t.new ≡ straighten_tangents (as_halfedges lists.now.h.now) lists.now.pos.now t.old lists.now.n lists.now.p }
{
    linearize::linearize_flat_tangents(lists.n, lists.p, lists.h, lists.pos, t)?;
    Ok(Output::Tangents { halfedges: lists.n })
}

#[tactic(auto, using(crate::proofs::OperationsLaws::Shown::scratch_lengths, crate::proofs::OperationsLaws::Shown::none_left), unfolding(crate::specs::Operations::Operations::spread_lines))]
fn spread(
    lists: &ReadLists<'_>,
    t: &mut [f64],
    current: &mut [f64],
    desired: &mut [f64],
) -> Result<Output, Refusal>
    requires { (length current.old ≡ lists.now.n) × (length desired.old ≡ lists.now.n) }
    ensures lines { Shows (spread_lines (as_halfedges lists.now.h.now) lists.now.pos.now lists.now.normals.now lists.now.fixed.now t.old lists.now.n lists.now.p) lists.now.n result t.new }
    ensures tangents { t.new ≡ spread_tangents (as_halfedges lists.now.h.now) lists.now.pos.now lists.now.normals.now lists.now.fixed.now t.old lists.now.n lists.now.p }
    ensures current { current.new ≡ spread_scratch (as_halfedges lists.now.h.now) lists.now.pos.now lists.now.normals.now lists.now.fixed.now t.old lists.now.n lists.now.p current.old }
    ensures desired { desired.new ≡ spread_scratch (as_halfedges lists.now.h.now) lists.now.pos.now lists.now.normals.now lists.now.fixed.now t.old lists.now.n lists.now.p desired.old }
{
    let counts = distribute::distribute_tangents(
        lists.n,
        lists.p,
        lists.h,
        lists.pos,
        lists.normals,
        lists.fixed,
        t,
        current,
        desired,
    )?;
    Ok(Output::Spread {
        halfedges: lists.n,
        looked: counts.looked,
        turned: counts.turned,
    })
}

#[tactic(auto, unfolding(crate::specs::Operations::Operations::check_lines))]
fn check(lists: &ReadLists<'_>, t: &[f64]) -> Result<Output, Refusal>
    ensures { Shows (check_lines (as_halfedges lists.now.h.now) lists.now.pos.now t.now lists.now.n lists.now.p) lists.now.n result t.now }
{
    let valid = validate::valid_tangents(lists.n, lists.p, lists.h, lists.pos, t)?;
    Ok(Output::Valid { valid })
}

// The operation on the lists that were read, which it cuts to their lengths. The lists are parameters: with a struct that
// lends them each clause would read `lists.entry.t.now` for `t.old`.
#[tactic(auto, using(crate::proofs::OperationsLaws::Shown::shows_front))]
pub fn perform(
    operation: Operation,
    n: usize,
    p: usize,
    h: &[i32],
    pos: &[f64],
    normals: &[f64],
    fixed: &[u8],
    t: &mut [f64],
    current: &mut [f64],
    desired: &mut [f64],
) -> Result<Output, Refusal>
    requires { SpreadIn n p (length pos.now) (length h.now) (length t.old) (length normals.now) (length fixed.now) (length current.old) (length desired.old) }
    ensures lines { Shows (operation_lines operation (as_halfedges (take (halfedge_stride * n) h.now)) (take (3 * p) pos.now) (take (3 * p) normals.now) (take n fixed.now) (take (4 * n) t.old) n p) n result t.new }
    ensures tangents { t.new ≡ operation_tangents operation (as_halfedges (take (halfedge_stride * n) h.now)) (take (3 * p) pos.now) (take (3 * p) normals.now) (take n fixed.now) (take (4 * n) t.old) n p ++ drop (4 * n) t.old }
    ensures current { current.new ≡ operation_scratch operation (as_halfedges (take (halfedge_stride * n) h.now)) (take (3 * p) pos.now) (take (3 * p) normals.now) (take n fixed.now) (take (4 * n) t.old) n p current.old }
    ensures desired { desired.new ≡ operation_scratch operation (as_halfedges (take (halfedge_stride * n) h.now)) (take (3 * p) pos.now) (take (3 * p) normals.now) (take n fixed.now) (take (4 * n) t.old) n p desired.old }
{
    let points = 3 * p;
    let lists = ReadLists {
        n,
        p,
        h: &h[..mesh::HALFEDGE_STRIDE * n],
        pos: &pos[..points],
        normals: &normals[..points],
        fixed: &fixed[..n],
    };
    let t = &mut t[..4 * n];
    match operation {
        Operation::Straighten => straighten(&lists, t),
        Operation::Spread => spread(&lists, t, &mut current[..n], &mut desired[..n]),
        Operation::Check => check(&lists, t),
    }
}
