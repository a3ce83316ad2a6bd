// The two walks of `distribute_tangents` of src/smoothing_tangents.rs, and one turn of its loop over the halfedges. No walk
// has a guard: a vertex cycle comes back.
// Each function asks for its own place (`start < n`, of which `is_start` may be known) and for room in the counts: both differ from
// call to call, so no struct of the lists can hold them. The lists that are written stay parameters: with a struct that lends them
// each clause would read `lists.new.t.now` and state what they are lent as, too.
// These walks and this turn are alike in shape to those of `preview::walks`, and both stay: the preview carries no angles and writes
// no tangents (it has no scratch lists), and one text for both would take the step of each walk with its own state.

ghost use Rattle.std.specs.Prelude.{◌≡◌, true, not, cond, ◌&&◌, List, suc, ◌+◌, ◌≤◌, ◌<◌, length, eqb, Float};
ghost use Rattle.mesh.specs.Mesh.{as_halfedges};
ghost use Rattle.smoothing.specs.Lists.{tangent_at, put_tangent};
ghost use Rattle.distribute.specs.Spread.Spread.{second_walk, spread_at};
ghost use Rattle.distribute.specs.Steps.FloatSteps.{is_mark, is_fixed, is_start, gather, turn, next, float_steps};
ghost use Rattle.distribute.specs.Steps.Scratch.{gathered_of, directions_at, plan_of};
ghost use Rattle.distribute.specs.Walks.Walks.{Written, Room, Gives, more_turned, steps_of, found_of, first_found, CanGather, CanTurn, SecondInput};
ghost use Rattle.distribute.specs.declared.walks.Counts.{Counts};

mod lists;

use crate::steps;
use crate::steps::{Carried, Directions, Turning};
use lists::FirstWalk;
pub use lists::SpreadLists;

// How many steps the first walks took, and how many tangents the second walks wrote.
#[derive(Clone, Copy)]
pub struct Counts {
    pub looked: usize,
    pub turned: usize,
}

// Where a first walk ended, the steps looked at so far, and what it carried along.
#[derive(Clone, Copy)]
pub struct Ended {
    pub last: usize,
    pub looked: usize,
    pub carried: Carried,
}

// The two directions at halfedge e of a first walk. Back at its start, the walk uses those that it set out with.
fn directions_at(walk: &FirstWalk, e: usize) -> Directions
    requires { e < walk.now.lists.now.n }
    ensures { result ≡ directions_at (as_halfedges walk.now.lists.now.h.now) walk.now.lists.now.pos.now walk.now.t.now walk.now.start e }
{
    if e == walk.start {
        return walk.first;
    }
    let edge = steps::edge_direction(walk.lists.h, walk.lists.pos, walk.start, e);
    let tangent = steps::tangent_direction(smoothing::tangent_at(walk.t, e));
    Directions { edge, tangent }
}

// One step of the first walk, onto halfedge e: the mark is read before anything else, and a marked one gathers nothing.
#[tactic(auto, using(smoothing::proofs::Tangents::weight_of))]
fn gather_at(
    walk: &FirstWalk,
    current: &mut [f64],
    desired: &mut [f64],
    e: usize,
    g: Carried,
) -> Carried
    requires { CanGather walk.now current.old desired.old e g }
    ensures result_after { gathered_of current.new desired.new result ≡ cond (is_mark (tangent_at walk.now.t.now e).w) (gathered_of current.old desired.old g) (gather (as_halfedges walk.now.lists.now.h.now) walk.now.lists.now.pos.now walk.now.lists.now.normals.now walk.now.start e (tangent_at walk.now.t.now e) (gathered_of current.old desired.old g)) }
    ensures count_value { result.count ≡ cond (is_mark (tangent_at walk.now.t.now e).w) g.count (g.count + 1) }
{
    if smoothing::is_marked_inside_quad(walk.t, e) {
        return g;
    }
    let at = directions_at(walk, e);
    steps::gather_edge(current, desired, walk.approx, at, e == walk.start, g)
}

// The first walk, a loop that yields the halfedge where it stopped: breaks with the next one that is fixed and unmarked. No iterator,
// here or in the second walk.
fn first_walk(
    lists: &SpreadLists,
    t: &[f64],
    current: &mut [f64],
    desired: &mut [f64],
    start: usize,
    counts: Counts,
) -> Ended
    requires written { Written lists.now t.now current.old desired.old }
    requires start_lt_n { (start < lists.now.n) × (is_start lists.now.fixed.now t.now start ≡ true) × Room lists.now.n counts }
    ensures result_after { found_of lists.now current.new desired.new result ≡ first_found lists.now t.now start counts.looked }
    ensures looked_bound { (result.looked ≤ counts.looked + lists.now.n) × (result.carried.count ≤ lists.now.n) }
{
    let v = smoothing::tangent_at(t, start);
    let mut g = steps::begin(lists.h, lists.pos, start, v);
    let approx = smoothing::point_at(lists.normals, mesh::start_vert(lists.h, start));
    let (edge, tangent) = (g.last_edge, g.first_tangent);
    let walk = FirstWalk {
        lists,
        t,
        start,
        approx,
        first: Directions { edge, tangent },
    };
    let (mut looked, mut here) = (counts.looked, start);
    let last = loop {
        here = cycles::next_around(lists.h, here);
        looked += 1;
        g = gather_at(&walk, current, desired, here, g);
        if steps::is_start(lists.fixed, t, here) {
            break here;
        }
    };
    Ended {
        last,
        looked,
        carried: g,
    }
}

// One step of the second walk, onto halfedge e, with i angles used up: a marked one stays as it is.
#[tactic(auto, using(smoothing::proofs::Tangents::weight_of))]
fn turn_unmarked(
    t: &mut [f64],
    current: &[f64],
    desired: &mut [f64],
    by: Turning,
    i: usize,
    e: usize,
) -> usize
    requires { CanTurn t.old current.now desired.old by i e }
    ensures t_after { t.new ≡ cond (is_mark (tangent_at t.old e).w) t.old (put_tangent t.old e (turn (plan_of current.now desired.old by i) (tangent_at t.old e))) }
    ensures result_after { plan_of current.now desired.new by result ≡ cond (is_mark (tangent_at t.old e).w) (plan_of current.now desired.old by i) (next (plan_of current.now desired.old by i)) }
    ensures value { result ≡ cond (is_mark (tangent_at t.old e).w) i (i + 1) }
{
    if smoothing::is_marked_inside_quad(t, e) {
        return i;
    }
    steps::turn_at(t, current, desired, by, i, e);
    i + 1
}

// Does the second walk from `start` leave at e, a fixed halfedge other than the start?
pub fn leaves(fixed: &[u8], start: usize, e: usize) -> bool
    requires { e < length fixed.now }
    ensures { result ≡ (not (eqb e start) && is_fixed fixed.now e) }
{
    (e != start) & (fixed[e] == 1)
}

// The second walk: leaves by its label at a fixed halfedge other than the start, before that one's mark is read.
fn second_walk(
    lists: &SpreadLists,
    t: &mut [f64],
    current: &[f64],
    desired: &mut [f64],
    start: usize,
    by: Turning,
) -> usize
    requires { SecondInput lists.now t.old current.now desired.old start by }
    ensures gives { (k : Counts) → Gives (steps_of lists.now) (second_walk (steps_of lists.now) (suc lists.now.n) start start (plan_of current.now desired.old by 0)) t.old k t.new (more_turned k result) }
    ensures few { result ≤ by.count }
{
    let mut here = start;
    let mut i: usize = 0;
    'walk: loop {
        here = cycles::next_around(lists.h, here);
        if leaves(lists.fixed, start, here) {
            break 'walk;
        }
        i = turn_unmarked(t, current, desired, by, i, here);
        if here == start {
            break 'walk;
        }
    }
    i
}

// One turn of the loop over the halfedges: one that is not fixed is no start, and a marked start is passed over. From any
// other start both walks go.
#[tactic(auto, using(crate::proofs::WalksLaws::Starts::at_none))]
pub fn spread_at(
    lists: &SpreadLists,
    t: &mut [f64],
    current: &mut [f64],
    desired: &mut [f64],
    start: usize,
    counts: Counts,
) -> Counts
    requires written { Written lists.now t.old current.old desired.old }
    requires start_lt_n { (start < lists.now.n) × Room lists.now.n counts }
    ensures gives { Gives (steps_of lists.now) (spread_at (steps_of lists.now) start) t.old counts t.new result }
    ensures looked_bound { (result.looked ≤ counts.looked + lists.now.n) × (result.turned ≤ counts.turned + lists.now.n) }
{
    if !steps::is_start(lists.fixed, t, start) {
        return counts;
    }
    let ended = first_walk(lists, t, current, desired, start, counts);
    let carried = ended.carried;
    if steps::turns_none(carried.count, carried.normal) {
        return Counts {
            looked: ended.looked,
            ..counts
        };
    }
    let by = steps::plan(current, desired, start, ended.last, carried);
    let turned = second_walk(lists, t, current, desired, start, by);
    Counts {
        looked: ended.looked,
        turned: counts.turned + turned,
    }
}
