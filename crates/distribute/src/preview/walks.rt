// The two walks of `distribute_tangents` of src/smoothing_tangents.rs, without its angles: which tangents they would write.
// The tangents stay as they are; a byte for each halfedge tells those that would be turned.
// Each function asks for its own place (`start < n`, `e * 4 + 4 ≤ length t`) and for room in the counts: both differ from call to
// call, so no struct of the lists can hold them. The bytes stay a parameter, and their length a clause: the list is written, and a
// struct that lends it would make each clause say `lists.new.bytes.now`.
// The walks are alike in shape to those of the module `walks` of the crate, where it stands why both stay.

ghost use Rattle.std.specs.Prelude.{◌≡◌, true, cond, List, suc, ◌+◌, ◌*◌, ◌^◌, ◌≤◌, ◌<◌, length, set, Float};
ghost use Rattle.mesh.specs.Mesh.{as_halfedges};
ghost use Rattle.smoothing.specs.Lists.{tangent_at};
ghost use Rattle.distribute.specs.Spread.Spread.{second_walk, spread_at};
ghost use Rattle.distribute.specs.Steps.FloatSteps.{Plan, is_mark, is_start, tangent_direction, float_steps};
ghost use Rattle.distribute.specs.Walks.Walks.{Room, more_turned};
ghost use Rattle.distribute.specs.declared.walks.Counts.{Counts};
ghost use Rattle.distribute.specs.Preview.Walks.{steps_at, add_tangent, Sums, Previews};

mod lists;

use crate::walks::{Counts, SpreadLists};
use crate::{steps, walks};
use linalg::Vec3;
use lists::Walk;

// What of the first walk decides whether anything is turned: the number of angles and the sum `normal`, for which the last
// tangent's direction is kept.
#[derive(Clone, Copy)]
pub struct Summed {
    pub count: usize,
    pub normal: Vec3,
    pub last_tangent: Vec3,
}

// The steps looked at so far, and what a first walk summed.
#[derive(Clone, Copy)]
pub struct Seen {
    pub looked: usize,
    pub summed: Summed,
}

// The direction of the tangent of halfedge e. Back at its start, a walk uses the one that it set out with.
fn direction_at(walk: &Walk, e: usize) -> Vec3
    requires { e * 4 + 4 ≤ length walk.now.t.now }
    ensures { result ≡ tangent_direction (tangent_at walk.now.t.now e) }
{
    if e == walk.start {
        return walk.first;
    }
    steps::tangent_direction(smoothing::tangent_at(walk.t, e))
}

// One step of the first walk, onto halfedge e: a marked one gathers nothing.
#[tactic(auto, using(smoothing::proofs::Tangents::weight_of), unfolding(crate::specs::Preview::Walks::add_tangent))]
fn add_tangent(walk: &Walk, e: usize, s: Summed) -> Summed
    requires { (e * 4 + 4 ≤ length walk.now.t.now) × (s.count + 1 < 2 ^ 64) }
    ensures { result ≡ cond (is_mark (tangent_at walk.now.t.now e).w) s (add_tangent (tangent_direction (tangent_at walk.now.t.now e)) s) }
{
    if smoothing::is_marked_inside_quad(walk.t, e) {
        return s;
    }
    let tangent = direction_at(walk, e);
    Summed {
        count: s.count + 1,
        normal: steps::next_normal(s.normal, tangent, s.last_tangent),
        last_tangent: tangent,
    }
}

// The first walk, which ends at the next halfedge that is fixed and unmarked.
fn first_walk(walk: &Walk, counts: Counts) -> Seen
    requires { Room walk.now.lists.now.n counts }
    ensures sums { Sums walk.now.lists.now walk.now.t.now walk.now.start counts.looked result }
    ensures looked_bound { result.looked ≤ counts.looked + walk.now.lists.now.n }
{
    let normal = Vec3 {
        x: 0.0,
        y: 0.0,
        z: 0.0,
    };
    let mut summed = Summed {
        count: 0,
        normal,
        last_tangent: walk.first,
    };
    let mut looked = counts.looked;
    let mut here = walk.start;
    loop {
        here = cycles::next_around(walk.lists.h, here);
        looked += 1;
        summed = add_tangent(walk, here, summed);
        if steps::is_start(walk.lists.fixed, walk.t, here) {
            break;
        }
    }
    Seen { looked, summed }
}

// One step of the second walk, onto halfedge e, with i turned before: a marked one would stay as it is.
#[tactic(auto, using(smoothing::proofs::Tangents::weight_of))]
fn show_unmarked(t: &[f64], bytes: &mut [u8], i: usize, e: usize) -> usize
    requires { (e * 4 + 4 ≤ length t.now) × (e < length bytes.old) × (i + 1 < 2 ^ 64) }
    ensures bytes_after { bytes.new ≡ cond (is_mark (tangent_at t.now e).w) bytes.old (set bytes.old e 1) }
    ensures value { result ≡ cond (is_mark (tangent_at t.now e).w) i (i + 1) }
{
    if smoothing::is_marked_inside_quad(t, e) {
        return i;
    }
    bytes[e] = 1;
    i + 1
}

// The second walk: leaves by its label at a fixed halfedge other than the start, before that one's mark is read.
fn second_walk(walk: &Walk, bytes: &mut [u8]) -> usize
    requires { length bytes.old ≡ walk.now.lists.now.n }
    ensures previews { (P N : List Float) (by : Plan) (k : Counts) → Previews (steps_at walk.now.lists.now P N) (second_walk (steps_at walk.now.lists.now P N) (suc walk.now.lists.now.n) walk.now.start walk.now.start by) walk.now.t.now bytes.old k bytes.new (more_turned k result) }
    ensures few { result ≤ walk.now.lists.now.n }
{
    let mut here = walk.start;
    let mut i: usize = 0;
    'walk: loop {
        here = cycles::next_around(walk.lists.h, here);
        if walks::leaves(walk.lists.fixed, walk.start, here) {
            break 'walk;
        }
        i = show_unmarked(walk.t, bytes, i, here);
        if here == walk.start {
            break 'walk;
        }
    }
    i
}

// One turn of the loop over the halfedges: one that is not fixed is no start, and a marked start is passed over. From any
// other start both walks go.
pub fn preview_at(
    lists: &SpreadLists,
    t: &[f64],
    bytes: &mut [u8],
    start: usize,
    counts: Counts,
) -> Counts
    requires lengths { (length t.now ≡ lists.now.n * 4) × (length bytes.old ≡ lists.now.n) }
    requires start_lt_n { (start < lists.now.n) × Room lists.now.n counts }
    ensures previews { (P N : List Float) → Previews (steps_at lists.now P N) (spread_at (steps_at lists.now P N) start) t.now bytes.old counts bytes.new result }
    ensures looked_bound { (result.looked ≤ counts.looked + lists.now.n) × (result.turned ≤ counts.turned + lists.now.n) }
{
    if !steps::is_start(lists.fixed, t, start) {
        return counts;
    }
    let first = steps::tangent_direction(smoothing::tangent_at(t, start));
    let walk = Walk {
        lists,
        t,
        start,
        first,
    };
    let seen = first_walk(&walk, counts);
    let summed = seen.summed;
    if steps::turns_none(summed.count, summed.normal) {
        return Counts {
            looked: seen.looked,
            ..counts
        };
    }
    let turned = second_walk(&walk, bytes);
    Counts {
        looked: seen.looked,
        turned: counts.turned + turned,
    }
}
