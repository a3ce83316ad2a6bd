// `create_tangents_from_normals` of src/smoothing_tangents.rs on an accepted mesh.
// Each function asks for its own place (`e < n`): the place differs from call to call, so no struct of the lists can hold it. Lengths
// of lists that are written stay clauses too: a struct that lends them would make each clause say `lists.exit.t.now` for `t.new`.

mod quad_lists;

ghost use Rattle.std.specs.Prelude.{◌≡◌, ◌<◌, false, length, set, replicate};
ghost use Rattle.float.specs.Ops.{zero};
ghost use Rattle.smoothing.specs.Inner.{put_edge};
ghost use Rattle.create_shared.specs.Makings.{tangents_of};
ghost use Rattle.create_from_normals.specs.State.Units.{UnitsIn};
ghost use Rattle.distribute.specs.Distribute.{spread_tangents};
ghost use Rattle.create_from_normals.specs.Whole.Core.{MadeIn, ScratchIn};
ghost use Rattle.create_from_normals.specs.Whole.Lists.{normal_tangents_by, create_tangents_by, from_normals_count};
ghost use Rattle.create_from_normals.specs.Whole.Flags.{halfedges_of, quad_flag_by, inside_quads, inside_quad_step};

use crate::walks::{NormalLists, WalkLists};
use crate::{state, walks};
use distribute::inner::SpreadLists;
use quad_lists::QuadLists;

// The flag of halfedge e: 1 if it is inside a quad.
#[tactic(auto, using(crate::proofs::WholeLaws::Lent::quad_at), unfolding(crate::specs::Whole::Flags::quad_flag))]
fn quad_flag(lists: &QuadLists<'_>, e: usize) -> u8
    requires { e < lists.now.mesh.n }
    ensures { result ≡ quad_flag_by lists.now lists.now.old e }
{
    u8::from(smoothing::is_inside_quad(lists.mesh.h, lists.mesh.refs, lists.t, lists.old, e))
}

// The body of the loop over the halfedges. Where there are no old tangents it writes the flags of both halfedges of an edge at its
// forward one: both are inside a quad or neither is. `old` is asked at each halfedge: asked before the loop it would take two loops,
// with an invariant each, for this one.
#[tactic(auto, unfolding(crate::specs::Whole::Flags::inside_quad_step, crate::specs::Whole::Flags::inside_quad_at, smoothing::specs::Inner::put_edge))]
fn inside_quad_step(lists: &QuadLists<'_>, inside: &mut [u8], e: usize)
    requires { (e < lists.now.mesh.n) × (length inside.old ≡ lists.now.mesh.n) }
    ensures { inside.new ≡ inside_quad_step (halfedges_of lists.now) lists.now.mesh.refs.now lists.now.t.now lists.now.old inside.old e }
{
    let h = lists.mesh.h;
    if !lists.old && !mesh::is_forward(h, e) {
        return;
    }
    let flag = quad_flag(lists, e);
    inside[e] = flag;
    if lists.old {
        return;
    }
    let pair = mesh::paired_halfedge(h, e);
    inside[pair] = flag;
}

// A 1 for each halfedge inside a quad and a 0 for each other one, whatever the list held.
#[tactic(auto, using(common::proofs::Fold::fold_next), unfolding(common::specs::Fold::fold_to))]
fn inside_quads(lists: &QuadLists<'_>, inside: &mut [u8])
    requires { length inside.old ≡ lists.now.mesh.n }
    ensures { inside.new ≡ inside_quads (halfedges_of lists.now) lists.now.mesh.refs.now lists.now.t.now lists.now.old lists.now.mesh.n }
{
    for e in 0..inside.len() {
        inside_quad_step(lists, inside, e);
    }
}

// The tangents and the fixed flags before spreading, and the count. The old weights are read before the tangents become 0.
fn normal_tangents(
    lists: &NormalLists<'_>,
    face_units: &[f64],
    old: bool,
    t: &mut [f64],
    fixed: &mut [u8],
    inside: &mut [u8],
    first: &mut [usize],
) -> usize
    requires { UnitsIn lists.now.mesh.face_normals.now face_units.now lists.now.mesh.n × MadeIn t.old fixed.old inside.old first.old lists.now.mesh.n lists.now.mesh.p }
    ensures tangents { tangents_of t.new fixed.new ≡ normal_tangents_by lists.now t.old old }
    ensures directionless { result ≡ from_normals_count lists.now t.old old }
{
    let mesh = &lists.mesh;
    let quads = QuadLists {
        mesh: *mesh,
        t,
        old,
    };
    inside_quads(&quads, inside);
    t.fill(0.0);
    fixed.fill(0);
    create_shared::vert_halfedge(mesh.h, first, mesh.n);
    let walks = WalkLists {
        lists: *lists,
        face_units,
        inside,
        first,
    };
    walks::normals_verts(&walks, t, fixed)
}

// The tangents of an accepted call, and zeros in all scratch lists; and the count. Until spreading, `current` holds the unit
// vectors of the triangles' normals. The six lists that are written stay parameters: of a struct that lends them a clause would say
// `scratch.exit.current.now` for `current.new`.
pub fn make_tangents(
    lists: &NormalLists<'_>,
    old: bool,
    t: &mut [f64],
    fixed: &mut [u8],
    inside: &mut [u8],
    current: &mut [f64],
    desired: &mut [f64],
    first: &mut [usize],
) -> usize
    requires { ScratchIn t.old fixed.old inside.old current.old desired.old first.old lists.now.mesh.n lists.now.mesh.p }
    ensures tangents { t.new ≡ create_tangents_by lists.now t.old old }
    ensures fixed { fixed.new ≡ replicate lists.now.mesh.n 0 }
    ensures inside { inside.new ≡ replicate lists.now.mesh.n 0 }
    ensures current { current.new ≡ replicate lists.now.mesh.n zero }
    ensures desired { desired.new ≡ replicate lists.now.mesh.n zero }
    ensures first { first.new ≡ replicate lists.now.mesh.p 0 }
    ensures directionless { result ≡ from_normals_count lists.now t.old old }
{
    let mesh = &lists.mesh;
    state::put_units(mesh.face_normals, current);
    let directionless = normal_tangents(lists, current, old, t, fixed, inside, first);
    let spread = SpreadLists {
        n: mesh.n,
        p: mesh.p,
        h: mesh.h,
        pos: mesh.pos,
        normals: mesh.normals,
        fixed,
    };
    distribute::inner::spread_tangents(&spread, t, current, desired);
    fixed.fill(0);
    inside.fill(0);
    first.fill(0);
    directionless
}
