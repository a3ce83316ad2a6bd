// `create_tangents` of src/smoothing_tangents.rs on an accepted mesh: the initial tangents, the creases and what they do at each
// point, then straightening and spreading; and how many circular tangents are computed on an edge without direction.

ghost use Rattle.std.specs.Prelude.{◌≡◌, ◌*◌, length, replicate};
ghost use Rattle.float.specs.Ops.{zero};
ghost use Rattle.mesh.specs.Mesh.{as_halfedges};
ghost use Rattle.smoothing.specs.Edges.{is_inside_quad};
ghost use Rattle.create_shared.specs.Makings.{tangents_of};
ghost use Rattle.linearize.specs.Linearize.{linearize_flat_tangents};
ghost use Rattle.distribute.specs.Distribute.{spread_tangents};
ghost use Rattle.create.specs.Whole.Shape.{shaped_tangents};
ghost use Rattle.create.specs.Whole.Lent.{CreateLists, pairs_of};
ghost use Rattle.create.specs.Whole.Core.{directionless_with};
ghost use Rattle.create.specs.Whole.Filled.{Lists, create_filled, filled_directionless};

use crate::creases::LinkedCreases;
use crate::shapes::ShapeLists;
use crate::{creases, initial, shapes};
use create_shared::MeshLists;
use distribute::inner::SpreadLists;

// The tangents and the fixed flags, and the count, where `smooth` holds the smoothness of the caller's entries, and whatever the
// flags and the other scratch lists held: `flat`, `smooth` and `link` with a place for each halfedge, `at` with one for each point.
// The lists that are written stay parameters, here and below: of a struct that lends them a clause would say `lists.entry.t.now`
// and `lists.exit.t.now` where it says `t.old` and `t.new`.
fn shape_tangents(
    mesh: MeshLists<'_>,
    old: bool,
    t: &mut [f64],
    fixed: &mut [u8],
    flat: &mut [u8],
    smooth: &mut [f64],
    at: &mut [usize],
    link: &mut [usize],
) -> usize
    requires { CreateLists t.old fixed.old flat.old smooth.old at.old link.old mesh.n mesh.p }
    ensures tangents { let m = mesh.entry in let H = as_halfedges m.h.now in tangents_of t.new fixed.new ≡ shaped_tangents H m.pos.now m.normals.now m.face_normals.now m.refs.now (is_inside_quad H m.refs.now t.old old) (pairs_of H m.refs.now smooth.old m.n) m.n m.p }
    ensures directionless { let m = mesh.entry in let H = as_halfedges m.h.now in result ≡ directionless_with H m.pos.now m.refs.now (pairs_of H m.refs.now smooth.old m.n) t.old old m.n m.p }
{
    let first = initial::first_tangents(mesh, old, t, flat, at);
    creases::find_creases(mesh.h, mesh.refs, flat, smooth, at, link);
    fixed.fill(0);
    let creases = LinkedCreases {
        n: mesh.n,
        h: mesh.h,
        smooth,
        at,
        link,
    };
    let lists = ShapeLists {
        creases,
        pos: mesh.pos,
        flat,
    };
    let shaped = shapes::shape_verts(&lists, t, fixed);
    first + shaped
}

// Straightening, then spreading by the point normals and the halfedges that are fixed, with `smooth` and `desired` as its
// scratch lists.
fn finish_tangents(
    mesh: MeshLists<'_>,
    fixed: &[u8],
    t: &mut [f64],
    smooth: &mut [f64],
    desired: &mut [f64],
)
    requires fixed { length fixed.now ≡ mesh.n }
    requires tangents { length t.old ≡ mesh.n * 4 }
    requires scratch { (length smooth.old ≡ mesh.n) × (length desired.old ≡ mesh.n) }
    ensures tangents { let m = mesh.entry in let H = as_halfedges m.h.now in t.new ≡ (spread_tangents H m.pos.now m.normals.now fixed.now (linearize_flat_tangents H m.pos.now t.old m.n) m.n).tangents }
    ensures smooth { smooth.new ≡ replicate mesh.entry.n zero }
    ensures desired { desired.new ≡ replicate mesh.entry.n zero }
{
    linearize::inner::linearize_all(mesh.n, mesh.p, mesh.h, mesh.pos, t);
    let lists = SpreadLists {
        n: mesh.n,
        p: mesh.p,
        h: mesh.h,
        pos: mesh.pos,
        normals: mesh.normals,
        fixed,
    };
    distribute::inner::spread_tangents(&lists, t, smooth, desired);
}

// The tangents of an accepted call, where `smooth` holds the smoothness of the entries, and zeros in all scratch lists; and the
// count. The lists that are written are parameters, as in `shape_tangents`: a struct that lends them would make each clause say
// `lists.exit.t.now` for `t.new`.
#[tactic(auto, unfolding(crate::specs::Whole::Filled::filled_directionless))]
pub fn make_tangents(
    mesh: MeshLists<'_>,
    old: bool,
    t: &mut [f64],
    fixed: &mut [u8],
    flat: &mut [u8],
    smooth: &mut [f64],
    desired: &mut [f64],
    at: &mut [usize],
    link: &mut [usize],
) -> usize
    requires { Lists t.old fixed.old flat.old smooth.old desired.old at.old link.old mesh.n mesh.p }
    ensures tangents { let m = mesh.entry in t.new ≡ create_filled (as_halfedges m.h.now) m.pos.now m.normals.now m.face_normals.now m.refs.now smooth.old t.old old m.n m.p }
    ensures fixed { fixed.new ≡ replicate mesh.entry.n 0 }
    ensures flat { flat.new ≡ replicate mesh.entry.n 0 }
    ensures smooth { smooth.new ≡ replicate mesh.entry.n zero }
    ensures desired { desired.new ≡ replicate mesh.entry.n zero }
    ensures at { at.new ≡ replicate mesh.entry.p 0 }
    ensures link { link.new ≡ replicate mesh.entry.n 0 }
    ensures directionless { let m = mesh.entry in result ≡ filled_directionless (as_halfedges m.h.now) m.pos.now m.refs.now smooth.old t.old old m.n m.p }
{
    let directionless = shape_tangents(mesh, old, t, fixed, flat, smooth, at, link);
    finish_tangents(mesh, fixed, t, smooth, desired);
    fixed.fill(0);
    flat.fill(0);
    at.fill(0);
    link.fill(0);
    directionless
}
