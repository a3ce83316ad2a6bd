// The oracle's answers to calls on meshes: straightening, the mark check, the crease listing, leaves over a mesh, and refusals.

mod edges;
mod faces;
mod refusals;

ghost use Rattle.std.specs.Prelude.{◌≡◌, true, ◌*◌};
ghost use Rattle.mesh.specs.Mesh.{as_halfedges, halfedge_stride};
ghost use Rattle.mesh.specs.Sound.{Sound};

use crate::cases::{Case, Operation, ends_as};
use crate::listings;
use crate::reader::Reader;
use crate::tally::Tally;

// Reads the lists of straightening or of the mark check, and asks `same` of them.
fn with_tangents<F>(mut case: Case<'_>, same: F) -> bool
where
    F: FnOnce(Case<'_>, &[i32], &[f64], &mut [f64]) -> bool,
    requires { F.IsAlwaysCallable same }
{
    let mut pos = [0.0f64; 256];
    let mut h = [0i32; 256];
    let mut t = [0.0f64; 256];
    let pos = case.body.list(&mut pos);
    let h = case.body.list(&mut h);
    let t = case.body.list(&mut t);
    same(case, h, pos, t)
}

// The tangents as the Rust left them come next.
fn straighten(mut case: Case<'_>, h: &[i32], pos: &[f64], t: &mut [f64]) -> bool {
    let checked = linearize::linearize_flat_tangents(case.n, case.p, h, pos, t);
    ends_as(checked, case.outcome) && case.body.holds_list(t)
}

fn check(mut case: Case<'_>, h: &[i32], pos: &[f64], t: &mut [f64]) -> bool {
    let validity = validate::valid_tangents(case.n, case.p, h, pos, t);
    let valid = case.body.read::<usize>() == 1;
    ends_as(validity, case.outcome.map(|()| valid))
}

// Do the questions accept a mesh? They do that of every case of a leaf.
fn is_accepted(h: &[i32], n: usize, p: usize) -> bool
    ensures { result ≡ true → Sound (as_halfedges h.now) n p × ((as_halfedges h.now).numbers ≡ n * halfedge_stride) }
{
    let lengths = questions::has_length(h.len(), n, mesh::HALFEDGE_STRIDE);
    let Ok(()) = questions::check_mesh(h, n, p, lengths) else {
        return false;
    };
    true
}

fn agrees(case: Case<'_>) -> bool {
    match case.operation {
        Ok(Operation::Straighten) => with_tangents(case, straighten),
        Ok(Operation::Check) => with_tangents(case, check),
        Ok(Operation::Crease) => listings::agrees(case),
        Ok(Operation::TangentFromNormal) => edges::tangent_from_normal(case),
        Ok(Operation::InsideQuad) => edges::inside_quad(case),
        Ok(Operation::FlatFaces) => faces::flat_faces(case),
        _ => refusals::agrees(case),
    }
}

pub fn counted(tally: Tally, record: Reader<'_>) -> Tally {
    tally.counted(agrees(Case::new(record)))
}
