// Making from normals: `create_tangents_from_normals` of src/smoothing_tangents.rs as a public call, with its questions. `state` has
// what the loop round a vertex cycle carries, `steps` the bodies of the loops, `walks` the loops, and `whole` the making on an
// accepted mesh.
#![tactic(auto)]

mod state;
mod steps;
mod walks;
mod whole;

ghost use Rattle.std.specs.Prelude.{◌≡◌, ◌*◌, ◌≤◌, length, replicate, IfOk, OnOk};
ghost use Rattle.float.specs.Ops.{zero};
ghost use Rattle.mesh.specs.Mesh.{as_halfedges};
ghost use Rattle.questions.specs.Check.{when_accepted};
ghost use Rattle.create_shared.specs.Answer.{directionless_of, checked_of, Values};
ghost use Rattle.create_from_normals.specs.State.State.{get_normal};
ghost use Rattle.create_from_normals.specs.Whole.Core.{from_normals_directionless};
ghost use Rattle.create_from_normals.specs.Weights.{Weights, WeightsOf};
ghost use Rattle.create_from_normals.specs.FromNormals.{lists_fit, scratch_fits, check_normals, check_lists, tangents_after, create_answer};
ghost use Rattle.create_from_normals.specs.OldNormals.{OldTangents, OldCount};

use create_shared::MeshLists;
use questions::Refusal;
use walks::NormalLists;

// Question 2 of the lists that the call reads, and of the tangents, from the length of each. No struct, here or for scratch: what its
// ghost fields would say is what is asked.
fn lists_fit(
    n: usize,
    p: usize,
    halfedges: usize,
    positions: usize,
    normals: usize,
    face_normals: usize,
    refs: usize,
    row_numbers: usize,
    tangents: usize,
) -> bool
    ensures { result ≡ lists_fit halfedges positions normals face_normals refs row_numbers tangents n p }
{
    let lists = create_shared::mesh_lists_fit(
        n,
        p,
        halfedges,
        positions,
        normals,
        face_normals,
        refs,
    );
    lists & (row_numbers % 3 == 0) & questions::has_length(tangents, n, 4)
}

// Question 2 of the scratch lists.
fn scratch_fits(
    n: usize,
    p: usize,
    fixed: &[u8],
    inside: &[u8],
    current: &[f64],
    desired: &[f64],
    first: &[usize],
) -> bool
    ensures { result ≡ scratch_fits (length fixed.now) (length inside.now) (length current.now) (length desired.now) (length first.now) n p }
{
    let flags = questions::has_length(fixed.len(), n, 1)
        & questions::has_length(inside.len(), n, 1);
    let angles = flags
        & questions::has_length(current.len(), n, 1)
        & questions::has_length(desired.len(), n, 1);
    angles & questions::has_length(first.len(), p, 1)
}

// The questions 1 to 7, 12 and 8; `lengths` is the answer to question 2, `rows` how many rows there are.
#[tactic(auto, unfolding(crate::specs::FromNormals::check_normals))]
fn check_normals(
    n: usize,
    p: usize,
    h: &[i32],
    refs: &[i32],
    rows: usize,
    lengths: bool,
) -> Result<(), Refusal>
    ensures { result ≡ check_normals h.now refs.now rows n p lengths }
{
    let checked = questions::check_mesh(h, n, p, lengths);
    let checked = questions::check_rows(checked, h, rows, n);
    questions::check_refs(checked, refs, n)
}

// Making from normals, for lists of any length and content. `pos` and `normals` have three numbers for each point,
// `face_normals` and `refs` three for each triangle, `rows` three for each row: the normal of the corners whose halfedges have
// this row, 0 where it is missing. With `old` the tangents t hold the old ones. Of the scratch lists `first` has a place for
// each point, each other one for each halfedge. The answer counts the circular tangents on an edge without direction.
// After an accepted call each weight is -1, 0 in a further vertex cycle of a point, or that of a circular tangent, and none is -3.
// Where each halfedge's row holds the three numbers that it had of its own, tangents and count are those of before there were rows.
// The lists are lent flat, counts first, then those read, written and scratch: the form of the C interface and of all makings.
// Those read have one lifetime, as a struct that stands in another needs it; a call may lend them for different ones.
pub fn create_tangents_from_normals<'a>(
    n: usize,
    p: usize,
    h: &'a [i32],
    pos: &'a [f64],
    normals: &'a [f64],
    face_normals: &'a [f64],
    refs: &'a [i32],
    rows: &'a [f64],
    old: bool,
    t: &mut [f64],
    fixed: &mut [u8],
    inside: &mut [u8],
    current: &mut [f64],
    desired: &mut [f64],
    first: &mut [usize],
) -> Result<usize, Refusal>
    ensures answer { result ≡ create_answer h.now pos.now normals.now face_normals.now refs.now rows.now t.old fixed.old inside.old current.old desired.old first.old old n p }
    ensures tangents { t.new ≡ tangents_after (checked_of result) h.now pos.now normals.now face_normals.now refs.now rows.now t.old old n p }
    ensures fixed { fixed.new ≡ when_accepted (checked_of result) (replicate n 0) fixed.old }
    ensures inside { inside.new ≡ when_accepted (checked_of result) (replicate n 0) inside.old }
    ensures current { current.new ≡ when_accepted (checked_of result) (replicate n zero) current.old }
    ensures desired { desired.new ≡ when_accepted (checked_of result) (replicate n zero) desired.old }
    ensures first { first.new ≡ when_accepted (checked_of result) (replicate p 0) first.old }
    ensures bound { directionless_of result ≤ 3 * n }
    ensures values { Values (check_lists h.now pos.now normals.now face_normals.now refs.now rows.now t.old fixed.old inside.old current.old desired.old first.old n p) (from_normals_directionless (as_halfedges h.now) pos.now normals.now face_normals.now refs.now (get_normal h.now rows.now) t.old old n p) result }
    ensures weights { OnOk result (Weights (as_halfedges h.now) pos.now t.new n) }
    ensures old_tangents { OnOk result (OldTangents h.now pos.now normals.now face_normals.now refs.now rows.now t.old old n p t.new) }
    ensures old_count { IfOk result (OldCount h.now pos.now normals.now face_normals.now refs.now rows.now t.old old n p) }
{
    let lists = lists_fit(
        n,
        p,
        h.len(),
        pos.len(),
        normals.len(),
        face_normals.len(),
        refs.len(),
        rows.len(),
        t.len(),
    );
    let scratch = scratch_fits(n, p, fixed, inside, current, desired, first);
    let lengths = lists & scratch;
    let checked = check_normals(n, p, h, refs, rows.len() / 3, lengths);
    // The rule for a public call: the check's answer is opened by `let .. else`.
    let Ok(()) = checked else {
        return questions::refused(checked);
    };
    let mesh = MeshLists {
        n,
        p,
        h,
        refs,
        pos,
        normals,
        face_normals,
    };
    let read = NormalLists { mesh, rows };
    let directionless = whole::make_tangents(&read, old, t, fixed, inside, current, desired, first);
    Ok(directionless)
}

// Law: on a sound mesh making from normals leaves at each halfedge the weight -1, 0, or that of a circular tangent along its edge,
// and never -3 (specs/Weights.antt, `WeightsOf`).
#[tactic(auto, using(crate::proofs::WeightsLaws::Weights::weights))]
pub fn weights_hold()
    ensures { WeightsOf }
{}
