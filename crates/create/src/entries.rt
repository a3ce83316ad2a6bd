// `create_tangents` of src/smoothing_tangents.rs with its sharp entries as the Rust lends them, a list of structs: a public call beside
// `crate::create_tangents`.

ghost use Rattle.std.specs.Prelude.{◌≡◌, ℕ, Bool, List, ℤ, Float, ◌*◌, ◌≤◌, length, replicate};
ghost use Rattle.float.specs.Ops.{zero};
ghost use Rattle.mesh.specs.Mesh.{as_halfedges};
ghost use Rattle.mesh.specs.Rows.{RowsUnread};
ghost use Rattle.questions.specs.Check.{when_accepted};
ghost use Rattle.create_shared.specs.Answer.{directionless_of, checked_of, Values};
ghost use Rattle.create.specs.declared.sharp.Smoothness.{Smoothness};
ghost use Rattle.create.specs.Create.{tangents_after};
ghost use Rattle.create.specs.Whole.Core.{create_directionless};
ghost use Rattle.create.specs.Entries.{check_lists, create_answer};

use crate::sharp::Smoothness;
use crate::{sharp, whole};
use create_shared::MeshLists;
use questions::Refusal;

// Making from sharp edges, for lists of any length and content: `crate::create_tangents` with the sharp entries as structs.
// The parameters are in the order of that call: the C interface's counts, lists read, lists written, scratch.
pub fn create_entries(
    n: usize,
    p: usize,
    h: &[i32],
    pos: &[f64],
    normals: &[f64],
    face_normals: &[f64],
    refs: &[i32],
    sharp: &[Smoothness],
    old: bool,
    t: &mut [f64],
    fixed: &mut [u8],
    flat: &mut [u8],
    smooth: &mut [f64],
    desired: &mut [f64],
    at: &mut [usize],
    link: &mut [usize],
) -> Result<usize, Refusal>
    ensures answer { result ≡ create_answer (as_halfedges h.now) pos.now normals.now face_normals.now refs.now sharp.now t.old fixed.old flat.old smooth.old desired.old at.old link.old old n p }
    ensures tangents { t.new ≡ tangents_after (checked_of result) (as_halfedges h.now) pos.now normals.now face_normals.now refs.now sharp.now t.old old n p }
    ensures fixed { fixed.new ≡ when_accepted (checked_of result) (replicate n 0) fixed.old }
    ensures flat { flat.new ≡ when_accepted (checked_of result) (replicate n 0) flat.old }
    ensures smooth { smooth.new ≡ when_accepted (checked_of result) (replicate n zero) smooth.old }
    ensures desired { desired.new ≡ when_accepted (checked_of result) (replicate n zero) desired.old }
    ensures at { at.new ≡ when_accepted (checked_of result) (replicate p 0) at.old }
    ensures link { link.new ≡ when_accepted (checked_of result) (replicate n 0) link.old }
    ensures bound { directionless_of result ≤ 2 * n }
    ensures values { Values (check_lists (as_halfedges h.now) pos.now normals.now face_normals.now refs.now sharp.now t.old fixed.old flat.old smooth.old desired.old at.old link.old n p) (create_directionless (as_halfedges h.now) pos.now refs.now sharp.now t.old old n p) result }
{
    let entries = sharp.len();
    let mesh_lists = crate::check_mesh_lists(
        n,
        p,
        h,
        pos,
        normals,
        face_normals,
        refs,
        entries,
        entries,
        t.len(),
        fixed.len(),
        flat.len(),
        smooth.len(),
        desired.len(),
        at.len(),
        link.len(),
    );
    let checked = sharp::check_sharp(mesh_lists, sharp, n);
    // The rule for a public call: the check's answer is opened by `let .. else`.
    let Ok(()) = checked else {
        return questions::refused(checked);
    };
    sharp::sharp_smoothness(sharp, smooth);
    let mesh = MeshLists {
        n: n,
        p: p,
        h: h,
        refs: refs,
        pos: pos,
        normals: normals,
        face_normals: face_normals,
    };
    let directionless = whole::make_tangents(mesh, old, t, fixed, flat, smooth, desired, at, link);
    Ok(directionless)
}

// Law: the call carries the rows of the halfedges unread (`RowsUnread`, crates/mesh/specs/Rows.antt); its tangents are those that
// `crate::rows_unread` speaks of.
#[tactic(auto, using(mesh::proofs::Rows::rows_unread))]
pub fn rows_unread()
    ensures questions { (P N A : List Float) (R : List ℤ) (E : List Smoothness) (T : List Float) (X F : List ℕ) (M D : List Float) (W L : List ℕ) (n p : ℕ) → RowsUnread (λ H. check_lists H P N A R E T X F M D W L n p) }
    ensures answer { (P N A : List Float) (R : List ℤ) (E : List Smoothness) (T : List Float) (X F : List ℕ) (M D : List Float) (W L : List ℕ) (old : Bool) (n p : ℕ) → RowsUnread (λ H. create_answer H P N A R E T X F M D W L old n p) }
{}
