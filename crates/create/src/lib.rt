// Making from sharp edges: `create_tangents` of src/smoothing_tangents.rs as a public call, with its questions. `sharp` has the sharp
// entries, `edges` and `creases` what they make creases, `initial` and `shapes` the tangents, and `whole` the making on an accepted
// mesh; `entries` is the same call of a list of structs.
#![tactic(auto)]

mod creases;
mod edges;
pub mod entries;
mod initial;
mod shapes;
pub mod sharp;
mod whole;

ghost use Rattle.std.specs.Prelude.{◌≡◌, ℕ, Bool, List, ℤ, Float, ◌*◌, ◌≤◌, ◌&&◌, length, replicate};
ghost use Rattle.float.specs.Ops.{zero};
ghost use Rattle.mesh.specs.Mesh.{as_halfedges};
ghost use Rattle.mesh.specs.Rows.{RowsUnread};
ghost use Rattle.questions.specs.Check.{Checked, check_mesh, check_refs, when_accepted};
ghost use Rattle.create_shared.specs.Answer.{directionless_of, checked_of, Values};
ghost use Rattle.create.specs.declared.sharp.Smoothness.{Smoothness};
ghost use Rattle.create.specs.Sharp.Entries.{entries_of};
ghost use Rattle.create.specs.Whole.Core.{create_directionless};
ghost use Rattle.create.specs.Create.{lists_fit, scratch_fits, check_lists, tangents_after, create_answer};

use create_shared::MeshLists;
use questions::Refusal;

// Question 2 of the scratch lists, from the length of each. No struct, here or below: its fields would be these lengths by the same
// names, and the caller would write each twice.
fn scratch_fits(
    n: usize,
    p: usize,
    fixed: usize,
    flat: usize,
    smooth: usize,
    desired: usize,
    at: usize,
    link: usize,
) -> bool
    ensures { result ≡ scratch_fits fixed flat smooth desired at link n p }
{
    let flags = questions::has_length(fixed, n, 1) & questions::has_length(flat, n, 1);
    let angles = flags & questions::has_length(smooth, n, 1) & questions::has_length(desired, n, 1);
    angles & questions::has_length(at, p, 1) & questions::has_length(link, n, 1)
}

// The questions 1 to 8, which both calls put: `entries` and `smoothness` are the lengths of the sharp entries' lists. Of the lists that
// are written only the lengths are asked, too.
#[tactic(auto, unfolding(mesh::specs::Mesh::as_halfedges))]
fn check_mesh_lists(
    n: usize,
    p: usize,
    h: &[i32],
    pos: &[f64],
    normals: &[f64],
    face_normals: &[f64],
    refs: &[i32],
    entries: usize,
    smoothness: usize,
    t: usize,
    fixed: usize,
    flat: usize,
    smooth: usize,
    desired: usize,
    at: usize,
    link: usize,
) -> Result<(), Refusal>
    ensures { result ≡ check_refs (check_mesh (as_halfedges h.now) n p (lists_fit (as_halfedges h.now).numbers (length pos.now) (length normals.now) (length face_normals.now) (length refs.now) entries smoothness t n p && scratch_fits fixed flat smooth desired at link n p)) refs.now n }
{
    let read = create_shared::mesh_lists_fit(
        n,
        p,
        h.len(),
        pos.len(),
        normals.len(),
        face_normals.len(),
        refs.len(),
    );
    let lists = read
        & questions::has_length(smoothness, entries, 1)
        & questions::has_length(t, n, 4);
    let scratch = scratch_fits(n, p, fixed, flat, smooth, desired, at, link);
    let checked = questions::check_mesh(h, n, p, lists & scratch);
    questions::check_refs(checked, refs, n)
}

// Making from sharp edges, for lists of any length and content. `pos` and `normals` have three numbers for each point,
// `face_normals` and `refs` three for each triangle; `entries` and `smoothness` are the halfedges and the smoothness of
// the sharp entries. With `old` the tangents t hold the old ones. Of the scratch lists `at` has a place for each point, each
// other one for each halfedge. The answer counts the circular tangents on an edge without direction.
// The lists are parameters of their own and no struct, as the C interface has them: counts, lists read, lists written, scratch.
// `entries::create_entries` is the same call of a list of structs. The rule for the sharp entries: a core over two flat lists, which
// is this, and one thin entry point that reads a lent slice of structs.
#[tactic(auto, unfolding(mesh::specs::Mesh::as_halfedges))]
pub fn create_tangents(
    n: usize,
    p: usize,
    h: &[i32],
    pos: &[f64],
    normals: &[f64],
    face_normals: &[f64],
    refs: &[i32],
    entries: &[usize],
    smoothness: &[f64],
    old: bool,
    t: &mut [f64],
    fixed: &mut [u8],
    flat: &mut [u8],
    smooth: &mut [f64],
    desired: &mut [f64],
    at: &mut [usize],
    link: &mut [usize],
) -> Result<usize, Refusal>
    ensures answer { result ≡ create_answer (as_halfedges h.now) pos.now normals.now face_normals.now refs.now entries.now smoothness.now t.old fixed.old flat.old smooth.old desired.old at.old link.old old n p }
    ensures tangents { t.new ≡ tangents_after (checked_of result) (as_halfedges h.now) pos.now normals.now face_normals.now refs.now (entries_of entries.now smoothness.now) t.old old n p }
    ensures fixed { fixed.new ≡ when_accepted (checked_of result) (replicate n 0) fixed.old }
    ensures flat { flat.new ≡ when_accepted (checked_of result) (replicate n 0) flat.old }
    ensures smooth { smooth.new ≡ when_accepted (checked_of result) (replicate n zero) smooth.old }
    ensures desired { desired.new ≡ when_accepted (checked_of result) (replicate n zero) desired.old }
    ensures at { at.new ≡ when_accepted (checked_of result) (replicate p 0) at.old }
    ensures link { link.new ≡ when_accepted (checked_of result) (replicate n 0) link.old }
    ensures bound { directionless_of result ≤ 2 * n }
    ensures values { Values (check_lists (as_halfedges h.now) pos.now normals.now face_normals.now refs.now entries.now smoothness.now t.old fixed.old flat.old smooth.old desired.old at.old link.old n p) (create_directionless (as_halfedges h.now) pos.now refs.now (entries_of entries.now smoothness.now) t.old old n p) result }
{
    let mesh_lists = check_mesh_lists(
        n,
        p,
        h,
        pos,
        normals,
        face_normals,
        refs,
        entries.len(),
        smoothness.len(),
        t.len(),
        fixed.len(),
        flat.len(),
        smooth.len(),
        desired.len(),
        at.len(),
        link.len(),
    );
    let checked = questions::check_entries(mesh_lists, entries, smoothness, n);
    // The rule for a public call: the check's answer is opened by `let .. else`.
    let Ok(()) = checked else {
        return questions::refused(checked);
    };
    sharp::entry_smoothness(entries, smoothness, smooth);
    let mesh = MeshLists {
        n: n,
        p: p,
        h: h,
        refs: refs,
        pos: pos,
        normals: normals,
        face_normals: face_normals,
    };
    let directionless = whole::make_tangents(mesh, old, t, fixed, flat, smooth, desired, at, link);
    Ok(directionless)
}

// Law: the call carries the rows of the halfedges unread (`RowsUnread`, crates/mesh/specs/Rows.antt). What it leaves in its scratch
// lists is told by its answer.
#[tactic(auto, using(mesh::proofs::Rows::rows_unread))]
pub fn rows_unread()
    ensures questions { (P N A : List Float) (R : List ℤ) (I : List ℕ) (Q T : List Float) (X F : List ℕ) (M D : List Float) (W L : List ℕ) (n p : ℕ) → RowsUnread (λ H. check_lists H P N A R I Q T X F M D W L n p) }
    ensures answer { (P N A : List Float) (R : List ℤ) (I : List ℕ) (Q T : List Float) (X F : List ℕ) (M D : List Float) (W L : List ℕ) (old : Bool) (n p : ℕ) → RowsUnread (λ H. create_answer H P N A R I Q T X F M D W L old n p) }
    ensures tangents { (checked : Checked) (P N A : List Float) (R : List ℤ) (E : List Smoothness) (T : List Float) (old : Bool) (n p : ℕ) → RowsUnread (λ H. tangents_after checked H P N A R E T old n p) }
{}
