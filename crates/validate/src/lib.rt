// `valid_tangents` of src/smoothing_tangents.rs (the mark check): do the marks of paired halfedges agree, and
// has no marked halfedge a marked neighbour?
#![tactic(auto)]

ghost use Rattle.std.specs.Prelude.{◌≡◌, ℕ, List, Float, true, ◌+◌, ◌*◌, ◌<◌};
ghost use Rattle.mesh.specs.Mesh.{halfedge_stride, as_halfedges};
ghost use Rattle.mesh.specs.Rows.{RowsUnread};
ghost use Rattle.questions.specs.Check.{check_mesh};
ghost use Rattle.common.specs.Fold.{fold_to};
ghost use Rattle.mesh.specs.Sound.{Sound};
ghost use Rattle.validate.specs.Validate.{valid_so_far, valid_tangents, lengths_fit, valid_answer, value_of, Values};
ghost use Rattle.validate.specs.Marks.{mark_valid, triangle_valid};

mod mark_lists;

use mark_lists::MarkLists;
use questions::Refusal;

// The value of an answer: 1 for yes, 0 for no, and 0 where it is refused.
pub fn value_of(validity: Result<bool, Refusal>) -> usize
    ensures { result ≡ value_of validity }
{
    validity.map_or(0, usize::from)
}

// Does the marked halfedge e pass? Neither of its neighbours is marked, and its pair is. This function and the next one ask for
// their own place (`e < n`): the place differs from call to call, so no struct of the lists can hold it.
#[tactic(auto, using(mesh::proofs::Inside::inside))]
fn mark_valid(lists: &MarkLists, e: usize, next: bool, prev: bool) -> bool
    requires { e < lists.now.n }
    ensures { result ≡ mark_valid (as_halfedges lists.now.h.now) lists.now.t.now e next prev }
{
    if next {
        return false;
    }
    if prev {
        return false;
    }
    let pair = mesh::paired_halfedge(lists.h, e);
    smoothing::is_marked_inside_quad(lists.t, pair)
}

// Does the triangle of e, e + 1 and e + 2 pass? One that is not marked needs no look at its pair: were the pair marked, it
// would fail in its own turn.
#[tactic(auto, unfolding(crate::specs::Marks::triangle_valid))]
fn triangle_valid(lists: &MarkLists, e: usize) -> bool
    requires { e + 2 < lists.now.n }
    ensures { result ≡ triangle_valid (as_halfedges lists.now.h.now) lists.now.t.now e }
{
    let first = smoothing::is_marked_inside_quad(lists.t, e);
    let second = smoothing::is_marked_inside_quad(lists.t, e + 1);
    let third = smoothing::is_marked_inside_quad(lists.t, e + 2);
    if first {
        return mark_valid(lists, e, second, third);
    }
    if second {
        return mark_valid(lists, e + 1, third, first);
    }
    if third {
        return mark_valid(lists, e + 2, first, second);
    }
    true
}

// Does every triangle pass?
fn all_valid(lists: &MarkLists) -> bool
    ensures { result ≡ fold_to (valid_so_far (as_halfedges lists.now.h.now) lists.now.t.now) true lists.now.n }
{
    (0..lists.n / 3).all(|t| triangle_valid(lists, t * 3))
}

// The marks of an accepted mesh. Tangents of another length answer yes.
#[tactic(auto, unfolding(crate::specs::Validate::valid_tangents))]
fn marks_valid(n: usize, p: usize, h: &[i32], t: &[f64]) -> bool
    requires { Sound (as_halfedges h.now) n p × ((as_halfedges h.now).numbers ≡ n * halfedge_stride) }
    ensures { result ≡ valid_tangents (as_halfedges h.now) t.now n }
{
    if !questions::has_length(t.len(), n, 4) {
        return true;
    }
    all_valid(&MarkLists { n, p, h, t })
}

#[tactic(auto, unfolding(mesh::specs::Mesh::as_halfedges))]
fn lengths_fit(n: usize, p: usize, h: &[i32], pos: &[f64]) -> bool
    ensures { result ≡ lengths_fit (as_halfedges h.now) pos.now n p }
{
    questions::mesh_fits(n, p, h.len(), pos.len())
}

// The public call, for lists of any length and content. Of the positions only the length is asked about.
// The signature stays flat, as the C interface lends: counts, then the lists that are read.
#[tactic(auto, using(questions::proofs::Accepted::accepted))]
pub fn valid_tangents(
    n: usize,
    p: usize,
    h: &[i32],
    pos: &[f64],
    t: &[f64],
) -> Result<bool, Refusal>
    ensures answer { result ≡ valid_answer (as_halfedges h.now) pos.now t.now n p }
    ensures values { Values (check_mesh (as_halfedges h.now) n p (lengths_fit (as_halfedges h.now) pos.now n p)) (valid_tangents (as_halfedges h.now) t.now n) result }
{
    let checked = questions::check_mesh(h, n, p, lengths_fit(n, p, h, pos));
    // The check's answer is opened by `let .. else`.
    let Ok(()) = checked else {
        return questions::refused(checked);
    };
    Ok(marks_valid(n, p, h, t))
}

// Law: the call carries the rows of the halfedges unread (`RowsUnread`, crates/mesh/specs/Rows.antt).
#[tactic(auto, using(mesh::proofs::Rows::rows_unread))]
pub fn rows_unread()
    ensures { (P T : List Float) (n p : ℕ) → RowsUnread (λ H. valid_answer H P T n p) }
{}
