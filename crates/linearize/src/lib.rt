// `linearize_flat_tangents` of src/smoothing_tangents.rs as a public call, for lists of any length and content: a tangent of weight 0 is
// made straight, edge by edge. The work on lists that are known to be right is in `inner`.
#![tactic(auto)]

pub mod inner;

ghost use Rattle.std.specs.Prelude.{◌≡◌, ℕ, List, Float, length};
ghost use Rattle.mesh.specs.Mesh.{as_halfedges};
ghost use Rattle.mesh.specs.Rows.{RowsUnread};
ghost use Rattle.questions.specs.Check.{Values};
ghost use Rattle.linearize.specs.Linearize.{lengths_fit, linearize_answer, tangents_after, TangentsKept};

use questions::Refusal;

#[tactic(auto, unfolding(mesh::specs::Mesh::as_halfedges))]
fn lengths_fit(n: usize, p: usize, h: &[i32], pos: &[f64], t: &[f64]) -> bool
    ensures { result ≡ lengths_fit (as_halfedges h.now) pos.now t.now n p }
{
    questions::mesh_fits(n, p, h.len(), pos.len()) & questions::has_length(t.len(), n, 4)
}

// The call, for lists of any length and content.
// The signature stays flat, as the C interface lends: counts, lists read, lists written, scratch.
#[tactic(auto, using(questions::proofs::Accepted::accepted, crate::proofs::Laws::tangents_kept))]
pub fn linearize_flat_tangents(
    n: usize,
    p: usize,
    h: &[i32],
    pos: &[f64],
    t: &mut [f64],
) -> Result<(), Refusal>
    ensures answer { result ≡ linearize_answer (as_halfedges h.now) pos.now t.old n p }
    ensures tangents { t.new ≡ tangents_after (as_halfedges h.now) pos.now t.old n p }
    ensures values { Values (linearize_answer (as_halfedges h.now) pos.now t.old n p) result }
    ensures kept { TangentsKept t.old t.new }
{
    let checked = questions::check_mesh(h, n, p, lengths_fit(n, p, h, pos, t));
    let Ok(()) = checked else {
        return checked;
    };
    inner::linearize_all(n, p, h, pos, t);
    checked
}

// Law: the call carries the rows of the halfedges unread (`RowsUnread`, crates/mesh/specs/Rows.antt).
#[tactic(auto, using(mesh::proofs::Rows::rows_unread))]
pub fn rows_unread()
    ensures answer { (P T : List Float) (n p : ℕ) → RowsUnread (λ H. linearize_answer H P T n p) }
    ensures tangents { (P T : List Float) (n p : ℕ) → RowsUnread (λ H. tangents_after H P T n p) }
{}
