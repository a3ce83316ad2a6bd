// Spreading: `distribute_tangents` of src/smoothing_tangents.rs as a public call, with its two counts. The float steps are in `steps`,
// the walks in `walks`, the loop over the starts in `inner`. specs/Spread defines it over any float steps, and specs/Spread/Order.antt
// states that it does not depend on the order of its starts.
#![tactic(auto)]

pub mod inner;
pub mod preview;
mod steps;
mod walks;

ghost use Rattle.std.specs.Prelude.{◌≡◌, ℕ, List, Float};
ghost use Rattle.mesh.specs.Mesh.{as_halfedges};
ghost use Rattle.mesh.specs.Rows.{RowsUnread};
ghost use Rattle.distribute.specs.Steps.FloatSteps.{float_steps};
ghost use Rattle.distribute.specs.Distribute.{looked_of, turned_of, check_with, check_lists, spread_tangents, distribute_tangents, tangents_after, scratch_after, AnyOrder, Values};
ghost use Rattle.distribute.specs.Claims.{GuardsNeverFire, AnglesInLists, OwnStartsNamed};

use inner::SpreadLists;
use questions::Refusal;
pub use walks::Counts;

// How many steps were looked at; 0 where the call is refused. Here and below there is one function for each value of an
// answer.
pub fn looked_of(spreading: Result<Counts, Refusal>) -> usize
    ensures { result ≡ looked_of spreading }
{
    spreading.map_or(0, |counts| counts.looked)
}

// How many tangents were turned; 0 where the call is refused.
pub fn turned_of(spreading: Result<Counts, Refusal>) -> usize
    ensures { result ≡ turned_of spreading }
{
    spreading.map_or(0, |counts| counts.turned)
}

// The questions 1 to 7 and 11 of spreading and of its preview; `others` says whether question 2 passes the lists that only the one of
// them is lent. No struct of the lists: what its invariant would say is what is asked.
#[tactic(auto, unfolding(mesh::specs::Mesh::as_halfedges))]
fn check_with(
    n: usize,
    p: usize,
    h: &[i32],
    pos: &[f64],
    normals: &[f64],
    fixed: &[u8],
    t: &[f64],
    others: bool,
) -> Result<(), Refusal>
    ensures { result ≡ check_with (as_halfedges h.now) pos.now normals.now fixed.now t.now others n p }
{
    let points = questions::points_fit(n, p, h.len(), pos.len(), normals.len());
    let lists = points
        & questions::has_length(fixed.len(), n, 1)
        & questions::has_length(t.len(), n, 4);
    let checked = questions::check_mesh(h, n, p, lists & others);
    questions::check_flags(checked, fixed, n)
}

// Spreading, for lists of any length and content. `pos` and `normals` have three numbers for each point, `fixed` a flag
// for each halfedge, and the scratch lists `current` and `desired` (the Rust's `current_angle` and `desired_angle`) a
// place for each halfedge.
// The signature stays flat, as the C interface lends: counts, lists read, lists written, scratch.
#[tactic(auto, using(crate::proofs::Accepted::lists_of, crate::proofs::Values::values_of), unfolding(crate::specs::Distribute::check_lists))]
pub fn distribute_tangents(
    n: usize,
    p: usize,
    h: &[i32],
    pos: &[f64],
    normals: &[f64],
    fixed: &[u8],
    t: &mut [f64],
    current: &mut [f64],
    desired: &mut [f64],
) -> Result<Counts, Refusal>
    ensures answer { result ≡ distribute_tangents (as_halfedges h.now) pos.now normals.now fixed.now t.old current.old desired.old n p }
    ensures tangents { t.new ≡ tangents_after (as_halfedges h.now) pos.now normals.now fixed.now t.old current.old desired.old n p }
    ensures current { current.new ≡ scratch_after (check_lists (as_halfedges h.now) pos.now normals.now fixed.now t.old current.old desired.old n p) current.old n }
    ensures desired { desired.new ≡ scratch_after (check_lists (as_halfedges h.now) pos.now normals.now fixed.now t.old current.old desired.old n p) desired.old n }
    ensures order { AnyOrder (as_halfedges h.now) pos.now normals.now fixed.now t.old current.old desired.old n p t.new result }
    ensures guards { GuardsNeverFire (as_halfedges h.now) pos.now normals.now fixed.now t.old current.old desired.old n p }
    ensures angles { AnglesInLists (as_halfedges h.now) pos.now normals.now fixed.now t.old current.old desired.old n p }
    ensures values { Values (check_lists (as_halfedges h.now) pos.now normals.now fixed.now t.old current.old desired.old n p) (float_steps (as_halfedges h.now) pos.now normals.now fixed.now n) (spread_tangents (as_halfedges h.now) pos.now normals.now fixed.now t.old n) result }
{
    let scratch = questions::has_length(current.len(), n, 1)
        & questions::has_length(desired.len(), n, 1);
    let checked = check_with(n, p, h, pos, normals, fixed, t, scratch);
    let Ok(()) = checked else {
        return questions::refused(checked);
    };
    let lists = SpreadLists {
        n,
        p,
        h,
        pos,
        normals,
        fixed,
    };
    let counts = inner::spread_tangents(&lists, t, current, desired);
    Ok(counts)
}

// Law: the fixed halfedges in ascending order, from which this call and the preview spread, are a list of starts of which their clauses
// `order` speak (specs/Claims.antt, `OwnStartsNamed`).
pub fn own_starts_hold()
    ensures { OwnStartsNamed }
{}

// Law: the call carries the rows of the halfedges unread (`RowsUnread`, crates/mesh/specs/Rows.antt).
#[tactic(auto, using(mesh::proofs::Rows::rows_unread))]
pub fn rows_unread()
    ensures questions { (P N : List Float) (X : List ℕ) (T C D : List Float) (n p : ℕ) → RowsUnread (λ H. check_lists H P N X T C D n p) }
    ensures answer { (P N : List Float) (X : List ℕ) (T C D : List Float) (n p : ℕ) → RowsUnread (λ H. distribute_tangents H P N X T C D n p) }
    ensures tangents { (P N : List Float) (X : List ℕ) (T C D : List Float) (n p : ℕ) → RowsUnread (λ H. tangents_after H P N X T C D n p) }
{}
