// The preview of spreading as a public call: what `distribute_tangents` of src/smoothing_tangents.rs would look at and turn. The tangents
// are only read.

ghost use Rattle.std.specs.Prelude.{◌≡◌, ℕ, List, Float, ◌*◌, length};
ghost use Rattle.mesh.specs.Mesh.{as_halfedges};
ghost use Rattle.mesh.specs.Rows.{RowsUnread};
ghost use Rattle.distribute.specs.Spread.Spread.{pass};
ghost use Rattle.distribute.specs.Steps.FloatSteps.{float_steps};
ghost use Rattle.distribute.specs.Distribute.{spread_tangents, Values};
ghost use Rattle.distribute.specs.Preview.Walks.{steps_at, Shows};
ghost use Rattle.distribute.specs.Preview.Preview.{check_lists, preview_tangents, bytes_after, AsSpreading, AnyOrder, LengthsAlone};

mod walks;

use crate::walks::{Counts, SpreadLists};
use questions::Refusal;

// The loop over the halfedges of an accepted mesh, after zeros in all bytes. The bytes are written, and so their length is a clause: of
// a struct that lends them each clause would say `lists.new.bytes.now` for `bytes.new`.
#[tactic(auto, using(crate::proofs::PreviewLaws::Pass::shown_begin))]
fn preview_all(lists: &SpreadLists, t: &[f64], bytes: &mut [u8]) -> Counts
    requires { (length t.now ≡ lists.now.n * 4) × (length bytes.old ≡ lists.now.n) }
    ensures { (P N : List Float) → Shows (steps_at lists.now P N) (pass (steps_at lists.now P N) t.now) bytes.new result }
{
    bytes.fill(0);
    let mut counts = Counts {
        looked: 0,
        turned: 0,
    };
    for start in 0..lists.n {
        counts = walks::preview_at(lists, t, bytes, start, counts);
    }
    counts
}

// The preview, for lists of any length and content. `pos` and `normals` have three numbers for each point, `fixed` a flag
// for each halfedge, and `bytes` a byte: 1 if the halfedge's tangent would be written, else 0.
// The signature stays flat, as the C interface lends: counts, lists read, lists written, scratch.
#[tactic(auto, using(crate::proofs::Accepted::preview_lists_of, crate::proofs::Values::values_of), unfolding(crate::specs::Preview::Preview::check_lists))]
pub fn preview_tangents(
    n: usize,
    p: usize,
    h: &[i32],
    pos: &[f64],
    normals: &[f64],
    fixed: &[u8],
    t: &[f64],
    bytes: &mut [u8],
) -> Result<Counts, Refusal>
    ensures answer { result ≡ preview_tangents (as_halfedges h.now) pos.now normals.now fixed.now t.now bytes.old n p }
    ensures bytes { bytes.new ≡ bytes_after (as_halfedges h.now) pos.now normals.now fixed.now t.now bytes.old n p }
    ensures spreading { AsSpreading (as_halfedges h.now) pos.now normals.now fixed.now t.now bytes.old n p result }
    ensures lengths_alone { LengthsAlone (as_halfedges h.now) pos.now normals.now fixed.now t.now bytes.old n p bytes.new result }
    ensures order { AnyOrder (as_halfedges h.now) pos.now normals.now fixed.now t.now bytes.old n p bytes.new result }
    ensures values { Values (check_lists (as_halfedges h.now) pos.now normals.now fixed.now t.now bytes.old n p) (float_steps (as_halfedges h.now) pos.now normals.now fixed.now n) (spread_tangents (as_halfedges h.now) pos.now normals.now fixed.now t.now n) result }
{
    let room = questions::has_length(bytes.len(), n, 1);
    let checked = crate::check_with(n, p, h, pos, normals, fixed, t, room);
    let Ok(()) = checked else {
        return questions::refused(checked);
    };
    let lists = SpreadLists {
        n,
        p,
        h,
        pos,
        normals,
        fixed,
    };
    let counts = preview_all(&lists, t, bytes);
    Ok(counts)
}

// Law: the call carries the rows of the halfedges unread (`RowsUnread`, crates/mesh/specs/Rows.antt).
#[tactic(auto, using(mesh::proofs::Rows::rows_unread))]
pub fn rows_unread()
    ensures answer { (P N : List Float) (X : List ℕ) (T : List Float) (Y : List ℕ) (n p : ℕ) → RowsUnread (λ H. preview_tangents H P N X T Y n p) }
    ensures bytes { (P N : List Float) (X : List ℕ) (T : List Float) (Y : List ℕ) (n p : ℕ) → RowsUnread (λ H. bytes_after H P N X T Y n p) }
{}
