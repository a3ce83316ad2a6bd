// The crease listings: `sharpen_edges` of src/smoothing_tangents.rs over lent lists, and the clean one (docs/changes/06-clean-listing.md).
// `edge` has the rule for one edge; what lists an edge stands apart from it.
// Each function asks for its own place (`e < n`, room for two entries more): the place differs from call to call, so no struct of
// the lists can hold it. The two lists that are written stay parameters, with the number of their entries: the C interface lends
// them flat, and of a struct that lends them a clause would say `lists.new.entries.now` for `entries.new`.
#![tactic(auto)]

ghost use Rattle.std.specs.Prelude.{◌≡◌, ℕ, List, Float, ◌+◌, ◌≤◌, ◌<◌, length, cond};
ghost use Rattle.common.specs.Count.{count_below};
ghost use Rattle.mesh.specs.Mesh.{as_halfedges};
ghost use Rattle.mesh.specs.Rows.{RowsUnread};
ghost use Rattle.sharpen.specs.declared.edge.Rule.{Rule};
ghost use Rattle.sharpen.specs.declared.edge.Rule.TheVariants.{Ported, Clean};
ghost use Rattle.sharpen.specs.Crease.{NanLimit};
ghost use Rattle.sharpen.specs.Entries.{entries_in, push_edge, list_edge, list_edges};
ghost use Rattle.sharpen.specs.Turn.{listed_by, EdgeFits};
ghost use Rattle.sharpen.specs.Sharpen.{entries_of, tally_of, lengths_fit, sharpen_edges, entries_after};
ghost use Rattle.sharpen.specs.Edges.{EntriesFiltered, Outcome};

mod crease_lists;
mod edge;

use crease_lists::CreaseLists;
use edge::{Rule, edge_kind, is_crease, min_radians};
use questions::Refusal;

// How many entries the lists have, and the crease tally: how many edges the clean listing names.
#[derive(Clone, Copy)]
pub struct Listed {
    pub entries: usize,
    pub tally: usize,
}

// How many entries the lists have; 0 where the call is refused. Here and below there is one function for each value of an
// answer.
pub fn entries_of(listing: Result<Listed, Refusal>) -> usize
    ensures { result ≡ entries_of listing }
{
    listing.map_or(0, |listed| listed.entries)
}

// The tally; 0 where the call is refused.
pub fn tally_of(listing: Result<Listed, Refusal>) -> usize
    ensures { result ≡ tally_of listing }
{
    listing.map_or(0, |listed| listed.tally)
}

// Entries for halfedge e and its pair at the next two places; the number of entries then.
#[tactic(auto, unfolding(crate::specs::Entries::push_edge, crate::specs::Entries::push_entry))]
fn push_edge(
    lists: &CreaseLists<'_>,
    e: usize,
    count: usize,
    entries: &mut [usize],
    smoothness: &mut [f64],
) -> usize
    requires { (e < lists.now.n) × (count + 2 ≤ length entries.old) × (count + 2 ≤ length smoothness.old) }
    ensures { entries_in entries.new smoothness.new result ≡ push_edge (as_halfedges lists.now.h.now) lists.now.smooth (entries_in entries.old smoothness.old count) e }
{
    let pair = mesh::paired_halfedge(lists.h, e);
    entries[count] = e;
    smoothness[count] = lists.smooth;
    entries[count + 1] = pair;
    smoothness[count + 1] = lists.smooth;
    count + 2
}

// One turn of the loop: halfedge e, after what was listed before it.
#[tactic(auto, unfolding(crate::specs::Entries::list_edge))]
fn list_edge(
    lists: &CreaseLists<'_>,
    e: usize,
    listed: Listed,
    entries: &mut [usize],
    smoothness: &mut [f64],
) -> Listed
    requires fits { EdgeFits lists.now e listed.entries entries.old smoothness.old }
    requires below { listed.tally < lists.now.n }
    ensures entries { entries_in entries.new smoothness.new result.entries ≡ list_edge (as_halfedges lists.now.h.now) (listed_by lists.now.rule lists.now) lists.now.smooth (entries_in entries.old smoothness.old listed.entries) e }
    ensures tally { result.tally ≡ listed.tally + cond (listed_by Clean lists.now e) 1 0 }
{
    let kind = edge_kind(lists, e);
    if !is_crease(lists.rule, kind) {
        return listed;
    }
    let tally = listed.tally + usize::from(is_crease(Rule::Clean, kind));
    let count = push_edge(lists, e, listed.entries, entries, smoothness);
    Listed {
        entries: count,
        tally,
    }
}

// The loop over the halfedges; what it lists.
#[tactic(auto, using(common::proofs::Fold::fold_none, common::proofs::Fold::fold_turn, common::proofs::Count::count_start, common::proofs::Sums::sum_turn), unfolding(common::specs::Count::count_below))]
fn list_edges(lists: &CreaseLists<'_>, entries: &mut [usize], smoothness: &mut [f64]) -> Listed
    requires { (length entries.old ≡ lists.now.n) × (length smoothness.old ≡ lists.now.n) }
    ensures entries { entries_in entries.new smoothness.new result.entries ≡ list_edges (as_halfedges lists.now.h.now) (listed_by lists.now.rule lists.now) lists.now.smooth (entries_in entries.old smoothness.old 0) lists.now.n }
    ensures tally { result.tally ≡ count_below (listed_by Clean lists.now) lists.now.n }
{
    let mut listed = Listed {
        entries: 0,
        tally: 0,
    };
    for e in 0..lists.n {
        listed = list_edge(lists, e, listed, entries, smoothness);
    }
    listed
}

// Question 2 of the lists that the call is lent.
#[tactic(auto, unfolding(mesh::specs::Mesh::as_halfedges))]
fn lengths_fit(
    n: usize,
    h: &[i32],
    face_normals: &[f64],
    entries: &[usize],
    smoothness: &[f64],
) -> bool
    ensures { result ≡ lengths_fit (as_halfedges h.now) face_normals.now entries.now smoothness.now n }
{
    questions::has_length(h.len(), n, mesh::HALFEDGE_STRIDE)
        & questions::has_length(face_normals.len(), n / 3, 3)
        & (questions::has_length(entries.len(), n, 1)
            & questions::has_length(smoothness.len(), n, 1))
}

// The listing by a rule: what both calls do.
#[tactic(auto, using(crate::proofs::Room::lists_checked, crate::proofs::Outcome::outcome_refused))]
fn sharpen_by(
    rule: Rule,
    n: usize,
    p: usize,
    h: &[i32],
    face_normals: &[f64],
    angle: f64,
    smooth: f64,
    entries: &mut [usize],
    smoothness: &mut [f64],
) -> Result<Listed, Refusal>
    ensures outcome { Outcome rule (as_halfedges h.now) face_normals.now angle smooth entries.old smoothness.old n p entries.new smoothness.new result }
{
    let checked = questions::check_mesh(
        h,
        n,
        p,
        lengths_fit(n, h, face_normals, entries, smoothness),
    );
    // The check's answer is opened by `let .. else`.
    let Ok(()) = checked else {
        return questions::refused(checked);
    };
    let limit = min_radians(angle);
    let lists = CreaseLists {
        n,
        p,
        h,
        face_normals,
        limit,
        smooth,
        rule,
    };
    Ok(list_edges(&lists, entries, smoothness))
}

// The edges at which the two triangles' normals make an angle above `angle` (the Rust's `min_sharp_angle`, in degrees):
// each with its forward halfedge first, both with the smoothness `smooth` (the Rust's `min_smoothness`, copied
// unchecked). `face_normals` has three numbers for each triangle; `entries` and `smoothness` take the entries, and have a
// place for each halfedge.
// The signature stays flat, as the C interface lends: counts, lists read, lists written, scratch.
pub fn sharpen_edges(
    n: usize,
    p: usize,
    h: &[i32],
    face_normals: &[f64],
    angle: f64,
    smooth: f64,
    entries: &mut [usize],
    smoothness: &mut [f64],
) -> Result<Listed, Refusal>
    ensures outcome { Outcome Ported (as_halfedges h.now) face_normals.now angle smooth entries.old smoothness.old n p entries.new smoothness.new result }
{
    sharpen_by(
        Rule::Ported,
        n,
        p,
        h,
        face_normals,
        angle,
        smooth,
        entries,
        smoothness,
    )
}

// The clean listing: the same but for the edges that touch a face normal whose three numbers are all zero, which it omits.
pub fn sharpen_edges_clean(
    n: usize,
    p: usize,
    h: &[i32],
    face_normals: &[f64],
    angle: f64,
    smooth: f64,
    entries: &mut [usize],
    smoothness: &mut [f64],
) -> Result<Listed, Refusal>
    ensures outcome { Outcome Clean (as_halfedges h.now) face_normals.now angle smooth entries.old smoothness.old n p entries.new smoothness.new result }
    ensures filtered { EntriesFiltered (as_halfedges h.now) face_normals.now angle smooth entries.old smoothness.old n p (entries_in entries.new smoothness.new (entries_of result)) }
{
    sharpen_by(
        Rule::Clean,
        n,
        p,
        h,
        face_normals,
        angle,
        smooth,
        entries,
        smoothness,
    )
}

// Law: both listings carry the rows of the halfedges unread (`RowsUnread`, crates/mesh/specs/Rows.antt).
#[tactic(auto, using(mesh::proofs::Rows::rows_unread))]
pub fn rows_unread()
    ensures answer { (rule : Rule) (A : List Float) (angle smooth : Float) (I : List ℕ) (Q : List Float) (n p : ℕ) → RowsUnread (λ H. sharpen_edges rule H A angle smooth I Q n p) }
    ensures entries { (rule : Rule) (A : List Float) (angle smooth : Float) (I : List ℕ) (Q : List Float) (n p : ℕ) → RowsUnread (λ H. entries_after rule H A angle smooth I Q n p) }
{}

// Law: a limit that is not a number acts as 1e-4 degrees (specs/Crease.antt, `NanLimit`).
#[tactic(auto, using(crate::proofs::Limit::nan_limit, crate::proofs::Limit::least_limit))]
pub fn nan_limit_holds()
    ensures { NanLimit }
{}
