// The questions that the unit's calls ask: a catalogue of them, each with its number, the refusal that names one, and those about
// the mesh and the lists that several calls share, 1 to 12.
// The questions read lists of any length and content, and past the end a default. Each read asks for its own place (`e + 1 < 2 ^ 64`): it
// differs from call to call, so no struct of the lists can hold it.
#![tactic(auto)]

mod places;
mod triangles;

ghost use Rattle.std.specs.Prelude.{◌≡◌, ◌↔◌, ℕ, Bool, true, IsErr, IfErr, Err, ◌&&◌, ◌*◌, ◌/◌, ◌%◌, ◌<◌, ◌≤◌, pos, get_or, length};
ghost use Rattle.std.specs.Int.Signed.{le_z};
ghost use Rattle.std.specs.Float.{nan};
ghost use Rattle.mesh.specs.Mesh.{max_halfedges, max_points, halfedge_stride, prop_vert, ref_at, as_halfedges, no_index};
ghost use Rattle.mesh.specs.Rows.{RowsUnread};
ghost use Rattle.mesh.specs.Sound.{Sound};
ghost use Rattle.questions.specs.Questions.{number, has_length, mesh_fits, points_fit, sign_clear};
ghost use Rattle.questions.specs.All.{triangles_hold, ask_each};
ghost use Rattle.questions.specs.Check.{number_of, place_of, answer_of, asked, each, check_mesh, check_refs, check_entries, check_flags, check_rows};

use mesh::HALFEDGE_STRIDE;
use places::{
    counts_fit, has_clear_sign, has_mesh, has_pair, has_points, has_row, is_flag, is_joined,
    is_mutual, is_opposite, names_halfedge,
};
use triangles::triangle_holds;
// The questions, each with its number: of a mesh and the lists that are lent with it, 1 to 12, and of a point to move, 13; of records that
// are read or written, 20 to 26; of an STL file, 30 to 32; of the points along a curve, 40 to 42; of byte planes, 50; of a profile, 60; of
// the figures of several jobs, 80 to 82. No call asks 13, 25, 26 or 50 to 82 yet. `Own` is a question of a caller's own, by its number:
// no call asks one, and those that are handed an earlier answer hand its refusal on.
#[derive(Clone, Copy, PartialEq, Eq)]
pub enum Question {
    Counts,
    Lengths,
    Points,
    Pair,
    Mutual,
    Opposite,
    Joined,
    Mesh,
    Entry,
    Sign,
    Flag,
    Row,
    MovedPoint,
    Fits,
    Kind,
    Body,
    Operation,
    End,
    WideCounts,
    OutputRoom,
    Size,
    Corners,
    Pairing,
    Parameter,
    CurveCount,
    CurveRoom,
    Planes,
    Profile,
    Jobs,
    JobLimit,
    JobTurned,
    Own(usize),
}

impl Question {
    // The number of a question, as refusals are told by it.
    pub fn number(self) -> usize
        ensures { result ≡ number self }
    {
        match self {
            Question::Counts => 1,
            Question::Lengths => 2,
            Question::Points => 3,
            Question::Pair => 4,
            Question::Mutual => 5,
            Question::Opposite => 6,
            Question::Joined => 7,
            Question::Mesh => 8,
            Question::Entry => 9,
            Question::Sign => 10,
            Question::Flag => 11,
            Question::Row => 12,
            Question::MovedPoint => 13,
            Question::Fits => 20,
            Question::Kind => 21,
            Question::Body => 22,
            Question::Operation => 23,
            Question::End => 24,
            Question::WideCounts => 25,
            Question::OutputRoom => 26,
            Question::Size => 30,
            Question::Corners => 31,
            Question::Pairing => 32,
            Question::Parameter => 40,
            Question::CurveCount => 41,
            Question::CurveRoom => 42,
            Question::Planes => 50,
            Question::Profile => 60,
            Question::Jobs => 80,
            Question::JobLimit => 81,
            Question::JobTurned => 82,
            Question::Own(number) => number,
        }
    }
}

// The first question that is answered no, and the lowest place that breaks it.
#[derive(Clone, Copy, PartialEq, Eq)]
pub struct Refusal {
    pub question: Question,
    pub place: usize,
}

// Question 10 of one smoothness: a number with a clear sign bit.
#[tactic(auto, using(crate::proofs::Sign::number_sign, crate::proofs::Sign::nan_sign))]
pub fn sign_clear(x: f64) -> bool
    ensures { result ≡ sign_clear x }
{
    if x.is_nan() {
        return false;
    }
    x.is_sign_positive()
}

// Has a list of `len` numbers `per` for each of `count`? Nothing here can wrap.
pub fn has_length(len: usize, count: usize, per: usize) -> bool
    ensures { result ≡ has_length len count per }
{
    count.checked_mul(per) == Some(len)
}

// Question 2 of the halfedges and the positions, from the length of each.
pub fn mesh_fits(n: usize, p: usize, halfedges: usize, positions: usize) -> bool
    ensures { result ≡ mesh_fits halfedges positions n p }
{
    has_length(halfedges, n, HALFEDGE_STRIDE) & has_length(positions, p, 3)
}

// Question 2 of these and the point normals.
pub fn points_fit(n: usize, p: usize, halfedges: usize, positions: usize, normals: usize) -> bool
    ensures { result ≡ points_fit halfedges positions normals n p }
{
    mesh_fits(n, p, halfedges, positions) & has_length(normals, p, 3)
}

// The number of an answer: that of the question that refuses, and 0 where none does. Number and place have a function each, as each
// is a value of its own.
pub fn number_of<T: Copy>(answer: Result<T, Refusal>) -> usize
    ensures { result ≡ number_of answer }
{
    answer.err().map_or(0, |refusal| refusal.question.number())
}

// The place of an answer, 0 where none refuses.
pub fn place_of<T: Copy>(answer: Result<T, Refusal>) -> usize
    ensures { result ≡ place_of answer }
{
    answer.err().map_or(0, |refusal| refusal.place)
}

// The refusal that the questions were answered with, as the answer of a call.
pub fn refused<T>(checked: Result<(), Refusal>) -> Result<T, Refusal>
    requires { IsErr checked }
    ensures same { IfErr checked (λ refusal. result ≡ Err refusal) }
    ensures answer { (value : T) → result ≡ answer_of checked value }
{
    Err(checked.unwrap_err())
}

// The answer of a question whose test is put to each of so many places: the one search of all questions.
pub fn ask<F: Fn(usize) -> bool>(question: Question, places: usize, test: F) -> Result<(), Refusal>
    requires { (k : ℕ) → k < places → F.pre test k }
    ensures { (t : ℕ → Bool) → ((k : ℕ) (b : Bool) → k < places → F.post test k b → b ≡ t k) → result ≡ each question t places }
{
    for place in 0..places {
        if !test(place) {
            return Err(Refusal { question, place });
        }
    }
    Ok(())
}

// Are the questions 3 to 7 answered yes at every halfedge? One pass, a triangle at a time, which an accepted mesh does not leave early.
fn all_hold(h: &[i32], n: usize, p: usize) -> bool
    requires { (n % 3 ≡ 0) × (n ≤ max_halfedges) × (p ≤ max_points) }
    ensures { result ≡ has_length (length h.now) n halfedge_stride && triangles_hold (as_halfedges h.now) n p }
{
    if !has_length(h.len(), n, HALFEDGE_STRIDE) {
        return false;
    }
    (0..n / 3).all(|t| triangle_holds(h, n, p, t * 3))
}

// The questions 3 to 7, one after the other.
#[tactic(auto, unfolding(crate::specs::All::ask_each))]
fn ask_each(h: &[i32], n: usize, p: usize) -> Result<(), Refusal>
    ensures { result ≡ ask_each (as_halfedges h.now) n p }
{
    ask(Question::Points, n, |e| has_points(h, p, e))?;
    ask(Question::Pair, n, |e| has_pair(h, n, e))?;
    ask(Question::Mutual, n, |e| is_mutual(h, e))?;
    ask(Question::Opposite, n, |e| is_opposite(h, e))?;
    ask(Question::Joined, n, |e| is_joined(h, e))
}

// The answer of a question that is put at one place.
pub fn ask_at(question: Question, place: usize, answer: bool) -> Result<(), Refusal>
    ensures { result ≡ asked question place answer }
{
    if answer {
        return Ok(());
    }
    Err(Refusal { question, place })
}

// The questions 1 to 7: a mesh is accepted exactly if it is sound and the lists have their lengths. `lengths` is the answer to question
// 2, which the caller finds of its own lists by `has_length`.
#[tactic(auto, unfolding(crate::specs::Check::check_mesh, crate::specs::All::ask_each))]
pub fn check_mesh(h: &[i32], n: usize, p: usize, lengths: bool) -> Result<(), Refusal>
    ensures answer { result ≡ check_mesh (as_halfedges h.now) n p lengths }
    ensures accepted { (result ≡ Ok tt) ↔ ((lengths ≡ true) × Sound (as_halfedges h.now) n p) }
{
    ask_at(Question::Counts, 0, counts_fit(n, p))?;
    ask_at(Question::Lengths, 0, lengths)?;
    if all_hold(h, n, p) {
        return Ok(());
    }
    ask_each(h, n, p)
}

// Question 8, after earlier answers: the face references of the triangles. Here and below the earlier answer is a parameter and not the
// caller's `?`: the contract of a public function says what it answers after any of them. Its names differ so that each must-fail edit
// finds its line.
#[tactic(auto, unfolding(crate::specs::Check::check_refs))]
pub fn check_refs(sofar: Result<(), Refusal>, refs: &[i32], n: usize) -> Result<(), Refusal>
    ensures answer { result ≡ check_refs sofar refs.now n }
    ensures accepted { (result ≡ Ok tt) ↔ ((sofar ≡ Ok tt) × ((t : ℕ) → t < n / 3 → le_z (pos 1) (ref_at refs.now t 0) ≡ true)) }
{
    sofar?;
    ask(Question::Mesh, n / 3, |t| has_mesh(refs, t))
}

// The questions 9 and 10, after earlier answers: the sharp entries' halfedges and smoothness.
#[tactic(auto, unfolding(crate::specs::Check::check_entries))]
pub fn check_entries(
    sofar: Result<(), Refusal>,
    entries: &[usize],
    smoothness: &[f64],
    n: usize,
) -> Result<(), Refusal>
    ensures answer { result ≡ check_entries sofar entries.now smoothness.now n }
    ensures accepted { (result ≡ Ok tt) ↔ ((sofar ≡ Ok tt) × ((k : ℕ) → k < length entries.now → (get_or entries.now k 0 < n) × (sign_clear (get_or smoothness.now k nan) ≡ true))) }
{
    sofar?;
    ask(
        Question::Entry,
        entries.len(),
        |k| names_halfedge(entries, n, k),
    )?;
    ask(
        Question::Sign,
        entries.len(),
        |k| has_clear_sign(smoothness, k),
    )
}

// Question 11, after those of `check_mesh`: the flags of fixed halfedges.
#[tactic(auto, unfolding(crate::specs::Check::check_flags))]
pub fn check_flags(mesh: Result<(), Refusal>, fixed: &[u8], n: usize) -> Result<(), Refusal>
    ensures answer { result ≡ check_flags mesh fixed.now n }
    ensures accepted { (result ≡ Ok tt) ↔ ((mesh ≡ Ok tt) × ((e : ℕ) → e < n → get_or fixed.now e 0 ≤ 1)) }
{
    mesh?;
    ask(Question::Flag, n, |e| is_flag(fixed, e))
}

// Question 12, after those of `check_mesh`: the rows of the halfedges, of which there are so many.
#[tactic(auto, unfolding(crate::specs::Check::check_rows))]
pub fn check_rows(
    checked: Result<(), Refusal>,
    h: &[i32],
    rows: usize,
    n: usize,
) -> Result<(), Refusal>
    ensures answer { result ≡ check_rows checked h.now rows n }
    ensures accepted { (result ≡ Ok tt) ↔ ((checked ≡ Ok tt) × ((e : ℕ) → e < n → (prop_vert h.now e < no_index) × (prop_vert h.now e < rows))) }
{
    checked?;
    ask(Question::Row, n, |e| has_row(h, rows, e))
}

// Law: the questions 1 to 7 read no row of a halfedge (`RowsUnread`, crates/mesh/specs/Rows.antt).
#[tactic(auto, using(mesh::proofs::Rows::rows_unread))]
pub fn rows_unread()
    ensures { (n p : ℕ) (lengths : Bool) → RowsUnread (λ H. check_mesh H n p lengths) }
{}
