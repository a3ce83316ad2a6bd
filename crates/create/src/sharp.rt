// The sharp entries of `create_tangents`: the questions 9 and 10 of a list of them, as the Rust lends it, and the smoothness that
// they give each halfedge, from such a list and from two flat ones.

ghost use Rattle.std.specs.Prelude.{◌≡◌, ◌+◌, ◌<◌, ◌^◌, length, replicate};
ghost use Rattle.float.specs.Ops.{one};
ghost use Rattle.questions.specs.Check.{check_entries};
ghost use Rattle.create.specs.Sharp.Entries.{halfedges_of, smoothness_of, entries_of};
ghost use Rattle.create.specs.Sharp.EntrySmoothness.{EntriesIn, add_entry, entry_smoothness};

use questions::{Question, Refusal};

// A sharp entry: a halfedge, and how smooth its edge is to be.
#[repr(C)]
#[derive(Clone, Copy)]
pub struct Smoothness {
    pub halfedge: usize,
    pub smoothness: f64,
}

// The questions 9 and 10, after earlier answers: `questions::check_entries` of a list of structs. The earlier answer is a parameter,
// since it is one of the definition, too: without it the clause would say `check_entries (Ok tt)`, and each caller would have a line
// for the `?`.
#[tactic(auto, unfolding(questions::specs::Check::check_entries))]
pub fn check_sharp(
    sofar: Result<(), Refusal>,
    sharp: &[Smoothness],
    n: usize,
) -> Result<(), Refusal>
    ensures { result ≡ check_entries sofar (halfedges_of sharp.now) (smoothness_of sharp.now) n }
{
    sofar?;
    questions::ask(Question::Entry, sharp.len(), |k| sharp[k].halfedge < n)?;
    questions::ask(
        Question::Sign,
        sharp.len(),
        |k| questions::sign_clear(sharp[k].smoothness),
    )
}

// The smoothness of a halfedge without an entry.
const NO_ENTRY: f64 = 1.0;

// An entry of smoothness s for halfedge e.
#[tactic(auto, unfolding(crate::specs::Sharp::EntrySmoothness::add_entry))]
pub fn add_entry(smooth: &mut [f64], e: usize, s: f64)
    requires { e < length smooth.old }
    ensures { smooth.new ≡ add_entry smooth.old e s }
{
    if s >= 1.0 {
        return;
    }
    let old = smooth[e];
    smooth[e] = float::min(old, s);
}

// The smoothness that the entries of two flat lists give each halfedge, whatever the list held.
pub fn entry_smoothness(entries: &[usize], smoothness: &[f64], smooth: &mut [f64])
    requires { (length smoothness.now ≡ length entries.now) × EntriesIn (entries_of entries.now smoothness.now) (length smooth.old) }
    ensures { smooth.new ≡ entry_smoothness (entries_of entries.now smoothness.now) (length smooth.old) }
{
    smooth.fill(NO_ENTRY);
    for (e, s) in entries.iter().zip(smoothness) {
        add_entry(smooth, *e, *s);
    }
}

// The same of a list of structs. A loop of its own: one for both would take an iterator, and a contract of what it yields.
#[tactic(auto, using(crate::proofs::SharpLaws::Adding::add_more, crate::proofs::SharpLaws::Adding::named_at))]
pub fn sharp_smoothness(sharp: &[Smoothness], smooth: &mut [f64])
    requires { EntriesIn sharp.now (length smooth.old) }
    ensures { smooth.new ≡ entry_smoothness sharp.now (length smooth.old) }
{
    smooth.fill(NO_ENTRY);
    for entry in sharp {
        add_entry(smooth, entry.halfedge, entry.smoothness);
    }
}
