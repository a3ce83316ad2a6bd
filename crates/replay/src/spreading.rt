// The oracle's answers to spreading.

use crate::cases::{Case, Refusal, ends_as};
use crate::reader::{Reader, all_same};
use crate::tally::Tally;
use distribute::Counts;

// The lists of a case of spreading or of its preview that both only read.
#[derive(Clone, Copy)]
pub struct Lists<'a> {
    pub pos: &'a [f64],
    pub h: &'a [i32],
    pub normals: &'a [f64],
    pub fixed: &'a [u8],
}

// Reads the lists and the tangents of a case, then how the call ends, whose counts come next, and asks `same` of them.
pub fn with_lists<F>(record: Reader<'_>, same: F) -> bool
where
    F: FnOnce(Case<'_>, Lists<'_>, &mut [f64], Result<(usize, usize), Refusal>) -> bool,
    requires { F.IsAlwaysCallable same }
{
    let mut case = Case::new(record);
    let mut pos = [0.0f64; 256];
    let mut h = [0i32; 256];
    let mut normals = [0.0f64; 256];
    let mut fixed = [0u8; 64];
    let mut t = [0.0f64; 256];
    let lists = Lists {
        pos: case.body.list(&mut pos),
        h: case.body.list(&mut h),
        normals: case.body.list(&mut normals),
        fixed: case.body.list(&mut fixed),
    };
    let t = case.body.list(&mut t);
    let counts = (case.body.read(), case.body.read());
    same(case, lists, t, case.outcome.map(|()| counts))
}

// Does a call with this answer end so, whose counts looked and turned are those?
pub fn ends_with(
    spreading: Result<Counts, questions::Refusal>,
    outcome: Result<(usize, usize), Refusal>,
) -> bool {
    ends_as(
        spreading.map(|spread| (spread.looked, spread.turned)),
        outcome,
    )
}

// The most places of a scratch list.
const PLACES: usize = 32;

// With scratch lists of its own: zeros where the call is accepted, else as they were lent. The tangents as the Rust left them come next.
fn agrees(
    mut case: Case<'_>,
    lists: Lists<'_>,
    t: &mut [f64],
    outcome: Result<(usize, usize), Refusal>,
) -> bool {
    let n = case.n.min(PLACES);
    let current = &mut [0.5f64; PLACES][..n];
    let desired = &mut [0.5f64; PLACES][..n];
    let spreading = distribute::distribute_tangents(
        case.n,
        case.p,
        lists.h,
        lists.pos,
        lists.normals,
        lists.fixed,
        t,
        current,
        desired,
    );
    let angle = if outcome.is_ok() { 0.0 } else { 0.5 };
    ends_with(spreading, outcome)
        && all_same(current, angle)
        && all_same(desired, angle)
        && case.body.holds_list(t)
}

pub fn counted(tally: Tally, record: Reader<'_>) -> Tally {
    tally.counted(with_lists(record, agrees))
}
