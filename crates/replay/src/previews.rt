// The oracle's answers to the preview of spreading.

use crate::cases::{Case, Refusal};
use crate::reader::Reader;
use crate::spreading::{Lists, ends_with, with_lists};
use crate::tally::Tally;
use distribute::preview;

// The most places of the byte list.
const PLACES: usize = 32;

// With a byte list of the case's length that holds 7s. That list as it has to be left comes next.
fn agrees(
    mut case: Case<'_>,
    lists: Lists<'_>,
    t: &mut [f64],
    outcome: Result<(usize, usize), Refusal>,
) -> bool {
    let places = case.body.read::<usize>().min(PLACES);
    let shown = &mut [7u8; PLACES][..places];
    let spreading = preview::preview_tangents(
        case.n,
        case.p,
        lists.h,
        lists.pos,
        lists.normals,
        lists.fixed,
        t,
        shown,
    );
    ends_with(spreading, outcome) && case.body.holds(shown)
}

pub fn counted(tally: Tally, record: Reader<'_>) -> Tally {
    tally.counted(with_lists(record, agrees))
}
