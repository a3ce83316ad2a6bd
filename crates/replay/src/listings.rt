// The oracle's answers to both crease listings.

use crate::cases::{Case, Operation, ends_as};
use crate::reader::{Reader, all_same};
use crate::tally::Tally;
use sharpen::Listed;

// What the places of the two lists of entries hold when they are lent. No case has this smoothness.
const LENT: usize = 77;

const LENT_SMOOTHNESS: f64 = 0.1;

// Are these places of both lists as they were lent?
fn as_lent(list: &[usize], smooth: &[f64]) -> bool {
    all_same(list, LENT) && all_same(smooth, LENT_SMOOTHNESS)
}

// What a listing left: the entries in front, and past them the places as they were lent. The oracle's entries, their smoothness
// and its tally come next.
fn same_entries(mut case: Case<'_>, listed: Listed, list: &[usize], smooth: &[f64]) -> bool {
    let (Some((front, rest)), Some((smoothness, smooth_rest))) = (
        list.split_at_checked(listed.entries),
        smooth.split_at_checked(listed.entries),
    ) else {
        return false;
    };
    case.body.holds_list(front)
        && case.body.holds_list(smoothness)
        && case.body.read::<usize>() == listed.tally
        && as_lent(rest, smooth_rest)
}

// Is this how the call of the case ends?
fn same_listing(
    listing: Result<Listed, questions::Refusal>,
    case: Case<'_>,
    list: &[usize],
    smooth: &[f64],
) -> bool {
    let left = match listing {
        Ok(listed) => same_entries(case, listed, list, smooth),
        Err(_) => as_lent(list, smooth),
    };
    ends_as(listing.map(|_| ()), case.outcome) && left
}

// After the lists stand the angle and the smoothness of the case, as a list of two.
fn listing<F>(mut case: Case<'_>, call: F) -> bool
where
    F: FnOnce(
        usize,
        usize,
        &[i32],
        &[f64],
        f64,
        f64,
        &mut [usize],
        &mut [f64],
    ) -> Result<Listed, questions::Refusal>,
    requires { F.IsAlwaysCallable call }
{
    let mut h = [0i32; 256];
    let mut normals = [0.0f64; 256];
    let mut given = [0.0f64; 2];
    let mut list = [LENT; 256];
    let mut smooth = [LENT_SMOOTHNESS; 256];
    let h = case.body.list(&mut h);
    let normals = case.body.list(&mut normals);
    let &mut [angle, smoothness] = case.body.list(&mut given) else {
        return false;
    };
    let room = case.body.read::<usize>();
    let (Some(list), Some(smooth)) = (list.get_mut(..room), smooth.get_mut(..room)) else {
        return false;
    };
    let listed = call(case.n, case.p, h, normals, angle, smoothness, list, smooth);
    same_listing(listed, case, list, smooth)
}

// The listing that the case asks for.
pub fn agrees(case: Case<'_>) -> bool {
    match case.operation {
        Ok(Operation::CreaseClean) => listing(case, sharpen::sharpen_edges_clean),
        _ => listing(case, sharpen::sharpen_edges),
    }
}

pub fn counted(tally: Tally, record: Reader<'_>) -> Tally {
    tally.counted(agrees(Case::new(record)))
}
