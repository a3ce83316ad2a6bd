// What the cases of both makings share: their lists and their answer, and the scratch lists.

use crate::cases::{Case, Refusal, ends_as};
use crate::reader::{Reader, all_same};
use std::ops::Range;

// A case of a making: the counts, the lists and the flag that the call is lent, how it ends, and what follows: the tangents. The
// values are the smoothness of the entries, or the rows. An accepted call counts its circular tangents on an edge without direction.
#[derive(Clone, Copy)]
pub struct Creation<'a> {
    pub n: usize,
    pub p: usize,
    pub h: &'a [i32],
    pub pos: &'a [f64],
    pub normals: &'a [f64],
    pub face_normals: &'a [f64],
    pub refs: &'a [i32],
    pub entries: &'a [usize],
    pub values: &'a [f64],
    pub old: bool,
    pub outcome: Result<usize, Refusal>,
    pub body: Reader<'a>,
}

// Whether there are old tangents, the count of the answer, and where the parts of the lists end: the positions, the point
// normals and the face normals in the list of floats, the halfedges in that of signed numbers.
#[derive(Clone, Copy)]
struct Head {
    old: bool,
    directionless: usize,
    positions: usize,
    normals: usize,
    face_normals: usize,
    halfedges: usize,
}

impl Head {
    fn read(body: &mut Reader<'_>) -> Self {
        Head {
            old: body.read::<usize>() == 1,
            directionless: body.read(),
            positions: body.read(),
            normals: body.read(),
            face_normals: body.read(),
            halfedges: body.read(),
        }
    }
}

impl<'a> Creation<'a> {
    // Reads the lists of a case to their rooms.
    pub fn read(
        case: Case<'a>,
        xs: &'a mut [f64; 256],
        is: &'a mut [i32; 128],
        entries: &'a mut [usize; 64],
    ) -> Self {
        let mut body = case.body;
        let head = Head::read(&mut body);
        let xs: &[f64] = body.list(xs);
        let is: &[i32] = body.list(is);
        let entries = body.list(entries);
        Creation {
            n: case.n,
            p: case.p,
            h: part(is, 0..head.halfedges),
            pos: part(xs, 0..head.positions),
            normals: part(xs, head.positions..head.normals),
            face_normals: part(xs, head.normals..head.face_normals),
            refs: part(is, head.halfedges..is.len()),
            entries,
            values: part(xs, head.face_normals..xs.len()),
            old: head.old,
            outcome: case.outcome.map(|()| head.directionless),
            body,
        }
    }

    // A number of each kind of scratch list after the call: 0 where it is accepted, else as it was lent.
    fn scratch_after(&self) -> (u8, f64, usize) {
        match self.outcome {
            Ok(_) => (0, 0.0, 0),
            Err(_) => (FLAG, ANGLE, NUMBER),
        }
    }
}

// The places of a list in a range, or none where it is no part of the list.
fn part<T>(xs: &[T], range: Range<usize>) -> &[T] {
    xs.get(range).unwrap_or(&[])
}

// What the scratch lists hold when they are lent: what no call leaves in them. And the tangents, where there are no old ones.
const FLAG: u8 = 7;

const ANGLE: f64 = 0.5;

const NUMBER: usize = 77;

// The most places of a scratch list.
const PLACES: usize = 32;

// Makes the call with the old tangents and with scratch lists of its own, of them `links` places of links. Does it end as the case
// does, with the tangents as the Rust left them, and the scratch lists zeros where it is accepted, else as they were lent? The call
// is lent the tangents; two lists of bytes and two of angles for the halfedges; one of numbers for the points; and the links. Tried as
// a struct of them: the borrow checker covers no closure that takes one.
pub fn agrees<F>(creation: Creation<'_>, links: usize, call: F) -> bool
where
    F: FnOnce(
        &mut [f64],
        &mut [u8],
        &mut [u8],
        &mut [f64],
        &mut [f64],
        &mut [usize],
        &mut [usize],
    ) -> Result<usize, questions::Refusal>,
    requires { F.IsAlwaysCallable call }
{
    let mut t = [ANGLE; 128];
    let mut body = creation.body;
    body.list(&mut t);
    let t = body.front(&mut t);
    let n = creation.n.min(PLACES);
    let fixed = &mut [FLAG; PLACES][..n];
    let flags = &mut [FLAG; PLACES][..n];
    let smooth = &mut [ANGLE; PLACES][..n];
    let desired = &mut [ANGLE; PLACES][..n];
    let points = &mut [NUMBER; PLACES][..creation.p.min(PLACES)];
    let link = &mut [NUMBER; PLACES][..links.min(PLACES)];
    let making = call(t, fixed, flags, smooth, desired, points, link);
    let (flag, angle, number) = creation.scratch_after();
    let bytes = all_same(fixed, flag) && all_same(flags, flag);
    let angles = all_same(smooth, angle) && all_same(desired, angle);
    let numbers = all_same(points, number) && all_same(link, number);
    ends_as(making, creation.outcome) && bytes && angles && numbers && body.holds(t)
}
