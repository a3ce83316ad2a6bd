// The Rust's answers to both calls along a curve.

use crate::reader::{Reader, Stored};
use crate::tally::Tally;
use linalg::Vec4;
use questions::Refusal;

// The most places of a list of points.
const PLACES: usize = 1024;

fn control(record: &mut Reader<'_>) -> Vec4 {
    Vec4 {
        x: record.read(),
        y: record.read(),
        z: record.read(),
        w: record.read(),
    }
}

// Are the number and the place of an answer those of the record?
fn same_refusal<T: Copy>(record: &mut Reader<'_>, answer: Result<T, Refusal>) -> bool {
    record.holds(&[questions::number_of(answer), questions::place_of(answer)])
}

// Asks for one point. Are the answer, the position and the direction those of the record? Both are zeros where it refuses.
fn same_point(mut record: Reader<'_>, [p0, p1, p2, p3]: [Vec4; 4]) -> bool {
    let answer = curve::curve_at(p0, p1, p2, p3, record.read());
    let position = curve::position_of(answer);
    let direction = curve::direction_of(answer);
    same_refusal(&mut record, answer)
        && record.holds(&[position.x, position.y, position.z])
        && record.holds(&[direction.x, direction.y, direction.z])
}

// What place i of a list is lent with: a number of its own.
fn lent(i: usize) -> f64 {
    float::of_bits(0x4009_21fb_5444_2000 | i as u64)
}

// Is each place of a list as it was lent?
fn is_as_lent(points: &[f64]) -> bool {
    points.iter().enumerate().all(|(i, x)| x.same(lent(i)))
}

// Asks for a list of points. Are the answer and every place of the list those of the record? As they were lent where it refuses.
fn same_points(mut record: Reader<'_>, [p0, p1, p2, p3]: [Vec4; 4]) -> bool {
    let count = record.read::<u64>() as usize;
    let mut points = [0.0; PLACES];
    let points = record.front(&mut points);
    for (i, x) in points.iter_mut().enumerate() {
        *x = lent(i);
    }
    let answer = curve::curve_points(p0, p1, p2, p3, count, points);
    same_refusal(&mut record, answer)
        && match answer {
            Ok(()) => record.holds(points),
            Err(_) => is_as_lent(points),
        }
}

// Makes the call of a record, 1 for a point and 2 for a list. Does it give what the record holds?
fn agrees(mut record: Reader<'_>) -> bool {
    let call = record.read::<usize>();
    let controls = [
        control(&mut record),
        control(&mut record),
        control(&mut record),
        control(&mut record),
    ];
    match call {
        1 => same_point(record, controls),
        2 => same_points(record, controls),
        _ => false,
    }
}

pub fn counted(tally: Tally, record: Reader<'_>) -> Tally {
    tally.counted(agrees(record))
}
