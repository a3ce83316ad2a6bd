// The oracle's answers to the reading of STL.

use crate::cases::{Refusal, ends_as};
use crate::reader::{Reader, all_same};
use crate::tally::Tally;

// What the lists hold when they are lent. No reading writes these: 0.1 is no f32, and the numbers of a halfedge are not negative.
const FLOAT: f64 = 0.1;

const NUMBER: i32 = -7;

// How the call of a record ends: with so many halfedges and points, or with a refusal.
fn outcome_of(record: &mut Reader<'_>) -> Result<(usize, usize), Refusal> {
    let refusal = Refusal {
        number: record.read(),
        place: record.read(),
    };
    let counts = (record.read(), record.read());
    match refusal.number {
        0 => Ok(counts),
        _ => Err(refusal),
    }
}

// Makes the call of a record. Are its answer and every place of the lists those of the record? As they were lent where it refuses.
fn agrees(mut record: Reader<'_>) -> bool {
    let outcome = outcome_of(&mut record);
    let mut bytes = [0u8; 8192];
    let mut points = [FLOAT; 1024];
    let mut halfedges = [NUMBER; 2048];
    let mut normals = [FLOAT; 512];
    let bytes = record.list(&mut bytes);
    let points = record.front(&mut points);
    let halfedges = record.front(&mut halfedges);
    let normals = record.front(&mut normals);
    let reading = stl::read_stl(bytes, points, halfedges, normals);
    let counts = reading.map(|counts| (counts.halfedges, counts.points));
    let lists = match outcome {
        Ok(_) => record.holds(points) && record.holds(halfedges) && record.holds(normals),
        Err(_) => {
            all_same(points, FLOAT) && all_same(halfedges, NUMBER) && all_same(normals, FLOAT)
        }
    };
    lists && ends_as(counts, outcome)
}

pub fn counted(tally: Tally, record: Reader<'_>) -> Tally {
    tally.counted(agrees(record))
}
