// Both makings.

use crate::lines::{put, put_count};
use crate::pillow::{FACE_NORMALS, NORMALS, POSITIONS, REFS, halfedges};
use questions::Refusal;

// Making from sharp edges of the pillow's lists, with so many halfedges, this start for halfedge 2, these positions and entries.
fn make_sharp(
    n: usize,
    vert: i32,
    pos: &[f64],
    entries: &[usize],
    values: &[f64],
    t: &mut [f64],
) -> Result<usize, Refusal> {
    create::create_tangents(
        n,
        3,
        &halfedges(vert),
        pos,
        &NORMALS,
        &FACE_NORMALS,
        &REFS,
        entries,
        values,
        false,
        t,
        &mut [0u8; 6],
        &mut [0u8; 6],
        &mut [0.0; 6],
        &mut [0.0; 6],
        &mut [0usize; 3],
        &mut [0usize; 6],
    )
}

// Making from normals of the pillow's lists with these positions, all normals missing.
fn make_from_normals(n: usize, vert: i32, pos: &[f64]) -> Result<usize, Refusal> {
    create_from_normals::create_tangents_from_normals(
        n,
        3,
        &halfedges(vert),
        pos,
        &NORMALS,
        &FACE_NORMALS,
        &REFS,
        &[0.0; 18],
        false,
        &mut [0.0; 24],
        &mut [0u8; 6],
        &mut [0u8; 6],
        &mut [0.0; 6],
        &mut [0.0; 6],
        &mut [0usize; 3],
    )
}

// Both makings. With another count than 6 the lists lack their length: what gets through question 1 is refused 2.
fn make(rt: &impl Print, asked: &str, n: usize, vert: i32) {
    put(
        rt,
        "making from sharp edges, ",
        asked,
        make_sharp(n, vert, &POSITIONS, &[0], &[0.0], &mut [0.0; 24]),
    );
    put(
        rt,
        "making from normals, ",
        asked,
        make_from_normals(n, vert, &POSITIONS),
    );
}

// Are the tangents the same, bit for bit? By `==` zeros of either sign would be one, and no not-a-number itself.
fn same(xs: &[f64; 24], ys: &[f64; 24]) -> bool {
    xs.iter()
        .zip(ys)
        .all(|(x, y)| float::bits(*x) == float::bits(*y))
}

// Making from sharp edges of the pillow, with an entry of 0 for halfedge 0 and one of this smoothness for halfedge 4.
fn make_with(rt: &impl Print, asked: &str, smoothness: f64, t: &mut [f64]) {
    put(
        rt,
        "making from sharp edges, ",
        asked,
        make_sharp(6, 2, &POSITIONS, &[0, 4], &[0.0, smoothness], t),
    );
}

// The same, and whether the tangents are those that are made without the second entry.
fn entry(rt: &impl Print, asked: &str, smoothness: f64) {
    let mut without = [0.0; 24];
    let _ = make_sharp(6, 2, &POSITIONS, &[0], &[0.0], &mut without);
    let mut with = [7.0; 24];
    make_with(rt, asked, smoothness, &mut with);
    if same(&with, &without) {
        let _ = println!(rt; "same tangents as without it");
    } else {
        let _ = println!(rt; "other tangents than without it");
    }
}

// Both makings with these positions; with one sharp edge no crease goes through a point.
fn count(rt: &impl Print, asked: &str, pos: &[f64]) {
    put_count(
        rt,
        "making from sharp edges, ",
        asked,
        make_sharp(6, 2, pos, &[0], &[0.0], &mut [0.0; 24]),
    );
    put_count(
        rt,
        "making from normals, ",
        asked,
        make_from_normals(6, 2, pos),
    );
}

// Both makings, by the counts, a start, the smoothness of an entry and the count.
pub fn put_all(rt: &impl Print) {
    make(rt, "65535 halfedges: ", 65535, 2);
    make(rt, "65538 halfedges: ", 65538, 2);
    make(rt, "4 halfedges: ", 4, 2);
    make(rt, "a start of 2: ", 6, 2);
    make(rt, "a start of -1: ", 6, -1);
    entry(rt, "smoothness 1: ", 1.0);
    entry(rt, "smoothness 1/2: ", 0.5);
    make_with(rt, "smoothness -0: ", -0.0, &mut [0.0; 24]);
    count(rt, "the pillow: ", &POSITIONS);
    count(rt, "all points one point: ", &[3.0; 9]);
    put_count(
        rt,
        "making from sharp edges, ",
        "all points one point, a crease through point 1: ",
        make_sharp(6, 2, &[3.0; 9], &[0, 1], &[0.0, 0.0], &mut [0.0; 24]),
    );
}
