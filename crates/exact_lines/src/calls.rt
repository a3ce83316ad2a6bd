// Straightening, the mark check, the crease listing and spreading.

use crate::lines::put;
use crate::pillow::{POSITIONS, halfedges};

// What a call is asked about, and the lists that are only read; `fixed` are the flags of spreading.
#[derive(Clone, Copy)]
struct Asked<'a> {
    about: &'a str,
    n: usize,
    p: usize,
    h: &'a [i32],
    pos: &'a [f64],
    fixed: &'a [u8],
}

fn straighten(rt: &impl Print, asked: Asked<'_>, t: &mut [f64]) {
    let checked = linearize::linearize_flat_tangents(asked.n, asked.p, asked.h, asked.pos, t);
    put(rt, "straightening, ", asked.about, checked);
}

fn check(rt: &impl Print, asked: Asked<'_>, t: &[f64]) {
    let validity = validate::valid_tangents(asked.n, asked.p, asked.h, asked.pos, t);
    put(rt, "mark check, ", asked.about, validity);
}

fn crease(
    rt: &impl Print,
    asked: Asked<'_>,
    normals: &[f64],
    halfedges: &mut [usize],
    smoothness: &mut [f64],
) {
    let listing = sharpen::sharpen_edges(
        asked.n, asked.p, asked.h, normals, 60.0, 0.0, halfedges, smoothness,
    );
    put(rt, "crease listing, ", asked.about, listing);
}

// The positions serve as the normals.
fn spread(
    rt: &impl Print,
    asked: Asked<'_>,
    t: &mut [f64],
    current: &mut [f64],
    desired: &mut [f64],
) {
    let spreading = distribute::distribute_tangents(
        asked.n,
        asked.p,
        asked.h,
        asked.pos,
        asked.pos,
        asked.fixed,
        t,
        current,
        desired,
    );
    put(rt, "spreading, ", asked.about, spreading);
}

// The four calls. `x` and `y` serve as the normals and the smoothness of the listing, and as the scratch of spreading.
fn ask(
    rt: &impl Print,
    asked: Asked<'_>,
    t: &mut [f64],
    x: &mut [f64],
    y: &mut [f64],
    halfedges: &mut [usize],
) {
    straighten(rt, asked, t);
    check(rt, asked, t);
    crease(rt, asked, x, halfedges, y);
    spread(rt, asked, t, x, y);
}

// So many halfedges, with the whole lists of 65,535 that are all 0: start, end and pair are 0, and there is one point. What
// gets through question 1 gets as far as question 5, at 1, whose pair 0 does not name it back.
fn count(rt: &impl Print, about: &str, n: usize) {
    ask(
        rt,
        Asked {
            about,
            n,
            p: 1,
            h: &[0; 262140],
            pos: &[0.0; 3],
            fixed: &[0; 65535],
        },
        &mut [0.0; 262140],
        &mut [0.0; 65535],
        &mut [0.0; 65535],
        &mut [0; 65535],
    );
}

// The pillow, with this start for halfedge 2.
fn start(rt: &impl Print, about: &str, vert: i32) {
    ask(
        rt,
        Asked {
            about,
            n: 6,
            p: 3,
            h: &halfedges(vert),
            pos: &POSITIONS,
            fixed: &[0; 6],
        },
        &mut [0.0; 24],
        &mut [0.0; 6],
        &mut [0.0; 6],
        &mut [0; 6],
    );
}

// All four, by the counts and by a start.
pub fn put_all(rt: &impl Print) {
    count(rt, "65535 halfedges: ", 65535);
    count(rt, "65538 halfedges: ", 65538);
    count(rt, "4 halfedges: ", 4);
    start(rt, "a start of 2: ", 2);
    start(rt, "a start of -1: ", -1);
}
