// Leaves over the faces of a mesh: `flat_faces`, `vert_flat_face` and `vert_halfedge`.

use crate::cases::Case;
use crate::meshes::is_accepted;
use crate::reader::Reader;
use smoothing::faces::{self, FlatFace};

// The Rust's number for the flat faces at a point: -1 for none, -2 for several.
fn face_number(face: FlatFace) -> Option<i32> {
    match face {
        FlatFace::NoFace => Some(-1),
        FlatFace::OneFace(t) => i32::try_from(t).ok(),
        FlatFace::MoreFaces(_) => Some(-2),
    }
}

// The Rust's number for the lowest halfedge of a point: -1 for none, which is n here.
fn first_number(e: usize, n: usize) -> Option<i32> {
    if e == n {
        Some(-1)
    } else {
        i32::try_from(e).ok()
    }
}

// The flat faces, then those of each point, then the lowest halfedge of each point. Lent a flag for each halfedge and a number for each
// point.
#[tactic(auto, using(smoothing::proofs::Lent::flat_in, smoothing::proofs::Lent::verts_in))]
fn same_faces(
    mut body: Reader<'_>,
    h: &[i32],
    refs: &[i32],
    flags: &mut [u8],
    points: &mut [usize],
) -> bool {
    let n = flags.len();
    if !is_accepted(h, n, points.len()) {
        return false;
    }
    faces::flat_faces(h, refs, flags);
    let flat = body.holds_list(&flags[..n / 3]);
    faces::vert_flat_face(h, refs, flags, points);
    body.skip(4);
    let faced = (0..points.len()).all(|v| face_number(faces::flat_face(points, v))
        == Some(body.read()));
    create_shared::vert_halfedge(h, points, n);
    body.skip(4);
    let first = points
        .iter()
        .all(|e| first_number(*e, n) == Some(body.read()));
    flat && faced && first
}

pub fn flat_faces(mut case: Case<'_>) -> bool {
    let mut h = [0i32; 256];
    let mut refs = [0i32; 256];
    let mut flags = [9u8; 256];
    let mut points = [9usize; 256];
    let (Some(flags), Some(points)) = (flags.get_mut(..case.n), points.get_mut(..case.p)) else {
        return false;
    };
    let h = case.body.list(&mut h);
    let refs = case.body.list(&mut refs);
    same_faces(case.body, h, refs, flags, points)
}
