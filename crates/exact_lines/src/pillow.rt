// The lists of the pillow, two triangles on three points.

// The pillow's positions.
pub const POSITIONS: [f64; 9] = [0.0, 0.0, 0.0, 3.0, 0.0, 0.0, 0.0, 6.0, 0.0];

// The pillow's halfedges, with this start for halfedge 2; each has its own number as row.
pub fn halfedges(vert: i32) -> [i32; 24] {
    [
        0, 1, 5, 0, 1, 2, 4, 1, vert, 0, 3, 2, 0, 2, 2, 3, 2, 1, 1, 4, 1, 0, 0, 5,
    ]
}

// The pillow's point normals, face normals and references.
pub const NORMALS: [f64; 9] = [1.0, 2.0, 3.0, 1.0, 2.0, 3.0, 1.0, 2.0, 3.0];

pub const FACE_NORMALS: [f64; 6] = [0.0, 0.0, 1.0, 0.0, 0.0, -1.0];

pub const REFS: [i32; 6] = [1, 0, 0, 1, 0, 1];
