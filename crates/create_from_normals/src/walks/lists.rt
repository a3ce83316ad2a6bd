// The lists that making from normals reads, as a value that keeps what is known of them: no function asks for it again.

ghost use Rattle.std.specs.Prelude.{ℕ, ◌≡◌, ◌<◌, length, get_or};
ghost use Rattle.mesh.specs.Mesh.{as_halfedges};
ghost use Rattle.create_shared.specs.Verts.{vert_halfedge};
ghost use Rattle.create_from_normals.specs.State.State.{RowIn};
ghost use Rattle.create_from_normals.specs.State.Units.{UnitsIn};

use create_shared::MeshLists;

// What the call reads of an accepted mesh: its lists, and the rows, one of which is the normal of each halfedge.
#[derive(Clone, Copy)]
pub struct NormalLists<'a> {
    pub mesh: MeshLists<'a>,
    pub rows: &'a [f64],
    pub ghost halfedge_normals: { (e : ℕ) → e < mesh.n → RowIn mesh.h.now rows.now e },
}

// And what is worked out of them before the loop over the points: the unit vector of each triangle's normal, a flag for each
// halfedge, which is 1 inside a quad, and the first halfedge of each point.
#[derive(Clone, Copy)]
pub struct WalkLists<'a> {
    pub lists: NormalLists<'a>,
    pub face_units: &'a [f64],
    pub inside: &'a [u8],
    pub first: &'a [usize],
    pub ghost units: { UnitsIn lists.mesh.face_normals.now face_units.now lists.mesh.n },
    pub ghost flags: { length inside.now ≡ lists.mesh.n },
    pub ghost points: { length first.now ≡ lists.mesh.p },
    pub ghost lowest: { (v : ℕ) → v < lists.mesh.p → get_or first.now v 0 ≡ vert_halfedge (as_halfedges lists.mesh.h.now) lists.mesh.n v },
}
