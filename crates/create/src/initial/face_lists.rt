// The lists that the first tangents are made of, as a value that keeps what is known of them: no function asks for it again.

ghost use Rattle.std.specs.Prelude.{ℕ, ◌≡◌, ◌<◌, length};
ghost use Rattle.create.specs.Initial.Faces.{face_at, FaceIn};

use create_shared::MeshLists;

// A mesh, and the flat faces at each of its points, as `vert_flat_face` leaves them.
#[derive(Clone, Copy)]
pub struct FaceLists<'a> {
    pub mesh: MeshLists<'a>,
    pub at: &'a [usize],
    pub ghost points: { length at.now ≡ mesh.p },
    pub ghost faces: { (v : ℕ) → v < length at.now → FaceIn mesh.n (face_at at.now v) },
}
