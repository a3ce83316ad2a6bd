// The two steps around a point of the mesh, by which `collect_vertex_cycle` and the walks of `distribute_tangents` go. The
// walks are loops of the crates above, which prove them by proofs/Loops.antt. A step asks for its own place alone.
#![tactic(auto)]

ghost use Rattle.std.specs.Prelude.{◌≡◌, ◌+◌, ◌<◌, ◌^◌};
ghost use Rattle.mesh.specs.Mesh.{prev_halfedge, as_halfedges};
ghost use Rattle.mesh.specs.Inside.{Inside};
ghost use Rattle.cycles.specs.Cycles.{next_around, prev_around, AcceptedCycles};

// The next halfedge around the start point of e: the next of the pair.
pub fn next_around(h: &[i32], e: usize) -> usize
    requires { Inside (as_halfedges h.now) e }
    ensures { result ≡ next_around (as_halfedges h.now) e }
{
    mesh::next_halfedge(mesh::paired_halfedge(h, e))
}

// The previous one: the pair of the previous.
pub fn prev_around(h: &[i32], e: usize) -> usize
    requires { (e + 1 < 2 ^ 64) × Inside (as_halfedges h.now) (prev_halfedge e) }
    ensures { result ≡ prev_around (as_halfedges h.now) e }
{
    mesh::paired_halfedge(h, mesh::prev_halfedge(e))
}

// Law: on every mesh that the questions accept, both steps go around the points in closed rounds (specs/Cycles.antt, `Cycles`).
#[tactic(auto, using(crate::proofs::Around::accepted_cycles))]
pub fn accepted_cycles_hold()
    ensures { AcceptedCycles }
{}
