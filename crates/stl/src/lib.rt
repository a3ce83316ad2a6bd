// The reading of binary STL: a file's triangles become a mesh, in lists with room for it. Nothing else is lent: what the questions take
// is the call's own, on its stack, and the lists are written only when the file is accepted.
#![tactic(auto)]

mod file;
mod pairs;
mod points;
mod table;

ghost use Rattle.std.specs.Prelude.{◌≡◌, Ok, ◌*◌, ◌<◌, ◌≤◌, length};
ghost use Rattle.mesh.specs.Mesh.{halfedge_stride};
ghost use Rattle.little_endian.specs.Filled.{filled};
ghost use Rattle.stl.specs.File.File.{triangle_count, halfedge_count, normal_item};
ghost use Rattle.stl.specs.File.Points.{point_count};
ghost use Rattle.stl.specs.File.Lists.{point_item, halfedge_item};
ghost use Rattle.stl.specs.Questions.{has_room, finite, finite_corner, triangle_fits, check_file};
ghost use Rattle.stl.specs.Stl.{halfedges_of, points_of, counts_of, check_lists, read_stl, pos_after, h_after, face_normals_after, Values, IsMesh};
ghost use Rattle.stl.specs.Pairing.{PairedExactly};

use file::{Corner, File, Triangle};
use questions::{Question, Refusal};

// How many halfedges and points the lists have.
#[derive(Clone, Copy)]
pub struct MeshCounts {
    pub halfedges: usize,
    pub points: usize,
}

// The number of halfedges; 0 where the file is refused.
pub fn halfedges_of(reading: Result<MeshCounts, Refusal>) -> usize
    ensures { result ≡ halfedges_of reading }
{
    reading.map_or(0, |counts| counts.halfedges)
}

// The number of points; 0 where the file is refused.
pub fn points_of(reading: Result<MeshCounts, Refusal>) -> usize
    ensures { result ≡ points_of reading }
{
    reading.map_or(0, |counts| counts.points)
}

// Question 2: have the lists room for three points, three halfedges and one normal for each triangle?
fn has_room(file: &File<'_>, pos_len: usize, h_len: usize, face_normals_len: usize) -> bool
    ensures { result ≡ has_room file.now.bytes.now pos_len h_len face_normals_len }
{
    let triangles = file.triangles;
    (9 * triangles <= pos_len) & (12 * triangles <= h_len) & (3 * triangles <= face_normals_len)
}

// Are these the bits of a finite f32?
#[tactic(auto, unfolding(crate::specs::Questions::finite))]
fn is_finite(bits: u32) -> bool
    ensures { result ≡ finite bits }
{
    bits % 0x8000_0000 < 0x7f80_0000
}

fn finite_corner(a: Corner) -> bool
    ensures { result ≡ finite_corner a }
{
    is_finite(a.x) & is_finite(a.y) & is_finite(a.z)
}

// Question 31 of triangle t.
#[tactic(auto, unfolding(crate::specs::Questions::triangle_fits, crate::specs::File::File::triangle_at, crate::specs::File::Points::same_point, crate::specs::File::Points::same_corner))]
fn triangle_fits(file: &File<'_>, t: usize) -> bool
    requires { t < file.now.triangles }
    ensures { result ≡ triangle_fits file.now.bytes.now t }
{
    let Triangle { a, b, c } = file::triangle_at(file, t);
    if !(finite_corner(a) & finite_corner(b) & finite_corner(c)) {
        return false;
    }
    (a != b) & (b != c) & (c != a)
}

// The questions 2, 31, 30 of the points, and 32, of a file whose length fits. `room` is the answer to question 2.
#[tactic(auto, unfolding(crate::specs::Questions::check_file))]
fn check_file(file: &File<'_>, room: bool) -> Result<(), Refusal>
    ensures { result ≡ check_file file.now.bytes.now room }
{
    questions::ask_at(Question::Lengths, 0, room)?;
    questions::ask(
        Question::Corners,
        file.triangles,
        |t| triangle_fits(file, t),
    )?;
    questions::ask_at(Question::Size, 0, points::points_fit(file))?;
    let unpaired = pairs::lowest_unpaired(file);
    questions::ask_at(Question::Pairing, unpaired, unpaired >= 3 * file.triangles)
}

// The stored normals, widened.
#[tactic(auto, using(little_endian::proofs::Filled::filled_none, little_endian::proofs::Filled::filled_again))]
fn write_normals(file: &File<'_>, face_normals: &mut [f64])
    requires { 3 * file.now.triangles ≤ length face_normals.old }
    ensures { face_normals.new ≡ filled (normal_item file.now.bytes.now) (3 * file.now.triangles) face_normals.old }
{
    for i in 0..3 * file.triangles {
        face_normals[i] = file::normal_number(file, i);
    }
}

// The three lists of a file whose questions are all answered yes.
fn write_lists(
    file: &File<'_>,
    pos: &mut [f64],
    h: &mut [i32],
    face_normals: &mut [f64],
) -> MeshCounts
    requires { check_file file.now.bytes.now (has_room file.now.bytes.now (length pos.old) (length h.old) (length face_normals.old)) ≡ Ok tt }
    ensures counts { result ≡ counts_of file.now.bytes.now }
    ensures pos { pos.new ≡ filled (point_item file.now.bytes.now) (3 * point_count file.now.bytes.now) pos.old }
    ensures h { h.new ≡ filled (halfedge_item file.now.bytes.now) (halfedge_count file.now.bytes.now * halfedge_stride) h.old }
    ensures face_normals { face_normals.new ≡ filled (normal_item file.now.bytes.now) (3 * triangle_count file.now.bytes.now) face_normals.old }
{
    let written = points::write_points(file, pos, h);
    pairs::write_pairs(file, h);
    write_normals(file, face_normals);
    MeshCounts {
        halfedges: 3 * file.triangles,
        points: written,
    }
}

// Takes the triangles of a binary STL file. Corners with equal bits become one point (-0 is taken as 0), numbered by first appearance;
// each triangle keeps its place, and its first halfedge starts at its first corner; each directed edge is paired with its reverse, and
// a halfedge's row is its own number. `pos` and `face_normals` take three numbers for each point and triangle, `h` four for each
// halfedge; places beyond stay as lent.
pub fn read_stl(
    file: &[u8],
    pos: &mut [f64],
    h: &mut [i32],
    face_normals: &mut [f64],
) -> Result<MeshCounts, Refusal>
    ensures answer { result ≡ read_stl file.now pos.old h.old face_normals.old }
    ensures pos_filled { pos.new ≡ pos_after file.now pos.old h.old face_normals.old }
    ensures h_filled { h.new ≡ h_after file.now pos.old h.old face_normals.old }
    ensures face_normals_filled { face_normals.new ≡ face_normals_after file.now pos.old h.old face_normals.old }
    ensures values { Values (check_lists file.now pos.old h.old face_normals.old) file.now result }
    ensures mesh { IsMesh result pos.new h.new face_normals.new }
    ensures paired { PairedExactly file.now result }
{
    let sized = questions::ask_at(Question::Size, 0, file::length_fits(file));
    let Ok(()) = sized else {
        return questions::refused(sized);
    };
    let triangles = file::triangle_count(file);
    let file = File {
        bytes: file,
        triangles,
    };
    let checked = check_file(
        &file,
        has_room(&file, pos.len(), h.len(), face_normals.len()),
    );
    let Ok(()) = checked else {
        return questions::refused(checked);
    };
    Ok(write_lists(&file, pos, h, face_normals))
}
