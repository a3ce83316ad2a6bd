// A binary STL file, whose numbers are read at their places: corners with their bits, normals as floats.

ghost use Rattle.std.specs.Prelude.{◌≡◌, ◌+◌, ◌*◌, ◌<◌, ◌≤◌, ◌^◌, length};
ghost use Rattle.mesh.specs.Mesh.{max_halfedges};
ghost use Rattle.stl.specs.File.File.{clean, triangle_count, length_fits, corner_at, triangle_at, normal_item};

use little_endian::LittleEndian;

// Header, count of triangles and normal stand before the first corner; a triangle has so many bytes, and a corner so many of them.
const COUNT_OFFSET: usize = 80;

const TRIANGLES_OFFSET: usize = 84;

const TRIANGLE_BYTES: usize = 50;

const CORNER_BYTES: usize = 12;

const FLOAT_BYTES: usize = 4;

// The bytes of a file, as long as the count of its triangles says, and this count, which is within its limit.
#[derive(Clone, Copy)]
pub struct File<'a> {
    pub bytes: &'a [u8],
    pub triangles: usize,
    pub ghost counted: { triangles ≡ triangle_count bytes.now },
    pub ghost long: { 84 + 50 * triangles ≡ length bytes.now },
    pub ghost few: { 3 * triangles ≤ max_halfedges },
}

// The bits of a corner's three f32 numbers, with 0 for -0.
#[derive(Clone, Copy, PartialEq, Eq)]
pub struct Corner {
    pub x: u32,
    pub y: u32,
    pub z: u32,
}

// The corners of a triangle.
#[derive(Clone, Copy)]
pub struct Triangle {
    pub a: Corner,
    pub b: Corner,
    pub c: Corner,
}

// -0 is taken as 0.
#[tactic(auto, unfolding(crate::specs::File::File::clean))]
fn clean(bits: u32) -> u32
    ensures { result ≡ clean bits }
{
    if bits == 0x8000_0000 { 0 } else { bits }
}

// How many triangles the file says that it has.
#[tactic(auto, unfolding(crate::specs::File::File::triangle_count))]
pub fn triangle_count(bytes: &[u8]) -> usize
    requires { 84 ≤ length bytes.now }
    ensures count { result ≡ triangle_count bytes.now }
    ensures small { result < 2 ^ 32 }
{
    u32::read(bytes, COUNT_OFFSET) as usize
}

// Question 30 of the file: its length, and three halfedges for each triangle.
pub fn length_fits(bytes: &[u8]) -> bool
    ensures { result ≡ length_fits bytes.now }
{
    if bytes.len() < TRIANGLES_OFFSET {
        return false;
    }
    let triangles = triangle_count(bytes);
    (bytes.len() == TRIANGLES_OFFSET + TRIANGLE_BYTES * triangles)
        & (3 * triangles <= mesh::MAX_HALFEDGES)
}

// Corner c % 3 of triangle c / 3.
#[tactic(auto, unfolding(crate::specs::File::File::corner_at, crate::specs::File::File::corner_offset))]
pub fn corner_at(file: &File<'_>, c: usize) -> Corner
    requires { c < 3 * file.now.triangles }
    ensures { result ≡ corner_at file.now.bytes.now c }
{
    let at = TRIANGLES_OFFSET + CORNER_BYTES + TRIANGLE_BYTES * (c / 3) + CORNER_BYTES * (c % 3);
    Corner {
        x: clean(u32::read(file.bytes, at)),
        y: clean(u32::read(file.bytes, at + FLOAT_BYTES)),
        z: clean(u32::read(file.bytes, at + 2 * FLOAT_BYTES)),
    }
}

#[tactic(auto, unfolding(crate::specs::File::File::triangle_at))]
pub fn triangle_at(file: &File<'_>, t: usize) -> Triangle
    requires { t < file.now.triangles }
    ensures { result ≡ triangle_at file.now.bytes.now t }
{
    let first = 3 * t;
    Triangle {
        a: corner_at(file, first),
        b: corner_at(file, first + 1),
        c: corner_at(file, first + 2),
    }
}

// Number i % 3 of the normal of triangle i / 3.
#[tactic(auto, unfolding(crate::specs::File::File::normal_item))]
pub fn normal_number(file: &File<'_>, i: usize) -> f64
    requires { i < 3 * file.now.triangles }
    ensures { result ≡ normal_item file.now.bytes.now i }
{
    let at = TRIANGLES_OFFSET + TRIANGLE_BYTES * (i / 3) + FLOAT_BYTES * (i % 3);
    float::widen_bits(u32::read(file.bytes, at))
}
