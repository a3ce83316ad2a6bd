// The points of a file, a block of corners at a time and with arrays of the call's own: their number, and their writing together
// with the start of each halfedge.
// Each function asks for its own corner, and how many are done stays a parameter: both differ from call to call. The written lists
// stay parameters: of a struct that lends them a clause would say `lists.new.pos.now` for `pos.new`.

ghost use Rattle.std.specs.Prelude.{◌≡◌, ◌+◌, ◌*◌, ◌<◌, ◌≤◌, length, leb};
ghost use Rattle.common.specs.Count.{count_below};
ghost use Rattle.mesh.specs.Mesh.{halfedge_stride, max_points};
ghost use Rattle.little_endian.specs.Filled.{filled};
ghost use Rattle.stl.specs.File.Points.{is_first, point_count};
ghost use Rattle.stl.specs.File.Lists.{point_item};
ghost use Rattle.stl.specs.File.Starts.{Starts, Further};
ghost use Rattle.stl.specs.declared.table.Keys.TheVariants.{Points};
ghost use Rattle.stl.specs.Table.Tree.{Indexed};
ghost use Rattle.stl.specs.Points.Firsts.{InBlock, Marked};
ghost use Rattle.stl.specs.Points.CanStart.{put_point, Written, CanStart};

use crate::file::{Corner, File};
use crate::table::{BLOCK, Block, Keys, SLOTS};
use crate::{file, table};
use mesh::HALFEDGE_STRIDE;

// The block's places enter the table, and `first` gets the lowest of them with the key of each.
#[tactic(auto, using(crate::proofs::PointsLaws::Marks::entered_few))]
fn enter_all(block: &Block<'_>, table: &mut [u16], tags: &mut [u8], first: &mut [u32])
    requires { Indexed block.now 0 table.old tags.old × (block.now.count ≤ length first.old) }
    ensures table { Indexed block.now block.now.count table.new tags.new }
    ensures first { InBlock block.now block.now.count first.new }
{
    for m in 0..block.count {
        let lowest = table::enter(block, m, table, tags);
        first[m] = (block.lo + lowest) as u32;
    }
}

// Place j, below the block, is put down for the block's lowest place that has its key.
fn mark(block: &Block<'_>, table: &[u16], tags: &[u8], j: usize, first: &mut [u32])
    requires { Indexed block.now block.now.count table.now tags.now × (block.now.count ≤ length first.old) × (j < block.now.lo) × Marked block.now (j + 1) first.old }
    ensures { Marked block.now j first.new }
{
    let key = table::key_at(&block.file, block.keys, j);
    let k = table::find(block, block.count, table, tags, key);
    if k < block.count {
        first[k] = j as u32;
    }
}

// From the block down, so that the lowest place is put down last.
#[tactic(auto, using(crate::proofs::PointsLaws::Marks::marked_start))]
fn mark_all(block: &Block<'_>, table: &[u16], tags: &[u8], first: &mut [u32])
    requires { Indexed block.now block.now.count table.now tags.now × (block.now.count ≤ length first.old) × InBlock block.now block.now.count first.old }
    ensures { Marked block.now 0 first.new }
{
    for j in (0..block.lo).rev() {
        mark(block, table, tags, j, first);
    }
}

// For each of the block's places a place with its key and no higher, and itself only where none is lower.
#[inline(never)]
fn firsts(block: &Block<'_>, first: &mut [u32])
    requires { block.now.count ≤ length first.old }
    ensures { Marked block.now 0 first.new }
{
    let mut table = [0; SLOTS];
    let mut tags = [0; BLOCK];
    enter_all(block, &mut table, &mut tags, first);
    mark_all(block, &table, &tags, first);
}

// How many corners up to the block's end are the first of their point, where so many are below the block.
fn count_block(block: &Block<'_>, first: &[u32], below: usize) -> usize
    requires { (block.now.keys ≡ Points) × Marked block.now 0 first.now × (block.now.count ≤ length first.now) × (below ≡ count_below (is_first block.now.file.bytes.now) block.now.lo) }
    ensures { result ≡ count_below (is_first block.now.file.bytes.now) (block.now.lo + block.now.count) }
{
    let mut points = below;
    for k in 0..block.count {
        points += usize::from(first[k] as usize == block.lo + k);
    }
    points
}

// The number of points.
#[inline(never)]
fn count_points(file: &File<'_>) -> usize
    ensures { result ≡ point_count file.now.bytes.now }
{
    let mut first = [0; BLOCK];
    let n = 3 * file.triangles;
    let mut points = 0;
    let mut lo = 0;
    while lo < n {
        let count = table::block_count(n - lo);
        let block = Block {
            file: *file,
            keys: Keys::Points,
            lo,
            count,
        };
        firsts(&block, &mut first);
        points = count_block(&block, &first, points);
        lo += count;
    }
    points
}

// The second half of question 30. Where there are no more corners than points may be, none is counted.
#[tactic(auto, using(crate::proofs::PointsLaws::Counts::points_within))]
pub fn points_fit(file: &File<'_>) -> bool
    ensures { result ≡ leb (point_count file.now.bytes.now) max_points }
{
    if 3 * file.triangles <= mesh::MAX_POINTS {
        return true;
    }
    count_points(file) <= mesh::MAX_POINTS
}

// The three numbers of point v, which appears at this corner. Not `put_point` of `smoothing`, which writes a point of f64: a corner
// has the bits of f32, and the reading uses neither `smoothing` nor `linalg`.
#[tactic(auto, unfolding(crate::specs::File::Lists::coordinate, crate::specs::Points::CanStart::put_point))]
fn put_point(pos: &mut [f64], v: usize, corner: Corner)
    requires { 3 * v + 3 ≤ length pos.old }
    ensures { pos.new ≡ put_point pos.old v corner }
{
    pos[3 * v] = float::widen_bits(corner.x);
    pos[3 * v + 1] = float::widen_bits(corner.y);
    pos[3 * v + 2] = float::widen_bits(corner.z);
}

// The start of the block's halfedge k, after so many points: a corner that is the first of its point writes it, and another one
// starts where the lower corner in `first` does. The number of points then.
#[tactic(auto, using(crate::proofs::PointsLaws::Writing::lower_in))]
fn write_start(
    block: &Block<'_>,
    first: &[u32],
    k: usize,
    below: usize,
    pos: &mut [f64],
    h: &mut [i32],
) -> usize
    requires { CanStart block.now first.now k below pos.old h.old }
    ensures { Written block.now.file (block.now.lo + (k + 1)) result pos.old pos.new h.old h.new }
{
    let c = block.lo + k;
    let lower = first[k] as usize;
    if lower == c {
        put_point(pos, below, file::corner_at(&block.file, c));
        h[c * HALFEDGE_STRIDE] = below as i32;
        return below + 1;
    }
    h[c * HALFEDGE_STRIDE] = h[lower * HALFEDGE_STRIDE];
    below
}

// The same of all the block's halfedges.
fn write_block(
    block: &Block<'_>,
    first: &[u32],
    below: usize,
    pos: &mut [f64],
    h: &mut [i32],
) -> usize
    requires { CanStart block.now first.now 0 below pos.old h.old }
    ensures { Written block.now.file (block.now.lo + block.now.count) result pos.old pos.new h.old h.new }
{
    let mut written = below;
    for k in 0..block.count {
        written = write_start(block, first, k, written, pos, h);
    }
    written
}

// The points, and the start of each halfedge, into lists with room for them. The number of points.
#[inline(never)]
pub fn write_points(file: &File<'_>, pos: &mut [f64], h: &mut [i32]) -> usize
    requires { (9 * file.now.triangles ≤ length pos.old) × (12 * file.now.triangles ≤ length h.old) }
    ensures count { result ≡ point_count file.now.bytes.now }
    ensures pos { pos.new ≡ filled (point_item file.now.bytes.now) (3 * point_count file.now.bytes.now) pos.old }
    ensures starts { Starts file.now.bytes.now (3 * file.now.triangles) h.new }
    ensures further { Further (3 * file.now.triangles * halfedge_stride) h.old h.new }
{
    let mut first = [0; BLOCK];
    let n = 3 * file.triangles;
    let mut written = 0;
    let mut lo = 0;
    while lo < n {
        let count = table::block_count(n - lo);
        let block = Block {
            file: *file,
            keys: Keys::Points,
            lo,
            count,
        };
        firsts(&block, &mut first);
        written = write_block(&block, &first, written, pos, h);
        lo += count;
    }
    written
}
