// The pairing of a file's directed edges, a block of halfedges at a time and with arrays of the call's own: the lowest halfedge that
// question 32 refuses, and the writing of end, pair and row of each halfedge.
// Each function asks for its own halfedge, and how many are done stays a parameter: both differ from call to call.

ghost use Rattle.std.specs.Prelude.{◌≡◌, ◌⊎◌, true, ◌+◌, ◌*◌, ◌<◌, ◌≤◌, length};
ghost use Rattle.mesh.specs.Mesh.{halfedge_stride};
ghost use Rattle.common.specs.Lowest.{lowest};
ghost use Rattle.little_endian.specs.Filled.{filled};
ghost use Rattle.stl.specs.File.Edges.{is_paired};
ghost use Rattle.stl.specs.File.Lists.{halfedge_item};
ghost use Rattle.stl.specs.declared.table.Keys.TheVariants.{Edges};
ghost use Rattle.stl.specs.Table.Tree.{Indexed};
ghost use Rattle.stl.specs.File.Starts.{Starts, Further};
ghost use Rattle.stl.specs.Pairs.Twins.{reverse_key, Covered, Scanned};
ghost use Rattle.stl.specs.Pairs.Written.{AllPaired, EndsRows, CanEnd, Below, Done, Paired, Kept, CanPair};

use crate::file::{File, Triangle};
use crate::table::{BLOCK, Block, Key, Keys, SLOTS};
use crate::{file, table};
use mesh::HALFEDGE_STRIDE;

// No halfedge. An Option would take twice the room, and the arrays are the call's own, on its stack.
const NONE: u32 = u32::MAX;

// The keys of the reverses of a triangle's three directed edges.
#[derive(Clone, Copy)]
struct ReverseKeys {
    first: Key,
    second: Key,
    third: Key,
}

#[tactic(auto, using(crate::proofs::PairsLaws::Backs::triangle_first, crate::proofs::PairsLaws::Backs::triangle_second, crate::proofs::PairsLaws::Backs::triangle_third))]
fn reverse_keys(file: &File<'_>, t: usize) -> ReverseKeys
    requires { t < file.now.triangles }
    ensures first { result.first ≡ reverse_key file.now.bytes.now (3 * t) }
    ensures second { result.second ≡ reverse_key file.now.bytes.now (3 * t + 1) }
    ensures third { result.third ≡ reverse_key file.now.bytes.now (3 * t + 2) }
{
    let Triangle { a, b, c } = file::triangle_at(file, t);
    ReverseKeys {
        first: Key { start: b, end: a },
        second: Key { start: c, end: b },
        third: Key { start: a, end: c },
    }
}

// The block's places enter the table.
fn enter_all(block: &Block<'_>, table: &mut [u16], tags: &mut [u8])
    requires { Indexed block.now 0 table.old tags.old }
    ensures { Indexed block.now block.now.count table.new tags.new }
{
    for m in 0..block.count {
        table::enter(block, m, table, tags);
    }
}

// Halfedge f, whose reverse has this key, is put down for the halfedge that it leads back to. Where another one was before, both have
// one directed edge: the lower, which was first, is refused, and stands for `worst` where it is below.
fn scan_one(
    block: &Block<'_>,
    table: &[u16],
    tags: &[u8],
    f: usize,
    key: Key,
    twins: &mut [u32],
    worst: usize,
) -> usize
    requires { (block.now.keys ≡ Edges) × (key ≡ reverse_key block.now.file.bytes.now f) × Indexed block.now block.now.count table.now tags.now × (f < 3 * block.now.file.triangles) × Scanned block.now f twins.old worst }
    ensures { Scanned block.now (f + 1) twins.new result }
{
    let k = table::find(block, block.count, table, tags, key);
    if k >= block.count {
        return worst;
    }
    if twins[k] == NONE {
        twins[k] = f as u32;
        return worst;
    }
    worst.min(twins[k] as usize)
}

// The halfedges of triangle t. Its corners are read once.
fn scan_triangle(
    block: &Block<'_>,
    table: &[u16],
    tags: &[u8],
    t: usize,
    twins: &mut [u32],
    worst: usize,
) -> usize
    requires { (block.now.keys ≡ Edges) × Indexed block.now block.now.count table.now tags.now × (t < block.now.file.triangles) × Scanned block.now (3 * t) twins.old worst }
    ensures { Scanned block.now (3 * (t + 1)) twins.new result }
{
    let keys = reverse_keys(&block.file, t);
    let e = 3 * t;
    let first = scan_one(block, table, tags, e, keys.first, twins, worst);
    let second = scan_one(block, table, tags, e + 1, keys.second, twins, first);
    scan_one(block, table, tags, e + 2, keys.third, twins, second)
}

// For each of the block's halfedges the lowest of the file that leads back to it, or NONE, into `twins`; and the lowest halfedge that
// is seen to have another one's directed edge, or `worst` where that is lower.
#[inline(never)]
fn scan(block: &Block<'_>, twins: &mut [u32], worst: usize) -> usize
    requires { (block.now.keys ≡ Edges) × (block.now.count ≤ length twins.old) × Covered block.now.file.bytes.now block.now.lo worst }
    ensures { Scanned block.now (3 * block.now.file.triangles) twins.new result }
{
    let mut table = [0; SLOTS];
    let mut tags = [0; BLOCK];
    enter_all(block, &mut table, &mut tags);
    twins.fill(NONE);
    let mut lowest = worst;
    for t in 0..block.file.triangles {
        lowest = scan_triangle(block, &table, &tags, t, twins, lowest);
    }
    lowest
}

// The lowest of `worst` and the block's halfedges to which none leads back.
fn lowest_alone(block: &Block<'_>, twins: &[u32], worst: usize) -> usize
    requires { (block.now.keys ≡ Edges) × Scanned block.now (3 * block.now.file.triangles) twins.now worst }
    ensures { Covered block.now.file.bytes.now (block.now.lo + block.now.count) result }
{
    for k in 0..block.count {
        if twins[k] == NONE {
            return worst.min(block.lo + k);
        }
    }
    worst
}

// The lowest halfedge whose directed edge occurs twice or has no reverse; their number where there is none.
#[inline(never)]
pub fn lowest_unpaired(file: &File<'_>) -> usize
    ensures { result ≡ lowest (is_paired file.now.bytes.now) (3 * file.now.triangles) }
{
    let mut twins = [0; BLOCK];
    let n = 3 * file.triangles;
    let mut worst = n;
    let mut lo = 0;
    while lo < n {
        let count = table::block_count(n - lo);
        let block = Block {
            file: *file,
            keys: Keys::Edges,
            lo,
            count,
        };
        worst = scan(&block, &mut twins, worst);
        worst = lowest_alone(&block, &twins, worst);
        lo += count;
    }
    worst
}

// End and row of halfedge e. Each halfedge has its start already.
fn write_end(file: &File<'_>, e: usize, h: &mut [i32])
    requires { CanEnd file.now e h.old }
    ensures ends { EndsRows file.now.bytes.now (e + 1) h.new }
    ensures starts { Starts file.now.bytes.now (3 * file.now.triangles) h.new }
    ensures further { Further (3 * file.now.triangles * halfedge_stride) h.old h.new }
{
    let at = e * HALFEDGE_STRIDE;
    h[at + 1] = h[mesh::next_halfedge(e) * HALFEDGE_STRIDE];
    h[at + 3] = e as i32;
}

// End and row of every halfedge.
fn write_ends(file: &File<'_>, h: &mut [i32])
    requires { Starts file.now.bytes.now (3 * file.now.triangles) h.old × (12 * file.now.triangles ≤ length h.old) }
    ensures ends { EndsRows file.now.bytes.now (3 * file.now.triangles) h.new }
    ensures starts { Starts file.now.bytes.now (3 * file.now.triangles) h.new }
    ensures further { Further (3 * file.now.triangles * halfedge_stride) h.old h.new }
{
    for e in 0..3 * file.triangles {
        write_end(file, e, h);
    }
}

// Halfedge f, whose reverse has this key, and the block's halfedge that it leads back to get each other as their pair.
fn write_pair(block: &Block<'_>, table: &[u16], tags: &[u8], f: usize, key: Key, h: &mut [i32])
    requires { (f < 3 * block.now.file.triangles) × (key ≡ reverse_key block.now.file.bytes.now f) × CanPair block.now table.now tags.now f h.old }
    ensures pairs { CanPair block.now table.now tags.now (f + 1) h.new }
    ensures kept { Kept (3 * block.now.file.triangles * halfedge_stride) h.old h.new }
{
    let k = table::find(block, block.count, table, tags, key);
    if k < block.count {
        let e = block.lo + k;
        h[f * HALFEDGE_STRIDE + 2] = e as i32;
        h[e * HALFEDGE_STRIDE + 2] = f as i32;
    }
}

// The halfedges of triangle t.
fn write_triangle(block: &Block<'_>, table: &[u16], tags: &[u8], t: usize, h: &mut [i32])
    requires { (t < block.now.file.triangles) × CanPair block.now table.now tags.now (3 * t) h.old }
    ensures pairs { CanPair block.now table.now tags.now (3 * (t + 1)) h.new }
    ensures kept { Kept (3 * block.now.file.triangles * halfedge_stride) h.old h.new }
{
    let keys = reverse_keys(&block.file, t);
    let e = 3 * t;
    write_pair(block, table, tags, e, keys.first, h);
    write_pair(block, table, tags, e + 1, keys.second, h);
    write_pair(block, table, tags, e + 2, keys.third, h);
}

// The pairs of which one halfedge is the block's, and none below it: of the block's halfedges and those after them.
#[inline(never)]
fn write_block(block: &Block<'_>, h: &mut [i32])
    requires { (block.now.keys ≡ Edges) × AllPaired block.now.file.bytes.now × Paired block.now.file.bytes.now (Below block.now.file.bytes.now block.now.lo) h.old × (12 * block.now.file.triangles ≤ length h.old) }
    ensures pairs { Paired block.now.file.bytes.now (Below block.now.file.bytes.now (block.now.lo + block.now.count)) h.new }
    ensures kept { Kept (3 * block.now.file.triangles * halfedge_stride) h.old h.new }
{
    let mut table = [0; SLOTS];
    let mut tags = [0; BLOCK];
    enter_all(block, &mut table, &mut tags);
    for t in block.lo / 3..block.file.triangles {
        write_triangle(block, &table, &tags, t, h);
    }
}

// End, pair and row of every halfedge, where each has its start and all are paired.
pub fn write_pairs(file: &File<'_>, h: &mut [i32])
    requires { AllPaired file.now.bytes.now × Starts file.now.bytes.now (3 * file.now.triangles) h.old × (12 * file.now.triangles ≤ length h.old) }
    ensures { h.new ≡ filled (halfedge_item file.now.bytes.now) (3 * file.now.triangles * halfedge_stride) h.old }
{
    write_ends(file, h);
    let n = 3 * file.triangles;
    let mut lo = 0;
    while lo < n {
        let count = table::block_count(n - lo);
        let block = Block {
            file: *file,
            keys: Keys::Edges,
            lo,
            count,
        };
        write_block(&block, h);
        lo += count;
    }
}
