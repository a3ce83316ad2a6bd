// A table of the keys of a block of places: a digital search tree below each root slot, so that no file makes a walk long. A slot
// holds 0 or, plus 1, the number of a node; node k is place lo + k of the file, and has two child slots. The first bits that choose
// among the children are those of a hash, and after them come those of the key itself. A list beside the table has the tag of each
// node, 8 bits of the hash: nearly every node with another key is told by its tag, without a read of the file.
// How many places are in the table (`m`) and which place is asked for stay parameters: they differ from call to call.

mod block;

ghost use Rattle.std.specs.Prelude.{◌≡◌, min, ◌+◌, ◌*◌, ◌<◌, ◌≤◌, length, get_or};
ghost use Rattle.stl.specs.Table.Size.{block_size};
ghost use Rattle.stl.specs.Table.Keys.{key_at, has_key, first_at};
ghost use Rattle.stl.specs.Table.Tree.{hash_of, root_of, tag_of, tag_at, word_of, child_of, Indexed, Ends};

use crate::file;
use crate::file::{Corner, File};
pub use block::Block;

// The most places of a block: a node's number plus 1 fits a u16.
pub const BLOCK: usize = 65535;

// The slots of a table: so many roots, and two children for each node.
const ROOTS: usize = 131072;

pub const SLOTS: usize = ROOTS + 2 * BLOCK;

// What the places are looked for by: a corner by its point, or a halfedge by its directed edge.
#[derive(Clone, Copy)]
pub enum Keys {
    Points,
    Edges,
}

// The two ends of a directed edge. A point's key has its corner twice.
#[derive(Clone, Copy, PartialEq, Eq)]
pub struct Key {
    pub start: Corner,
    pub end: Corner,
}

// Where a walk stands: a slot, the bits that choose the next children, and how many of the key's were used.
#[derive(Clone, Copy)]
pub struct Path {
    pub slot: usize,
    pub bits: u32,
    pub depth: u32,
}

// How many places the next block has, where so many are left.
pub fn block_count(left: usize) -> usize
    ensures { result ≡ min left block_size }
{
    left.min(BLOCK)
}

// The key of place p.
#[tactic(auto, unfolding(crate::specs::Table::Keys::key_at))]
pub fn key_at(file: &File<'_>, keys: Keys, p: usize) -> Key
    requires { p < 3 * file.now.triangles }
    ensures { result ≡ key_at file.now.bytes.now keys p }
{
    let start = file::corner_at(file, p);
    match keys {
        Keys::Points => Key { start, end: start },
        Keys::Edges => Key {
            start,
            end: file::corner_at(file, mesh::next_halfedge(p)),
        },
    }
}

// A hash of the six numbers: their sum with six factors, by a prime. It makes walks short, and no result depends on it.
#[tactic(auto, unfolding(crate::specs::Table::Tree::hash_of))]
fn hash(key: Key) -> u32
    ensures { result ≡ hash_of key }
{
    let first = key.start.x as u64 * 0x1e37_79b1
        + key.start.y as u64 * 0x15eb_ca77
        + key.start.z as u64 * 0x1a85_ebcb;
    let second = key.end.x as u64 * 0x12b2_ae3d
        + key.end.y as u64 * 0x0765_71f7
        + key.end.z as u64 * 0x1165_667b;
    ((first + second) % 4294967291) as u32
}

// Where the walk of a key begins.
#[tactic(auto, unfolding(crate::specs::Table::Tree::root_of))]
fn root(key: Key) -> Path
    ensures { result ≡ root_of key }
{
    let hash = hash(key);
    Path {
        slot: hash as usize % ROOTS,
        bits: hash / ROOTS as u32,
        depth: 0,
    }
}

// The tag of a key whose walk begins so.
#[tactic(auto, unfolding(crate::specs::Table::Tree::tag_of))]
fn tag(at: Path) -> u8
    ensures { result ≡ tag_of at }
{
    (at.bits / 128 % 256) as u8
}

// Number i of the key, from 1 on.
#[tactic(auto, unfolding(crate::specs::Table::Tree::word_of))]
fn word(key: Key, i: u32) -> u32
    ensures { result ≡ word_of key i }
{
    match i {
        1 => key.start.x,
        2 => key.start.y,
        3 => key.start.z,
        4 => key.end.x,
        5 => key.end.y,
        6 => key.end.z,
        _ => 0,
    }
}

// From the slot of node k to that of its child. The depth is kept small by a remainder: no walk uses more than the bits of a key.
#[tactic(auto, unfolding(crate::specs::Table::Tree::child_of))]
fn child(key: Key, k: usize, at: Path) -> Path
    requires { k < block_size }
    ensures { result ≡ child_of key k at }
{
    let slot = ROOTS + 2 * k + (at.bits % 2) as usize;
    let depth = at.depth % 256 + 1;
    let bits = if depth % 32 == 0 {
        word(key, depth / 32)
    } else {
        at.bits / 2
    };
    Path { slot, bits, depth }
}

// Whether node k has the key, which has this tag.
fn has_key(block: &Block<'_>, tags: &[u8], k: usize, key: Key, tag: u8) -> bool
    requires { (k < block.now.count) × (k < length tags.now) × (get_or tags.now k 0 ≡ tag_at block.now k) × (tag ≡ tag_of (root_of key)) }
    ensures { result ≡ has_key block.now key k }
{
    if tags[k] != tag {
        return false;
    }
    key_at(&block.file, block.keys, block.lo + k) == key
}

// The walk of a key through a table of the block's first m places: the node that has it, or the empty slot where it belongs.
fn look(block: &Block<'_>, m: usize, table: &[u16], tags: &[u8], key: Key) -> Result<usize, usize>
    requires { Indexed block.now m table.now tags.now }
    ensures { Ends block.now table.now key result }
{
    let mut at = root(key);
    let tag = tag(at);
    let mut node = usize::from(table[at.slot]);
    while node != 0 {
        let k = node - 1;
        if has_key(block, tags, k, key, tag) {
            return Ok(k);
        }
        at = child(key, k, at);
        node = usize::from(table[at.slot]);
    }
    Err(at.slot)
}

// The lowest of the block's first m places that has the key, counted from its first place; m where there is none.
pub fn find(block: &Block<'_>, m: usize, table: &[u16], tags: &[u8], key: Key) -> usize
    requires { Indexed block.now m table.now tags.now }
    ensures { result ≡ first_at block.now key m }
{
    look(block, m, table, tags, key).unwrap_or(m)
}

// Place m of the block enters the table, where no lower one has its key. The lowest place that has it, which is m where it is new.
pub fn enter(block: &Block<'_>, m: usize, table: &mut [u16], tags: &mut [u8]) -> usize
    requires { (m < block.now.count) × Indexed block.now m table.old tags.old }
    ensures lowest { result ≡ first_at block.now (key_at block.now.file.bytes.now block.now.keys (block.now.lo + m)) m }
    ensures table { Indexed block.now (m + 1) table.new tags.new }
{
    let key = key_at(&block.file, block.keys, block.lo + m);
    tags[m] = tag(root(key));
    match look(block, m, table, tags, key) {
        Ok(k) => k,
        Err(slot) => {
            table[slot] = (m + 1) as u16;
            m
        }
    }
}
