// Reads the records of an input, an operation and a mesh, into lent lists. The format is specs/Records.antt's; it is the input of the
// program `tangents`.
#![tactic(auto)]

ghost use Rattle.std.specs.Prelude.{◌≡◌, ◌+◌, ◌*◌, ◌<◌, ◌≤◌, ◌^◌, length};
ghost use Rattle.little_endian.specs.Numbers.{f64_item, i32_item, byte_item};
ghost use Rattle.little_endian.specs.Filled.{filled};
ghost use Rattle.mesh.specs.Mesh.{halfedge_stride};
ghost use Rattle.questions.specs.Check.{answer_of};
ghost use Rattle.records.specs.Records.{operation_answer, check_record, body_bytes, body_at, bodies, positions_at, check_bodies, check_records, input_in, parse_input, Values};
ghost use Rattle.records.specs.Lists.{MeshRoom, SpreadRoom, if_spread, has_room, lists_of, check_reading, read_answer, read_lists};

use little_endian::LittleEndian;
use questions::{Question, Refusal};

// The longest input.
pub const MAX_INPUT: usize = 65536;

// A record's header: u32 body length, u16 kind.
const HEADER_BYTES: usize = 6;

// Where the record of the counts is, and where the record of the positions.
const COUNTS_AT: usize = HEADER_BYTES + 1;

const POSITIONS_AT: usize = COUNTS_AT + HEADER_BYTES + 4;

// The bytes of a point's position or normal, of a halfedge's numbers, and of a tangent.
const POINT_BYTES: usize = 24;

const HALFEDGE_BYTES: usize = 16;

const TANGENT_BYTES: usize = 32;

// The bytes of an input that has the records up to the tangents, and no point and no halfedge.
const LEAST_INPUT: usize = POSITIONS_AT + 3 * HEADER_BYTES;

// The most points and the most halfedges that an input can have: every input has positions, halfedges and tangents.
pub const MAX_POINTS: usize = (MAX_INPUT - LEAST_INPUT) / POINT_BYTES;

pub const MAX_HALFEDGES: usize = (MAX_INPUT - LEAST_INPUT) / (HALFEDGE_BYTES + TANGENT_BYTES);

// What is to be done with the mesh of an input, each with its number.
#[derive(Clone, Copy, PartialEq, Eq)]
pub enum Operation {
    Straighten = 1,
    Spread = 2,
    Check = 3,
}

impl TryFrom<u8> for Operation {
    type Error = Refusal;

    ghost try_from_gives = { λ number r. r ≡ operation_answer number };

    fn try_from(number: u8) -> Result<Operation, Refusal> {
        match number {
            1 => Ok(Operation::Straighten),
            2 => Ok(Operation::Spread),
            3 => Ok(Operation::Check),
            _ => Err(Refusal {
                question: Question::Operation,
                place: 0,
            }),
        }
    }
}

// The kinds of records, each with its number, in the order in which they are due.
#[derive(Clone, Copy, PartialEq, Eq)]
pub enum Kind {
    Operation = 1,
    Counts = 2,
    Positions = 3,
    Halfedges = 4,
    Tangents = 5,
    Normals = 6,
    Fixed = 7,
}

const KINDS: [Kind; 7] = [
    Kind::Operation,
    Kind::Counts,
    Kind::Positions,
    Kind::Halfedges,
    Kind::Tangents,
    Kind::Normals,
    Kind::Fixed,
];

// How many points and halfedges an input has.
#[derive(Clone, Copy, PartialEq, Eq)]
pub struct Counts {
    pub points: u16,
    pub halfedges: u16,
}

// An input that is accepted.
#[derive(Clone, Copy, PartialEq, Eq)]
pub struct Input {
    pub operation: Operation,
    pub counts: Counts,
}

// The questions of the record of a kind, with so many bytes, that is due at `at`.
#[tactic(auto, using(crate::proofs::Parse::steps))]
fn check_record(s: &[u8], at: usize, kind: Kind, bytes: usize) -> Result<(), Refusal>
    requires { at ≤ length s.now }
    ensures { result ≡ check_record s.now at kind bytes }
{
    let left = s.len() - at;
    questions::ask_at(Question::Fits, at, HEADER_BYTES <= left)?;
    let body_length = u32::read(s, at) as usize;
    questions::ask_at(Question::Fits, at, body_length <= left - HEADER_BYTES)?;
    questions::ask_at(Question::Kind, at, u16::read(s, at + 4) == kind as u16)?;
    questions::ask_at(Question::Body, at, body_length == bytes)
}

// The body length that the counts call for.
fn body_bytes(counts: Counts, kind: Kind) -> usize
    ensures bytes { result ≡ body_bytes counts.points counts.halfedges kind }
    ensures few { result < 2 ^ 21 }
{
    let points = usize::from(counts.points);
    let halfedges = usize::from(counts.halfedges);
    match kind {
        Kind::Operation => 1,
        Kind::Counts => 4,
        Kind::Positions | Kind::Normals => POINT_BYTES * points,
        Kind::Halfedges => HALFEDGE_BYTES * halfedges,
        Kind::Tangents => TANGENT_BYTES * halfedges,
        Kind::Fixed => halfedges,
    }
}

// Where the body of a kind is.
fn body_at(counts: Counts, kind: Kind) -> usize
    ensures { result ≡ body_at counts.points counts.halfedges kind }
{
    let mut at = HEADER_BYTES;
    for before in &KINDS[..kind as usize - 1] {
        at += HEADER_BYTES + body_bytes(counts, *before);
    }
    at
}

// The records after the counts: spreading has point normals and fixed halfedges too.
fn bodies(operation: Operation) -> &'static [Kind]
    ensures { result.now ≡ bodies operation }
{
    match operation {
        Operation::Spread => &KINDS[2..],
        Operation::Straighten | Operation::Check => &KINDS[2..5],
    }
}

// The records after the counts, and the end of the input.
#[tactic(auto, unfolding(crate::specs::Records::check_bodies))]
fn check_bodies(s: &[u8], kinds: &[Kind], counts: Counts) -> Result<(), Refusal>
    requires { positions_at ≤ length s.now }
    ensures { result ≡ check_bodies s.now counts.points counts.halfedges kinds.now positions_at }
{
    let mut place = POSITIONS_AT;
    for kind in kinds {
        let bytes = body_bytes(counts, *kind);
        check_record(s, place, *kind, bytes)?;
        place += HEADER_BYTES + bytes;
    }
    questions::ask_at(Question::End, place, place == s.len())
}

// The records of an input that is not too long.
#[tactic(auto, using(crate::proofs::Parse::within, crate::proofs::Parse::known), unfolding(crate::specs::Records::check_records))]
fn parse_records(s: &[u8]) -> Result<Input, Refusal>
    ensures { result ≡ answer_of (check_records s.now) (input_in s.now) }
{
    check_record(s, 0, Kind::Operation, 1)?;
    let operation = Operation::try_from(s[HEADER_BYTES])?;
    check_record(s, COUNTS_AT, Kind::Counts, 4)?;
    let counts = Counts {
        points: u16::read(s, COUNTS_AT + HEADER_BYTES),
        halfedges: u16::read(s, COUNTS_AT + HEADER_BYTES + 2),
    };
    check_bodies(s, bodies(operation), counts)?;
    Ok(Input { operation, counts })
}

// An input of any length.
#[tactic(auto, unfolding(crate::specs::Records::parse_input, crate::specs::Records::check_input))]
fn parse_input(s: &[u8]) -> Result<Input, Refusal>
    ensures { result ≡ parse_input s.now }
{
    questions::ask_at(Question::Fits, 0, s.len() <= MAX_INPUT)?;
    parse_records(s)
}

// So many, if the operation is spreading, which alone has point normals and fixed halfedges.
fn if_spread(operation: Operation, count: usize) -> usize
    ensures { result ≡ if_spread operation count }
{
    match operation {
        Operation::Spread => count,
        Operation::Straighten | Operation::Check => 0,
    }
}

// Have lists of these lengths room for the numbers?
#[tactic(auto, unfolding(crate::specs::Lists::has_room))]
fn has_room(input: Input, pos: usize, h: usize, t: usize, normals: usize, fixed: usize) -> bool
    ensures { result ≡ has_room input.operation input.counts.points input.counts.halfedges pos h t normals fixed }
{
    let points = usize::from(input.counts.points);
    let halfedges = usize::from(input.counts.halfedges);
    // `&` has no branch, so that the proof has one path.
    (3 * points <= pos)
        & (mesh::HALFEDGE_STRIDE * halfedges <= h)
        & (4 * halfedges <= t)
        & (if_spread(input.operation, 3 * points) <= normals)
        & (if_spread(input.operation, halfedges) <= fixed)
}

// The positions, the halfedges and the tangents.
#[tactic(auto, unfolding(little_endian::specs::Numbers::f64_item, little_endian::specs::Numbers::i32_item))]
fn fill_mesh(s: &[u8], counts: Counts, pos: &mut [f64], h: &mut [i32], t: &mut [f64])
    requires { MeshRoom counts.points counts.halfedges (length s.now) (length pos.old) (length h.old) (length t.old) }
    ensures { (pos.new ≡ filled (f64_item s.now (body_at counts.points counts.halfedges Kind.Positions)) (3 * counts.points) pos.old)
        × (h.new ≡ filled (i32_item s.now (body_at counts.points counts.halfedges Kind.Halfedges)) (halfedge_stride * counts.halfedges) h.old)
        × (t.new ≡ filled (f64_item s.now (body_at counts.points counts.halfedges Kind.Tangents)) (4 * counts.halfedges) t.old) }
{
    let points = usize::from(counts.points);
    let halfedges = usize::from(counts.halfedges);
    little_endian::fill(s, body_at(counts, Kind::Positions), 3 * points, pos);
    little_endian::fill(
        s,
        body_at(counts, Kind::Halfedges),
        mesh::HALFEDGE_STRIDE * halfedges,
        h,
    );
    little_endian::fill(s, body_at(counts, Kind::Tangents), 4 * halfedges, t);
}

// The point normals and the fixed halfedges.
fn fill_spread(s: &[u8], counts: Counts, normals: &mut [f64], fixed: &mut [u8])
    requires { SpreadRoom counts.points counts.halfedges (length s.now) (length normals.old) (length fixed.old) }
    ensures { (normals.new ≡ filled (f64_item s.now (body_at counts.points counts.halfedges Kind.Normals)) (3 * counts.points) normals.old)
        × (fixed.new ≡ filled (byte_item s.now (body_at counts.points counts.halfedges Kind.Fixed)) counts.halfedges fixed.old) }
{
    let points = usize::from(counts.points);
    let halfedges = usize::from(counts.halfedges);
    little_endian::fill(s, body_at(counts, Kind::Normals), 3 * points, normals);
    little_endian::fill(s, body_at(counts, Kind::Fixed), halfedges, fixed);
}

// Reads an input into lent lists: positions, halfedges, tangents, point normals, fixed halfedges. A refusal writes
// nothing, and places past the numbers stay as lent. The lists are parameters: with a struct that lends them each clause
// would read `lists.entry.pos.now` for `pos.old`.
pub fn read_input(
    input: &[u8],
    pos: &mut [f64],
    h: &mut [i32],
    t: &mut [f64],
    normals: &mut [f64],
    fixed: &mut [u8],
) -> Result<Input, Refusal>
    ensures answer { result ≡ read_answer input.now (lists_of h.old pos.old normals.old fixed.old t.old) }
    ensures lists { lists_of h.new pos.new normals.new fixed.new t.new
        ≡ read_lists result input.now (lists_of h.old pos.old normals.old fixed.old t.old) }
    ensures values { Values (check_reading input.now (lists_of h.old pos.old normals.old fixed.old t.old)) input.now result }
{
    let parsed = parse_input(input)?;
    let room = has_room(
        parsed,
        pos.len(),
        h.len(),
        t.len(),
        normals.len(),
        fixed.len(),
    );
    questions::ask_at(Question::Lengths, 0, room)?;
    fill_mesh(input, parsed.counts, pos, h, t);
    match parsed.operation {
        Operation::Spread => fill_spread(input, parsed.counts, normals, fixed),
        Operation::Straighten | Operation::Check => {}
    }
    Ok(parsed)
}
