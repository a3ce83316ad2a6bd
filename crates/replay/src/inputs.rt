// Puts inputs of the program `tangents` to `program::answer`, and compares the bytes of the answers with those that stand
// beside the inputs in the file.

use crate::reader::Reader;
use crate::tally::Tally;
use program::{FLAG_ROOM, HALFEDGE_ROOM, OUTPUT_ROOM, POSITION_ROOM, TANGENT_ROOM};
use std::io;
use std::io::Read;

// The longest input, with a byte more than the program takes.
const INPUT_ROOM: usize = records::MAX_INPUT + 1;

// The head of a pair: how many bytes of the input stand in the file, its length (the rest is zeros), and the length of the
// output.
#[derive(Clone, Copy)]
struct Head {
    stored: usize,
    input: usize,
    output: usize,
}

impl Head {
    // The next head of the file.
    fn read<R: Read>(file: &mut R) -> io::Result<Option<Self>> {
        let mut buf = [0u8; 12];
        if little_endian::read_full(file, &mut buf)? < 12 {
            return Ok(None);
        }
        let mut from = Reader::new(&buf);
        Ok(Some(Head {
            stored: from.read(),
            input: from.read(),
            output: from.read(),
        }))
    }
}

// Reads so many bytes to the front of a list: none where it has no room, or the file ends before.
fn read_front<'a, R: Read>(
    file: &mut R,
    room: &'a mut [u8],
    count: usize,
) -> io::Result<Option<&'a mut [u8]>> {
    let Some(front) = room.get_mut(..count) else {
        return Ok(None);
    };
    if little_endian::read_full(file, front)? < count {
        return Ok(None);
    }
    Ok(Some(front))
}

// The lists hold no zeros before the call, as the answer does not depend on what they hold.
fn same_answer(input: &[u8], expected: &[u8]) -> bool {
    let mut pos = [0.5f64; POSITION_ROOM];
    let mut h = [7i32; HALFEDGE_ROOM];
    let mut t = [0.5f64; TANGENT_ROOM];
    let mut normals = [0.5f64; POSITION_ROOM];
    let mut flags = [7u8; FLAG_ROOM];
    let mut current = [0.5f64; FLAG_ROOM];
    let mut desired = [0.5f64; FLAG_ROOM];
    let mut out = [7u8; OUTPUT_ROOM];
    let size = program::answer(
        input,
        &mut pos,
        &mut h,
        &mut t,
        &mut normals,
        &mut flags,
        &mut current,
        &mut desired,
        &mut out,
    );
    out.get(..size) == Some(expected)
}

// Is the output of the next pair that of its input? No where the file has only a part of the pair, or there is no room for it.
fn same_pair<R: Read>(file: &mut R, head: Head) -> io::Result<bool> {
    let mut input = [0u8; INPUT_ROOM];
    let mut expected = [0u8; OUTPUT_ROOM];
    let stored = read_front(file, &mut input, head.stored)?.is_some();
    let expected = read_front(file, &mut expected, head.output)?;
    Ok(match (stored, input.get(..head.input), expected) {
        (true, Some(input), Some(expected)) => same_answer(input, expected),
        _ => false,
    })
}

// Counts the answer of the next pair.
pub fn next<R: Read>(file: &mut R, tally: Tally) -> io::Result<Option<Tally>> {
    let Some(head) = Head::read(file)? else {
        return Ok(None);
    };
    Ok(Some(tally.counted(same_pair(file, head)?)))
}
