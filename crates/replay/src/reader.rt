// The numbers of a record of a file of the oracle's answers, little-endian. Every function is total: past the end of a record stand zeros.

use little_endian::LittleEndian;
use std::io;

// What is left of a record.
#[derive(Clone, Copy)]
pub struct Reader<'a> {
    rest: &'a [u8],
}

impl<'a> Reader<'a> {
    pub fn new(bytes: &'a [u8]) -> Self {
        Reader { rest: bytes }
    }

    fn number<T: LittleEndian + Default>(&mut self) -> T {
        let Some((number, rest)) = self.rest.split_at_checked(T::BYTES) else {
            return T::default();
        };
        self.rest = rest;
        T::read(number, 0)
    }

    // The next number.
    pub fn read<T: Stored>(&mut self) -> T {
        T::read_from(self)
    }

    // Fills a list with the next numbers.
    pub fn fill<T: Stored>(&mut self, list: &mut [T]) {
        for x in list.iter_mut() {
            *x = self.read();
        }
    }

    // Passes over so many bytes.
    pub fn skip(&mut self, count: usize) {
        self.rest = self.rest.get(count..).unwrap_or(&[]);
    }

    // As many places of a list's room as the next number says, and none where it has fewer.
    pub fn front<'b, T>(&mut self, room: &'b mut [T]) -> &'b mut [T] {
        let len = self.read::<usize>();
        room.get_mut(..len).unwrap_or(&mut [])
    }

    // Reads a list to the front of its room: none of it where it is longer.
    pub fn list<'b, T: Stored>(&mut self, room: &'b mut [T]) -> &'b mut [T] {
        let list = self.front(room);
        self.fill(list);
        list
    }

    // Are the next numbers these?
    pub fn holds<T: Stored>(&mut self, xs: &[T]) -> bool {
        xs.iter().all(|x| x.is_next(self))
    }

    // Is the next list this one?
    pub fn holds_list<T: Stored>(&mut self, xs: &[T]) -> bool {
        self.read::<usize>() == xs.len() && self.holds(xs)
    }
}

// A number of a record.
pub trait Stored: Copy + PartialEq {
    // The number in front.
    fn read_from(reader: &mut Reader<'_>) -> Self;

    // Are two numbers the same, bit for bit?
    fn same(self, other: Self) -> bool {
        self == other
    }

    // Is it the number in front, bit for bit?
    fn is_next(self, reader: &mut Reader<'_>) -> bool {
        self.same(Self::read_from(reader))
    }
}

impl Stored for u8 {
    fn read_from(reader: &mut Reader<'_>) -> Self {
        reader.number()
    }
}

impl Stored for i32 {
    fn read_from(reader: &mut Reader<'_>) -> Self {
        reader.number()
    }
}

// Of four bytes.
impl Stored for usize {
    fn read_from(reader: &mut Reader<'_>) -> Self {
        reader.number::<u32>() as usize
    }
}

impl Stored for u64 {
    fn read_from(reader: &mut Reader<'_>) -> Self {
        reader.number()
    }
}

// By its bits: one not-a-number stands for all, and a file has no other.
impl Stored for f64 {
    fn read_from(reader: &mut Reader<'_>) -> Self {
        reader.number()
    }

    fn same(self, other: Self) -> bool {
        float::bits(self) == float::bits(other)
    }

    fn is_next(self, reader: &mut Reader<'_>) -> bool {
        float::bits(self) == reader.number::<u64>()
    }
}

// Are the numbers of a list all this one?
pub fn all_same<T: Stored>(xs: &[T], value: T) -> bool {
    xs.iter().all(|x| x.same(value))
}

// The next record, less its length, which counts its own four bytes: none where the input ends, or where the buffer has no room for it.
pub fn next_record<'a, R: io::Read>(
    input: &mut R,
    buf: &'a mut [u8],
) -> io::Result<Option<Reader<'a>>> {
    let Some(record) = room_of(input, buf)? else {
        return Ok(None);
    };
    let count = little_endian::read_full(input, record)?;
    Ok(Some(Reader::new(&record[..count])))
}

// The room of the next record: as many places of the buffer as its length says, less the four that are read.
fn room_of<'a, R: io::Read>(input: &mut R, buf: &'a mut [u8]) -> io::Result<Option<&'a mut [u8]>> {
    let mut length = [0; 4];
    if little_endian::read_full(input, &mut length)? < 4 {
        return Ok(None);
    }
    let size = Reader::new(&length).read::<usize>().checked_sub(4);
    Ok(size.and_then(|size| buf.get_mut(..size)))
}
