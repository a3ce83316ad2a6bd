// `run` between streams that give and take a byte at a time, are interrupted before each, or fail at each place.
use super::{StreamError, run};
use std::io;
use std::io::{ErrorKind, Read, Write};
use std::test::Fail;

// The bytes of crates/tangents/stdin, a mesh of two triangles to be straightened: each record's head, and its items.
const INPUT: [u8; 395] = *b"\
\x01\0\0\0\x01\0\
\x01\
\x04\0\0\0\x02\0\
\x03\0\x06\0\
\x48\0\0\0\x03\0\
\0\0\0\0\0\0\0\0\0\0\0\0\0\0\0\0\0\0\0\0\0\0\0\0\
\0\0\0\0\0\0\x08\x40\0\0\0\0\0\0\0\0\0\0\0\0\0\0\0\0\
\0\0\0\0\0\0\0\0\0\0\0\0\0\0\x18\x40\0\0\0\0\0\0\0\0\
\x60\0\0\0\x04\0\
\0\0\0\0\x01\0\0\0\x05\0\0\0\0\0\0\0\
\x01\0\0\0\x02\0\0\0\x04\0\0\0\x01\0\0\0\
\x02\0\0\0\0\0\0\0\x03\0\0\0\x02\0\0\0\
\0\0\0\0\x02\0\0\0\x02\0\0\0\x03\0\0\0\
\x02\0\0\0\x01\0\0\0\x01\0\0\0\x04\0\0\0\
\x01\0\0\0\0\0\0\0\0\0\0\0\x05\0\0\0\
\xc0\0\0\0\x05\0\
\0\0\0\0\0\0\0\0\0\0\0\0\0\0\0\0\0\0\0\0\0\0\0\0\0\0\0\0\0\0\0\0\
\0\0\0\0\0\0\0\0\0\0\0\0\0\0\0\0\0\0\0\0\0\0\0\0\0\0\0\0\0\0\0\0\
\0\0\0\0\0\0\0\0\0\0\0\0\0\0\0\0\0\0\0\0\0\0\0\0\0\0\0\0\0\0\0\0\
\0\0\0\0\0\0\0\0\0\0\0\0\0\0\0\0\0\0\0\0\0\0\0\0\0\0\0\0\0\0\0\0\
\0\0\0\0\0\0\0\0\0\0\0\0\0\0\0\0\0\0\0\0\0\0\0\0\0\0\0\0\0\0\0\0\
\0\0\0\0\0\0\0\0\0\0\0\0\0\0\0\0\0\0\0\0\0\0\0\0\0\0\0\0\0\0\0\0";

// The answer, the bytes of crates/tangents/stdout.
const LISTING: [u8; 431] = *b"\
tangents 6\n\
0 3ff0000000000000 0000000000000000 0000000000000000 3ff0000000000000\n\
1 bff0000000000000 4000000000000000 0000000000000000 3ff0000000000000\n\
2 8000000000000000 c000000000000000 8000000000000000 3ff0000000000000\n\
3 0000000000000000 4000000000000000 0000000000000000 3ff0000000000000\n\
4 3ff0000000000000 c000000000000000 8000000000000000 3ff0000000000000\n\
5 bff0000000000000 8000000000000000 8000000000000000 3ff0000000000000\n\
";

// The faults of a stream: every second call is interrupted, and after so many others each one fails.
#[derive(Drop)]
struct Faults {
    is_interrupted: bool,
    left: usize,
}

impl Faults {
    fn new(left: usize) -> Faults {
        Faults {
            is_interrupted: false,
            left,
        }
    }

    fn next_call(&mut self) -> io::Result<()> {
        self.is_interrupted = !self.is_interrupted;
        if self.is_interrupted {
            return Err(io::Error::from(ErrorKind::Interrupted));
        }
        if self.left == 0 {
            return Err(io::Error::from(ErrorKind::Other));
        }
        self.left -= 1;
        Ok(())
    }
}

#[derive(Drop)]
struct Source<'a> {
    rest: &'a [u8],
    faults: Faults,
}

impl Read for Source<'_> {
    fn read(&mut self, buf: &mut [u8]) -> io::Result<usize> {
        self.faults.next_call()?;
        let len = buf.len().min(1);
        self.rest.read(&mut buf[..len])
    }
}

#[derive(Drop)]
struct Sink {
    taken: Vec<u8>,
    faults: Faults,
}

impl Write for Sink {
    fn write(&mut self, buf: &[u8]) -> io::Result<usize> {
        self.faults.next_call()?;
        let len = buf.len().min(1);
        self.taken.write(&buf[..len])
    }

    // Fails where the next write would.
    fn flush(&mut self) -> io::Result<()> {
        if self.faults.left == 0 {
            return Err(io::Error::from(ErrorKind::Other));
        }
        Ok(())
    }
}

// What a run answers, and what the writer then holds, where the reader fails after so many bytes and the writer after so many.
fn run_between(
    rt: &impl AllocGlobal,
    read: usize,
    written: usize,
) -> (Result<(), StreamError>, Vec<u8>) {
    let mut source = Source {
        rest: &INPUT,
        faults: Faults::new(read),
    };
    let mut sink = Sink {
        taken: Vec::new(rt.alloc()),
        faults: Faults::new(written),
    };
    let result = run(&mut source, &mut sink);
    (result, sink.taken)
}

#[test]
fn whole_answer_a_byte_at_a_time(rt: HostRuntime) -> Result<(), Fail> {
    let (result, taken) = run_between(&rt, usize::MAX, usize::MAX);
    result?;
    assert!(rt; taken.as_slice() == LISTING.as_slice());
    Ok(())
}

// The last place is the end of the input.
#[test]
fn failed_read_at_each_place(rt: HostRuntime) {
    for place in 0..=INPUT.len() {
        let (result, taken) = run_between(&rt, place, usize::MAX);
        assert!(rt; matches!(&result, Err(StreamError::Input(_))), "at {place}");
        assert!(rt; taken.is_empty(), "at {place}");
    }
}

// The last place is the flush.
#[test]
fn failed_write_at_each_place(rt: HostRuntime) {
    for place in 0..=LISTING.len() {
        let (result, taken) = run_between(&rt, usize::MAX, place);
        assert!(rt;
            matches!(&result, Err(StreamError::Output(_))),
            "at {place}"
        );
        assert!(rt;
            Some(taken.as_slice()) == LISTING.get(..place),
            "at {place}"
        );
    }
}
