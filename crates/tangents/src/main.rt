// The program `tangents`: reads an operation and a mesh from standard input, works it, and writes the answer. What it writes for
// the bytes that it reads is said by the contract of `run`.
#![tactic(auto)]

ghost use Rattle.std.specs.Prelude.{IfErr, IfSome, OnOk};
ghost use Rattle.std.specs.Io.KnownBytes.{Appends};
ghost use Rattle.program.specs.Program.{output_of};
ghost use Rattle.tangents.specs.Streams.{KeptIfUnread};

#[cfg(test)]
mod tests;

use program::{FLAG_ROOM, HALFEDGE_ROOM, OUTPUT_ROOM, POSITION_ROOM, TANGENT_ROOM};
use std::io;
use std::io::{Read, Write};
use thiserror::Error;

// The stream that failed, and why.
#[derive(Debug, Drop, Error)]
enum StreamError {
    #[error("reading standard input: {0}")]
    Input(io::Error),
    #[error("writing standard output: {0}")]
    Output(io::Error),
}

// Works an input, and writes the whole answer.
fn answer_to<W: Write>(input: &[u8], output: &mut W) -> io::Result<()>
    ensures { OnOk result (Appends (W.contents output.old) (W.contents output.new) (output_of input.now)) }
{
    let mut pos = [0.0f64; POSITION_ROOM];
    let mut h = [0i32; HALFEDGE_ROOM];
    let mut t = [0.0f64; TANGENT_ROOM];
    let mut normals = [0.0f64; POSITION_ROOM];
    let mut fixed = [0u8; FLAG_ROOM];
    let mut current = [0.0f64; FLAG_ROOM];
    let mut desired = [0.0f64; FLAG_ROOM];
    let mut out = [0u8; OUTPUT_ROOM];
    let size = program::answer(
        input,
        &mut pos,
        &mut h,
        &mut t,
        &mut normals,
        &mut fixed,
        &mut current,
        &mut desired,
        &mut out,
    );
    output.write_all(&out[..size])?;
    output.flush()
}

// Reads the input, one byte more than the limit at most, which is enough to refuse a longer one, and writes the answer to all of
// it. A read that fails writes nothing.
fn run<R: Read, W: Write>(input: &mut R, output: &mut W) -> Result<(), StreamError>
    ensures answer { OnOk result (IfSome (R.remaining input.old) (λ xs. Appends (W.contents output.old) (W.contents output.new) (output_of xs))) }
    ensures unread { IfErr result (KeptIfUnread (W.contents output.old) (W.contents output.new)) }
{
    let mut bytes = [0u8; records::MAX_INPUT + 1];
    let n = little_endian::read_full(input, &mut bytes).map_err(StreamError::Input)?;
    answer_to(&bytes[..n], output).map_err(StreamError::Output)
}

fn main(rt: HostRuntime) -> anyhow::Result<()> {
    run(&mut rt.stdin(), &mut rt.stdout())?;
    Ok(())
}
