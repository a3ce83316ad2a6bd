// Replays the oracle's answers: makes the calls that the files of data/ hold, compares every bit, and writes for each file how many answers
// were compared and how many differ. README.md beside src/ says what the files hold and how they were made.
#![tactic(auto)]

mod cases;
mod curves;
mod inputs;
mod leaves;
mod listings;
mod makings;
mod meshes;
mod previews;
mod reader;
mod spreading;
mod stl_files;
mod tally;

use reader::{Reader, next_record};
use std::fs::File;
use std::{fs, io};
use tally::Tally;

// The most bytes of a record.
const ROOM: usize = 32768;

// Counts the answers of a file by `next` until it has nothing more to compare, and writes the tally. A read or a write that fails is
// handed back.
fn replay<F: FnMut(&mut File, Tally) -> io::Result<Option<Tally>>>(
    rt: &HostRuntime,
    name: &str,
    mut next: F,
) -> io::Result<()>
    requires { F.IsAlwaysCallable next }
{
    let mut file = fs::open(rt, name)?;
    let mut tally = Tally::default();
    for _ in 0..u64::MAX {
        let Some(more) = next(&mut file, tally)? else {
            break;
        };
        tally = more;
    }
    println!(rt; "{name}: {tally}")
}

// Counts the answer of the next record of a file by `counted`.
fn next<F: Fn(Tally, Reader<'_>) -> Tally>(
    file: &mut File,
    buf: &mut [u8],
    tally: Tally,
    counted: F,
) -> io::Result<Option<Tally>>
    requires { F.IsAlwaysCallable counted }
{
    let Some(record) = next_record(file, buf)? else {
        return Ok(None);
    };
    Ok(Some(counted(tally, record)))
}

fn main(rt: HostRuntime) -> io::Result<()> {
    let mut buf = [0u8; ROOM];
    replay(&rt, "leaves", leaves::next)?;
    replay(
        &rt,
        "mesh",
        |file, tally| next(file, &mut buf, tally, meshes::counted),
    )?;
    replay(
        &rt,
        "sharpen",
        |file, tally| next(file, &mut buf, tally, listings::counted),
    )?;
    replay(
        &rt,
        "spread",
        |file, tally| next(file, &mut buf, tally, spreading::counted),
    )?;
    replay(
        &rt,
        "preview",
        |file, tally| next(file, &mut buf, tally, previews::counted),
    )?;
    replay(
        &rt,
        "stl",
        |file, tally| next(file, &mut buf, tally, stl_files::counted),
    )?;
    replay(
        &rt,
        "curve",
        |file, tally| next(file, &mut buf, tally, curves::counted),
    )?;
    replay(
        &rt,
        "create",
        |file, tally| next(file, &mut buf, tally, makings::counted),
    )?;
    replay(&rt, "inputs", inputs::next)
}
