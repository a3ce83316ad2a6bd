// What the program `tangents` does between reading its input and writing its output: the records are read into lent lists
// (the crate `records`), the operation is done (`operations`), and the answer goes as lines into a lent buffer (`lines`).
#![tactic(auto)]

pub mod lines;
mod operations;

ghost use Rattle.std.specs.Prelude.{◌≡◌, cond, [], length};
ghost use Rattle.program.specs.Lines.Text.{Put};
ghost use Rattle.program.specs.Operations.Operations.{Shows};
ghost use Rattle.program.specs.Program.{output_of, positions_after, halfedges_after, tangents_after, normals_after, fixed_after, scratch_after, lists_have_room, flag_room, Room, RoomsSuffice};
ghost use Rattle.program.specs.Rows.{InputRowsUnread};

use lines::Output;
use questions::Refusal;

// The lengths of lists with room for every input: its positions or point normals, its halfedges, its tangents, one place
// for each halfedge (fixed, scratch), and its output, a line of each halfedge and two more.
pub const POSITION_ROOM: usize = 3 * records::MAX_POINTS;

pub const HALFEDGE_ROOM: usize = mesh::HALFEDGE_STRIDE * records::MAX_HALFEDGES;

pub const TANGENT_ROOM: usize = 4 * records::MAX_HALFEDGES;

pub const FLAG_ROOM: usize = records::MAX_HALFEDGES;

pub const OUTPUT_ROOM: usize = lines::LINE_BYTES * (records::MAX_HALFEDGES + 2);

// Law: the lists of every input that is accepted fit these lengths, and the output of every input its own
// (specs/Program.antt, `RoomsSuffice`).
pub fn rooms_suffice()
    ensures { RoomsSuffice }
{}

// Reads the input into the lists, and does its operation. The lists are parameters as in `answer`.
fn respond(
    input: &[u8],
    pos: &mut [f64],
    h: &mut [i32],
    t: &mut [f64],
    normals: &mut [f64],
    fixed: &mut [u8],
    current: &mut [f64],
    desired: &mut [f64],
) -> Result<Output, Refusal>
    requires { Room (length pos.old) (length h.old) (length t.old) (length normals.old) (length fixed.old) (length current.old) (length desired.old) }
    ensures output { Shows (output_of input.now) flag_room result t.new }
    ensures positions { pos.new ≡ positions_after input.now pos.old }
    ensures halfedges { h.new ≡ halfedges_after input.now h.old }
    ensures tangents { t.new ≡ tangents_after input.now t.old }
    ensures normals { normals.new ≡ normals_after input.now normals.old }
    ensures fixed { fixed.new ≡ fixed_after input.now fixed.old }
    ensures current { current.new ≡ scratch_after input.now current.old }
    ensures desired { desired.new ≡ scratch_after input.now desired.old }
{
    let read = records::read_input(input, pos, h, t, normals, fixed)?;
    operations::perform(
        read.operation,
        usize::from(read.counts.halfedges),
        usize::from(read.counts.points),
        h,
        pos,
        normals,
        fixed,
        t,
        current,
        desired,
    )
}

// The program's answer to an input: writes the whole output to the front of `out` and returns its length. The other lists
// then hold the numbers that were read, the tangents as the operation leaves them, and zeros for the scratch of an accepted
// spreading; further places stay as lent, and so does all where the records are refused. Where a list has less than the room
// above, it changes no list and returns 0. The lists are parameters: with a struct that lends them each clause would read
// `lists.entry.pos.now` for `pos.old`.
#[tactic(auto, using(crate::proofs::Inputs::renders), unfolding(crate::specs::Program::has_room))]
pub fn answer(
    input: &[u8],
    pos: &mut [f64],
    h: &mut [i32],
    t: &mut [f64],
    normals: &mut [f64],
    fixed: &mut [u8],
    current: &mut [f64],
    desired: &mut [f64],
    out: &mut [u8],
) -> usize
    ensures output { Put out.old 0 (cond (lists_have_room pos.old h.old t.old normals.old fixed.old current.old desired.old out.old) (output_of input.now) []) out.new result }
    ensures positions { pos.new ≡ cond (lists_have_room pos.old h.old t.old normals.old fixed.old current.old desired.old out.old) (positions_after input.now pos.old) pos.old }
    ensures halfedges { h.new ≡ cond (lists_have_room pos.old h.old t.old normals.old fixed.old current.old desired.old out.old) (halfedges_after input.now h.old) h.old }
    ensures tangents { t.new ≡ cond (lists_have_room pos.old h.old t.old normals.old fixed.old current.old desired.old out.old) (tangents_after input.now t.old) t.old }
    ensures normals { normals.new ≡ cond (lists_have_room pos.old h.old t.old normals.old fixed.old current.old desired.old out.old) (normals_after input.now normals.old) normals.old }
    ensures fixed { fixed.new ≡ cond (lists_have_room pos.old h.old t.old normals.old fixed.old current.old desired.old out.old) (fixed_after input.now fixed.old) fixed.old }
    ensures current { current.new ≡ cond (lists_have_room pos.old h.old t.old normals.old fixed.old current.old desired.old out.old) (scratch_after input.now current.old) current.old }
    ensures desired { desired.new ≡ cond (lists_have_room pos.old h.old t.old normals.old fixed.old current.old desired.old out.old) (scratch_after input.now desired.old) desired.old }
{
    // `&` has no branch, so that the proof has one path.
    let room = (POSITION_ROOM <= pos.len())
        & (HALFEDGE_ROOM <= h.len())
        & (TANGENT_ROOM <= t.len())
        & (POSITION_ROOM <= normals.len())
        & (FLAG_ROOM <= fixed.len())
        & (FLAG_ROOM <= current.len())
        & (FLAG_ROOM <= desired.len())
        & (OUTPUT_ROOM <= out.len());
    if !room {
        return 0;
    }
    let answer = respond(input, pos, h, t, normals, fixed, current, desired);
    lines::render(Output::from(answer), t, out)
}

// Law: two inputs that are the same but for the rows of the halfedges have the same output, and leave the same tangents and scratch
// (specs/Rows.antt, `InputRowsUnread`).
pub fn input_rows_unread()
    ensures { InputRowsUnread }
{}
