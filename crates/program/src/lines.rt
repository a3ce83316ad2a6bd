// Renders the output of the program `tangents` into a lent buffer. Each function asks for its own places
// (`at + line_bytes ≤ length out`): they differ from call to call, so no struct of the lists can hold them. `4 * n ≤ length t` is handed down
// with n and t: of a struct of the two each clause would say `tangents.now.t.now` for `t.now`.

ghost use Rattle.std.specs.Prelude.{◌≡◌, ◌+◌, ◌*◌, ◌<◌, ◌≤◌, length};
ghost use Rattle.program.specs.Lines.Text.{byte, decimal, hex, Put};
ghost use Rattle.program.specs.Lines.Lines.{number_line, numbers_line, bits_field, tangent_line, tangent_lines, tangents_lines, lines_of, printed, line_bytes, halfedges_in, has_room, rendered};

use questions::Refusal;

// Room for a line: no line has more bytes.
pub const LINE_BYTES: usize = 96;

// What the program prints. A refusal stands here by number and place, the two that its line shows; `render` prints any.
#[derive(Clone, Copy)]
pub enum Output {
    // Straightened tangents.
    Tangents {
        halfedges: usize,
    },
    // Tangents after spreading, and its two counts.
    Spread {
        halfedges: usize,
        looked: usize,
        turned: usize,
    },
    // The mark check's answer.
    Valid {
        valid: bool,
    },
    Refused {
        number: usize,
        place: usize,
    },
}

impl From<Result<Output, Refusal>> for Output {
    ghost from_gives = { λ answer output. output ≡ printed answer };

    fn from(answer: Result<Output, Refusal>) -> Output {
        match answer {
            Ok(output) => output,
            Err(refusal) => Output::Refused {
                number: refusal.question.number(),
                place: refusal.place,
            },
        }
    }
}

// The buffer and the place in it are two parameters. A struct that lends the buffer was tried, and at a caller's return the
// proof did not close: no plain clause ties `out.new` to what the struct's methods wrote.
fn put_byte(out: &mut [u8], at: usize, b: u8) -> usize
    requires { at < length out.old }
    ensures { Put out.old at (byte b) out.new result }
{
    out[at] = b;
    at + 1
}

fn put_text(out: &mut [u8], at: usize, text: &[u8]) -> usize
    requires { at + length text.now ≤ length out.old }
    ensures { Put out.old at text.now out.new result }
{
    let end = at + text.len();
    out[at..end].copy_from_slice(text);
    end
}

fn put_decimal(out: &mut [u8], at: usize, n: u64) -> usize
    requires { at + 20 ≤ length out.old }
    ensures { Put out.old at (decimal n) out.new result }
{
    let mut digits = itoa::Buffer::new();
    put_text(out, at, digits.format(n).as_bytes())
}

fn put_hex(out: &mut [u8], at: usize, n: u64) -> usize
    requires { at + 16 ≤ length out.old }
    ensures { Put out.old at (hex n) out.new result }
{
    let end = at + 16;
    hex::encode_to_slice(n.to_be_bytes(), &mut out[at..end]).unwrap();
    end
}

#[tactic(auto, using(crate::proofs::LinesLaws::Digits::decimal_length))]
fn put_number_line(out: &mut [u8], at: usize, text: &[u8], n: usize) -> usize
    requires { (at + 48 ≤ length out.old) × (length text.now ≤ 16) }
    ensures { Put out.old at (number_line text.now n) out.new result }
{
    let number = put_text(out, at, text);
    let end = put_decimal(out, number, n as u64);
    put_byte(out, end, b'\n')
}

#[tactic(auto, using(crate::proofs::LinesLaws::Digits::decimal_length))]
fn put_numbers_line(
    out: &mut [u8],
    at: usize,
    text: &[u8],
    n: usize,
    text2: &[u8],
    m: usize,
) -> usize
    requires { (at + line_bytes ≤ length out.old) × (length text.now ≤ 16) × (length text2.now ≤ 16) }
    ensures { Put out.old at (numbers_line text.now n text2.now m) out.new result }
{
    let number = put_text(out, at, text);
    let end = put_decimal(out, number, n as u64);
    put_number_line(out, end, text2, m)
}

#[tactic(auto, unfolding(crate::specs::Lines::Lines::bits_field, crate::specs::Lines::Text::ascii))]
fn put_bits_field(t: &[f64], i: usize, out: &mut [u8], at: usize) -> usize
    requires { (i < length t.now) × (at + 17 ≤ length out.old) }
    ensures { Put out.old at (bits_field t.now i) out.new result }
{
    let digits = put_byte(out, at, b' ');
    put_hex(out, digits, float::bits(t[i]))
}

#[tactic(auto, using(crate::proofs::LinesLaws::Digits::decimal_length, crate::proofs::LinesLaws::Lengths::field_length))]
fn put_tangent_line(t: &[f64], e: usize, out: &mut [u8], at: usize) -> usize
    requires { (4 * e + 4 ≤ length t.now) × (at + line_bytes ≤ length out.old) }
    ensures { Put out.old at (tangent_line t.now e) out.new result }
{
    let x = put_decimal(out, at, e as u64);
    let y = put_bits_field(t, 4 * e, out, x);
    let z = put_bits_field(t, 4 * e + 1, out, y);
    let w = put_bits_field(t, 4 * e + 2, out, z);
    let end = put_bits_field(t, 4 * e + 3, out, w);
    put_byte(out, end, b'\n')
}

// The lines of the halfedges below n.
#[tactic(auto, using(crate::proofs::LinesLaws::Lengths::tangent_lines_length), unfolding(crate::specs::Lines::Lines::tangent_lines))]
fn put_tangent_lines(t: &[f64], n: usize, out: &mut [u8], at: usize) -> usize
    requires { (4 * n ≤ length t.now) × (at + line_bytes * n ≤ length out.old) }
    ensures { Put out.old at (tangent_lines t.now n) out.new result }
{
    let mut end = at;
    for e in 0..n {
        end = put_tangent_line(t, e, out, end);
    }
    end
}

#[tactic(auto, using(crate::proofs::LinesLaws::Lengths::number_line_length), unfolding(crate::specs::Lines::Text::ascii))]
fn put_tangents(t: &[f64], n: usize, out: &mut [u8]) -> usize
    requires { (4 * n ≤ length t.now) × (line_bytes * (n + 1) ≤ length out.old) }
    ensures { Put out.old 0 (tangents_lines t.now n) out.new result }
{
    let at = put_number_line(out, 0, b"tangents ", n);
    put_tangent_lines(t, n, out, at)
}

#[tactic(auto, using(crate::proofs::LinesLaws::Lengths::tangents_length))]
fn put_spread(t: &[f64], n: usize, looked: usize, turned: usize, out: &mut [u8]) -> usize
    requires { (4 * n ≤ length t.now) × (line_bytes * (n + 2) ≤ length out.old) }
    ensures { Put out.old 0 (lines_of (Output.Spread n looked turned) t.now) out.new result }
{
    let at = put_tangents(t, n, out);
    put_numbers_line(out, at, b"looked ", looked, b" turned ", turned)
}

// Are there four numbers for each halfedge, and room for a line of each and two more?
fn has_room(n: usize, numbers: usize, room: usize) -> bool
    ensures { result ≡ has_room n numbers room }
{
    if numbers / 4 < n {
        return false;
    }
    if room / LINE_BYTES < 2 {
        return false;
    }
    n <= room / LINE_BYTES - 2
}

fn halfedges_in(output: Output) -> usize
    ensures { result ≡ halfedges_in output }
{
    match output {
        Output::Tangents { halfedges } | Output::Spread { halfedges, .. } => halfedges,
        Output::Valid { .. } | Output::Refused { .. } => 0,
    }
}

// Writes the whole output to the front of `out` and returns its length. Where `t` or `out` is too short for it, it
// writes nothing and returns 0.
#[tactic(auto, using(crate::proofs::LinesLaws::Lengths::enough_room, crate::proofs::LinesLaws::Lengths::nothing, crate::proofs::LinesLaws::Put::put_none), unfolding(crate::specs::Lines::Lines::lines_of, crate::specs::Lines::Text::ascii))]
pub fn render(output: Output, t: &[f64], out: &mut [u8]) -> usize
    ensures { Put out.old 0 (rendered output t.now (length out.old)) out.new result }
{
    let n = halfedges_in(output);
    if !has_room(n, t.len(), out.len()) {
        return 0;
    }
    match output {
        Output::Tangents { halfedges } => put_tangents(t, halfedges, out),
        Output::Spread {
            halfedges,
            looked,
            turned,
        } => put_spread(t, halfedges, looked, turned, out),
        Output::Valid { valid } => put_number_line(out, 0, b"valid ", valid as usize),
        Output::Refused { number, place } => {
            put_numbers_line(out, 0, b"refused ", number, b" ", place)
        }
    }
}
