// Exact answers of the unchanged Rust, or of the rule, as runs of the public calls: the counts and a start of -1, asked of straightening, the
// mark check, the crease listing, spreading and both makings; `wrap` at pi; the smoothness of an entry; and the count of circular tangents
// without direction where all points are one. Each line of the output is a call and its answer.
#![tactic(auto)]

mod calls;
mod lines;
mod makings;
mod pillow;

const PI: u64 = 0x400921fb54442d18;

const MINUS_PI: u64 = 0xc00921fb54442d18;

fn wrap(rt: &impl Print, bits: u64) {
    let wrapped = float::bits(smoothing::wrap(float::of_bits(bits)));
    let _ = println!(rt; "wrap {bits:016x}: {wrapped:016x}");
}

fn wraps(rt: &impl Print) {
    wrap(rt, PI);
    wrap(rt, PI + 1);
    wrap(rt, 0x4023bd3cc9be45de);
    wrap(rt, MINUS_PI);
    wrap(rt, MINUS_PI + 1);
    wrap(rt, 0xc023bd3cc9be45de);
}

fn main(rt: HostRuntime) {
    calls::put_all(&rt);
    wraps(&rt);
    makings::put_all(&rt);
}
