// The trigonometric functions of src/math.rs: sin, cos and acos, with the two kernels and the reduction by half pi that
// they lean on. Every branch is the Rust's, and every float operation is rounded once. tan, asin, atan and atan2 are
// left out.
#![tactic(auto)]

ghost use Rattle.std.specs.Prelude.{◌≡◌, not, ◌<◌, ◌≤◌, T};
ghost use Rattle.std.specs.Float.{binary64};
ghost use Rattle.std.specs.Float.Ieee.{is_nan, of_int};
ghost use Rattle.float.specs.F64.{bits_of};
ghost use Rattle.math.specs.Kernels.{abs_high_word, sign_bit, sin_kernel, cos_kernel};
ghost use Rattle.math.specs.Rem.{first_remainder, next_remainder, remainder_value, exponent_field, nearest_multiple, last_remainder, reduced_of, rem_pio2_medium, rem_pio2_large, rem_pio2};
ghost use Rattle.math.specs.Turns.{near_turns, far_turns, quarter_turns, signed_turns, quadrant_kernel, sin_turned};
ghost use Rattle.math.specs.Trig.{quadrant_of, sin_of, cos_of};
ghost use Rattle.math.specs.Acos.{acos_r, clear_low_word, acos_beyond, acos_small, acos_negative, acos_positive, acos_of};

const S1: f64 = -1.66666666666666324348e-01;

const S2: f64 = 8.33333333332248946124e-03;

const S3: f64 = -1.98412698298579493134e-04;

const S4: f64 = 2.75573137070700676789e-06;

const S5: f64 = -2.50507602534068634195e-08;

const S6: f64 = 1.58969099521155010221e-10;

const C1: f64 = 4.16666666666666019037e-02;

const C2: f64 = -1.38888888888741095749e-03;

const C3: f64 = 2.48015872894767294178e-05;

const C4: f64 = -2.75573143513906633035e-07;

const C5: f64 = 2.08757232129817482790e-09;

const C6: f64 = -1.13596475577881948265e-11;

const PIO2_1: f64 = 1.57079632673412561417e+00;

const PIO2_1T: f64 = 6.07710050650619224932e-11;

const HALF_PI: f64 = 1.57079632679489661923132169163975144;

// 1.5 / f64::EPSILON
const TOINT: f64 = 6755399441055744.0;

const PIO4: f64 = 7.85398163397448278999e-01;

const INVPIO2: f64 = 6.36619772367581382433e-01;

const PIO2_2: f64 = 6.07710050630396597660e-11;

const PIO2_2T: f64 = 2.02226624879595063154e-21;

const PIO2_3: f64 = 2.02226624871116645580e-21;

const PIO2_3T: f64 = 8.47842766036889956997e-32;

const PIO2_HI: f64 = 1.57079632679489655800e+00;

const PIO2_LO: f64 = 6.12323399573676603587e-17;

const PS0: f64 = 1.66666666666666657415e-01;

const PS1: f64 = -3.25565818622400915405e-01;

const PS2: f64 = 2.01212532134862925881e-01;

const PS3: f64 = -4.00555345006794114027e-02;

const PS4: f64 = 7.91534994289814532176e-04;

const PS5: f64 = 3.47933107596021167570e-05;

const QS1: f64 = -2.40339491173441421878e+00;

const QS2: f64 = 2.02094576023350569471e+00;

const QS3: f64 = -6.88283971605453293030e-01;

const QS4: f64 = 7.70381505559019352791e-02;

// What `rem_pio2` returns: the signed number n of quarter turns taken off, and what is left in two parts, y[0] and y[1].
#[derive(Clone, Copy)]
pub struct RemPio2 {
    pub n: i32,
    pub y0: f64,
    pub y1: f64,
}

// A multiple of half pi: n, and the same as a float, the Rust's `fn_`.
#[derive(Clone, Copy)]
pub struct Multiple {
    pub n: i32,
    pub f: f64,
}

// A remainder r - w.
#[derive(Clone, Copy)]
pub struct Remainder {
    pub r: f64,
    pub w: f64,
}

// The upper 32 bits without the sign.
#[tactic(auto, unfolding(crate::specs::Kernels::abs_high_word))]
fn abs_high_word(x: f64) -> u64
    ensures { result ≡ abs_high_word x }
{
    (float::bits(x) >> 32) % 0x8000_0000
}

#[tactic(auto, unfolding(crate::specs::Kernels::sign_bit))]
fn sign_bit(x: f64) -> bool
    ensures { result ≡ sign_bit x }
{
    float::bits(x) >= 0x8000_0000_0000_0000
}

// y is what x leaves out of the angle, if anything: none for the Rust's `iy` of 0.
#[tactic(auto, unfolding(crate::specs::Kernels::sin_kernel))]
pub fn sin_kernel(x: f64, y: Option<f64>) -> f64
    ensures { result ≡ sin_kernel x y }
{
    let z = x * x;
    let w = z * z;
    let r = S2 + z * (S3 + z * S4) + z * w * (S5 + z * S6);
    let v = z * x;
    match y {
        None => x + v * (S1 + z * r),
        Some(y) => x - ((z * (0.5 * y - v * r) - y) - v * S1),
    }
}

#[tactic(auto, unfolding(crate::specs::Kernels::cos_kernel))]
pub fn cos_kernel(x: f64, y: f64) -> f64
    ensures { result ≡ cos_kernel x y }
{
    let z = x * x;
    let w = z * z;
    let r = z * (C1 + z * (C2 + z * C3)) + w * w * (C4 + z * (C5 + z * C6));
    let hz = 0.5 * z;
    let w1 = 1.0 - hz;
    w1 + (((1.0 - w1) - hz) + (z * r - x * y))
}

#[tactic(auto, unfolding(crate::specs::Rem::first_remainder))]
fn first_remainder(x: f64, f: f64) -> Remainder
    ensures { result ≡ first_remainder x f }
{
    Remainder {
        r: x - f * PIO2_1,
        w: f * PIO2_1T,
    }
}

#[tactic(auto, unfolding(crate::specs::Rem::next_remainder))]
fn next_remainder(t: f64, f: f64, p: f64, rest: f64) -> Remainder
    ensures { result ≡ next_remainder t f p rest }
{
    let w = f * p;
    let r = t - w;
    Remainder {
        r,
        w: f * rest - ((t - r) - w),
    }
}

#[tactic(auto, unfolding(crate::specs::Rem::remainder_value))]
fn remainder_value(s: Remainder) -> f64
    ensures { result ≡ remainder_value s }
{
    s.r - s.w
}

#[tactic(auto, unfolding(crate::specs::Rem::exponent_field))]
fn exponent_field(x: f64) -> u64
    ensures { result ≡ exponent_field x }
{
    (float::bits(x) >> 52) % 0x800
}

// The multiple of half pi that the medium range takes off.
#[tactic(auto, unfolding(crate::specs::Rem::nearest_multiple, crate::specs::Rem::pred_i32, crate::specs::Rem::succ_i32))]
fn nearest_multiple(x: f64) -> Multiple
    ensures { result ≡ nearest_multiple x }
{
    let f = x * INVPIO2 + TOINT - TOINT;
    let n = float::to_i32(f);
    let d = remainder_value(first_remainder(x, f));
    if d < -PIO4 {
        return Multiple {
            n: n.wrapping_sub(1),
            f: f - 1.0,
        };
    }
    if d > PIO4 {
        return Multiple {
            n: n.wrapping_add(1),
            f: f + 1.0,
        };
    }
    Multiple { n, f }
}

// The remainder by as many digits of half pi as its exponent calls for.
#[tactic(auto, unfolding(crate::specs::Rem::exponent_field, crate::specs::Rem::last_remainder))]
fn last_remainder(x: f64, ix: u64, f: f64) -> Remainder
    ensures { result ≡ last_remainder x ix f }
{
    let ex = ix >> 20;
    let a = first_remainder(x, f);
    if exponent_field(remainder_value(a)) + 16 < ex {
        let b = next_remainder(a.r, f, PIO2_2, PIO2_2T);
        if exponent_field(remainder_value(b)) + 49 < ex {
            return next_remainder(b.r, f, PIO2_3, PIO2_3T);
        }
        return b;
    }
    a
}

#[tactic(auto, unfolding(crate::specs::Rem::reduced_of))]
fn reduced(n: i32, s: Remainder) -> RemPio2
    ensures { result ≡ reduced_of n s }
{
    let y0 = remainder_value(s);
    RemPio2 {
        n,
        y0,
        y1: (s.r - y0) - s.w,
    }
}

#[tactic(auto, unfolding(crate::specs::Rem::rem_pio2_medium))]
pub fn rem_pio2_medium(x: f64, ix: u64) -> RemPio2
    ensures { result ≡ rem_pio2_medium x ix }
{
    let m = nearest_multiple(x);
    reduced(m.n, last_remainder(x, ix, m.f))
}

// x less k quarter turns: the eight branches of `rem_pio2` near one to four quarter turns, either sign.
fn subtract_quarter_turns(x: f64, k: i32) -> RemPio2
    ensures { result ≡ reduced_of k (first_remainder x (of_int binary64 k)) }
{
    reduced(k, first_remainder(x, k as f64))
}

// How many quarter turns `rem_pio2` takes off, by the tests of its branches; none where these take the medium range's way.
#[tactic(auto, unfolding(crate::specs::Turns::near_turns))]
fn near_turns(ix: u64) -> Option<u8>
    ensures { result ≡ near_turns ix }
{
    if ix % 0x10_0000 == 0x9_21fb {
        return None;
    }
    if ix <= 0x4002_d97c {
        return Some(1);
    }
    Some(2)
}

#[tactic(auto, unfolding(crate::specs::Turns::far_turns))]
fn far_turns(ix: u64) -> Option<u8>
    ensures { result ≡ far_turns ix }
{
    if ix <= 0x4015_fdbc {
        if ix == 0x4012_d97c {
            return None;
        }
        return Some(3);
    }
    if ix == 0x4019_21fb {
        return None;
    }
    Some(4)
}

// The same for any `ix`; none also beyond the branches.
#[tactic(auto, unfolding(crate::specs::Turns::quarter_turns))]
fn quarter_turns(ix: u64) -> Option<u8>
    ensures { result ≡ quarter_turns ix }
{
    if ix <= 0x400f_6a7a {
        return near_turns(ix);
    }
    if ix <= 0x401c_463b {
        return far_turns(ix);
    }
    None
}

// k, or -k where x is negative.
#[tactic(auto, unfolding(crate::specs::Turns::signed_turns))]
fn signed_turns(k: u8, x: f64) -> i32
    ensures { result ≡ signed_turns k x }
{
    if sign_bit(x) {
        return -(k as i32);
    }
    k as i32
}

#[tactic(auto, unfolding(crate::specs::Rem::rem_pio2_large))]
fn rem_pio2_large(x: f64) -> RemPio2
    ensures { result ≡ rem_pio2_large x }
{
    let quotient = float::round(x / HALF_PI);
    RemPio2 {
        n: float::to_i32(quotient),
        y0: x - quotient * HALF_PI,
        y1: 0.0,
    }
}

// x less a multiple of half pi.
#[tactic(auto, using(crate::proofs::Turns::rem_way))]
pub fn rem_pio2(x: f64) -> RemPio2
    ensures { result ≡ rem_pio2 x }
{
    let ix = abs_high_word(x);
    if let Some(k) = quarter_turns(ix) {
        return subtract_quarter_turns(x, signed_turns(k, x));
    }
    if ix < 0x4139_21fb {
        return rem_pio2_medium(x, ix);
    }
    if ix >= 0x7ff0_0000 {
        let v = x - x;
        return RemPio2 { n: 0, y0: v, y1: v };
    }
    rem_pio2_large(x)
}

// The Rust's `n & 3`.
#[tactic(auto, unfolding(crate::specs::Trig::quadrant_of))]
fn quadrant(n: i32) -> u32
    ensures { result ≡ quadrant_of n }
{
    (n & 3) as u32
}

// The kernel that `sin` calls at the quadrant q.
#[tactic(auto, unfolding(crate::specs::Turns::quadrant_kernel))]
fn quadrant_kernel(q: u32, y0: f64, y1: f64) -> f64
    ensures { result ≡ quadrant_kernel q y0 y1 }
{
    if q % 2 == 0 {
        return sin_kernel(y0, Some(y1));
    }
    cos_kernel(y0, y1)
}

// `sin` beyond pi / 4, by the Rust's `match`. The arms of `cos` are those of the next quadrant, one more, so that one copy
// of this serves both.
#[inline(never)]
#[tactic(auto, using(crate::proofs::Quadrants::below_4), unfolding(crate::specs::Turns::sin_turned))]
fn sin_turned(x: f64, more: u32) -> f64
    requires { more ≤ 1 }
    ensures { result ≡ sin_turned more (rem_pio2 x) }
{
    let t = rem_pio2(x);
    let q = quadrant(t.n) + more;
    let value = quadrant_kernel(q, t.y0, t.y1);
    if q % 4 < 2 {
        return value;
    }
    -value
}

// `sin` and `cos` stay two functions, as in the Rust: bound, small value and kernel differ, and what they share is `sin_turned`.
#[tactic(auto, using(crate::proofs::Quadrants::sin_is), unfolding(crate::specs::Trig::sin_of))]
pub fn sin(x: f64) -> f64
    ensures { result ≡ sin_of x }
{
    let ix = abs_high_word(x);
    if ix <= 0x3fe9_21fb {
        if ix < 0x3e50_0000 {
            return x;
        }
        return sin_kernel(x, None);
    }
    if ix >= 0x7ff0_0000 {
        return x - x;
    }
    sin_turned(x, 0)
}

#[tactic(auto, using(crate::proofs::Quadrants::cos_is), unfolding(crate::specs::Trig::cos_of))]
pub fn cos(x: f64) -> f64
    ensures { result ≡ cos_of x }
{
    let ix = abs_high_word(x);
    if ix <= 0x3fe9_21fb {
        if ix < 0x3e46_a09e {
            return 1.0;
        }
        return cos_kernel(x, 0.0);
    }
    if ix >= 0x7ff0_0000 {
        return x - x;
    }
    sin_turned(x, 1)
}

#[tactic(auto, unfolding(crate::specs::Acos::acos_r))]
fn acos_r(z: f64) -> f64
    ensures { result ≡ acos_r z }
{
    let p = z * (PS0 + z * (PS1 + z * (PS2 + z * (PS3 + z * (PS4 + z * PS5)))));
    let q = 1.0 + z * (QS1 + z * (QS2 + z * (QS3 + z * QS4)));
    p / q
}

#[tactic(auto, unfolding(crate::specs::Acos::clear_low_word))]
fn clear_low_word(x: f64) -> f64
    requires { T (not (is_nan x)) }
    ensures { result ≡ clear_low_word x }
{
    f64::from_bits(f64::to_bits(x) / 0x1_0000_0000 * 0x1_0000_0000)
}

// `acos` from |x| = 1 on; b has the bits of x.
#[tactic(auto, unfolding(crate::specs::Acos::acos_beyond, crate::specs::Kernels::sign_bit))]
fn acos_beyond(x: f64, b: u64, ix: u64) -> f64
    requires { b ≡ bits_of x }
    ensures { result ≡ acos_beyond x ix }
{
    if ix != 0x3ff0_0000 {
        return 0.0 / (x - x);
    }
    if b % 0x1_0000_0000 != 0 {
        return 0.0 / (x - x);
    }
    if b >= 0x8000_0000_0000_0000 {
        return 2.0 * PIO2_HI + f64::from_bits(0x3987_0000_0000_0000);
    }
    0.0
}

#[tactic(auto, unfolding(crate::specs::Acos::acos_small))]
fn acos_small(x: f64, ix: u64) -> f64
    ensures { result ≡ acos_small x ix }
{
    if ix <= 0x3c60_0000 {
        return PIO2_HI + f64::from_bits(0x3987_0000_0000_0000);
    }
    PIO2_HI - (x - (PIO2_LO - x * acos_r(x * x)))
}

#[tactic(auto, unfolding(crate::specs::Acos::acos_negative))]
fn acos_negative(x: f64) -> f64
    ensures { result ≡ acos_negative x }
{
    let z = (1.0 + x) * 0.5;
    let s = sqrt::sqrt(z);
    let w = acos_r(z) * s - PIO2_LO;
    2.0 * (PIO2_HI - (s + w))
}

// x is at least 0 and below 1, so that the root is a number.
#[tactic(auto, using(crate::proofs::RootNumber::root_number), unfolding(crate::specs::Acos::acos_positive))]
fn acos_positive(x: f64) -> f64
    requires { bits_of x < 0x3ff0_0000_0000_0000 }
    ensures { result ≡ acos_positive x }
{
    let z = (1.0 - x) * 0.5;
    let s = sqrt::sqrt(z);
    let df = clear_low_word(s);
    let c = (z - df * df) / (s + df);
    let w = acos_r(z) * s + c;
    2.0 * (df + w)
}

#[tactic(auto, using(float::proofs::Nan::no_nan), unfolding(crate::specs::Acos::acos_of, crate::specs::Kernels::abs_high_word, crate::specs::Kernels::sign_bit))]
pub fn acos(x: f64) -> f64
    ensures { result ≡ acos_of x }
{
    if x.is_nan() {
        return x;
    }
    let b = f64::to_bits(x);
    let ix = (b >> 32) % 0x8000_0000;
    if ix >= 0x3ff0_0000 {
        return acos_beyond(x, b, ix);
    }
    if ix < 0x3fe0_0000 {
        return acos_small(x, ix);
    }
    if b < 0x8000_0000_0000_0000 {
        return acos_positive(x);
    }
    acos_negative(x)
}
