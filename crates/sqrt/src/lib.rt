// `f64::sqrt`: the square root of an f64, correctly rounded, by integers on its bits.
#![tactic(auto)]

ghost use Rattle.std.specs.Prelude.{◌≡◌, ◌+◌, ◌*◌, ◌/◌, ◌%◌, ◌^◌, ◌≤◌, ◌<◌};
ghost use Rattle.std.specs.Float.Ieee.{of_bits};
ghost use Rattle.std.specs.Float.{binary64};
ghost use Rattle.sqrt.specs.Sqrt.{isqrt, sqrt_of};
ghost use Rattle.sqrt.specs.Nearest.{IsRoot, OnlyRoot};
ghost use Rattle.sqrt.specs.Steps.{Seed, InSegment, Reciprocal, RootEstimate, IsNormalized, infinity_bits};

// The bits of positive infinity: those of finite positive values are below it.
const INFINITY_BITS: u64 = 0x7ff0_0000_0000_0000;

// The leading bit of a normal significand, which the encoding leaves out.
const HIDDEN_BIT: u64 = 0x10_0000_0000_0000;

// The seed table, an entry for each segment i of the radicands n: t * 2 ^ 32 + c, where t is about 2 ^ 42 / sqrt(n) and c is t * t * t / 2 ^ 16, rounded up.
fn seed(i: u64) -> u64
    requires { i < 128 }
    ensures { Seed i (result / 2 ^ 32) (result % 2 ^ 32) }
{
    match i {
        0 => 0xb451_5975_98c8,
        1 => 0xb2ef_576a_be34,
        2 => 0xb196_5574_e604,
        3 => 0xb044_5390_9146,
        4 => 0xaef9_51bd_3f30,
        5 => 0xadb6_4ffb_d4a0,
        6 => 0xac79_4e49_1092,
        7 => 0xab43_4ca5_e4ea,
        8 => 0xaa14_4b11_e08d,
        9 => 0xa8eb_498b_47bb,
        10 => 0xa7c7_4810_743a,
        11 => 0xa6aa_46a3_a49f,
        12 => 0xa592_4541_f276,
        13 => 0xa480_43ec_5320,
        14 => 0xa373_42a1_3ba7,
        15 => 0xa26b_4160_687e,
        16 => 0xa168_4029_9800,
        17 => 0xa069_3efb_5cd2,
        18 => 0x9f70_3dd7_d7b3,
        19 => 0x9e7b_3cbc_74cd,
        20 => 0x9d8a_3ba9_0415,
        21 => 0x9c9d_3a9d_56b1,
        22 => 0x9bb5_399a_5b15,
        23 => 0x9ad0_389d_a948,
        24 => 0x99f0_37a9_4b0e,
        25 => 0x9913_36ba_e7b1,
        26 => 0x983a_35d3_6eec,
        27 => 0x9764_34f1_ac1b,
        28 => 0x9692_3416_8aa6,
        29 => 0x95c4_3341_e465,
        30 => 0x94f8_3271_8c18,
        31 => 0x9430_31a7_709e,
        32 => 0x936b_30e2_6fc7,
        33 => 0x92a9_3022_6ed8,
        34 => 0x91ea_2f67_53b4,
        35 => 0x912e_2eb1_04d8,
        36 => 0x9074_2dfe_74cb,
        37 => 0x8fbe_2d51_76b3,
        38 => 0x8f0a_2ca8_0c06,
        39 => 0x8e59_2c03_11f4,
        40 => 0x8daa_2b61_8682,
        41 => 0x8cfd_2ac3_5a1e,
        42 => 0x8c54_2a2a_4b02,
        43 => 0x8bac_2993_8f70,
        44 => 0x8b07_2900_e43d,
        45 => 0x8a64_2871_546c,
        46 => 0x89c3_27e4_d203,
        47 => 0x8925_275c_2bb6,
        48 => 0x8889_26d6_73c1,
        49 => 0x87ee_2652_c485,
        50 => 0x8756_25d2_c421,
        51 => 0x86c0_2555_8b8c,
        52 => 0x862b_24da_3b7d,
        53 => 0x8599_2462_6f8f,
        54 => 0x8508_23ec_77bc,
        55 => 0x8479_2379_1b43,
        56 => 0x83ec_2308_4eab,
        57 => 0x8361_229a_06b6,
        58 => 0x82d8_222e_3860,
        59 => 0x8250_21c4_11de,
        60 => 0x81c9_215b_8d6a,
        61 => 0x8145_20f6_2cf2,
        62 => 0x80c2_2092_5cf6,
        63 => 0x8040_2030_1804,
        64 => 0xff01_fd05_f906,
        65 => 0xfd0d_f740_fe55,
        66 => 0xfb24_f1b2_6471,
        67 => 0xf946_ec58_8d12,
        68 => 0xf773_e731_e7c9,
        69 => 0xf5a9_e237_6b3e,
        70 => 0xf3ea_dd6d_5048,
        71 => 0xf234_d8cc_cd67,
        72 => 0xf087_d454_bd60,
        73 => 0xeee2_d001_673f,
        74 => 0xed46_cbd4_6651,
        75 => 0xebb3_c7cc_af17,
        76 => 0xea27_c3e4_3980,
        77 => 0xe8a3_c01c_b6ad,
        78 => 0xe727_bc75_4abc,
        79 => 0xe5b1_b8e8_4bda,
        80 => 0xe443_b579_de6f,
        81 => 0xe2db_b224_8292,
        82 => 0xe17a_aee9_f457,
        83 => 0xe020_abc9_8a81,
        84 => 0xdecb_a8be_154c,
        85 => 0xdd7c_a5c9_5cbf,
        86 => 0xdc34_a2ed_10fe,
        87 => 0xdaf1_a024_369d,
        88 => 0xd9b3_9d6e_6028,
        89 => 0xd87b_9acd_47f4,
        90 => 0xd748_983e_5463,
        91 => 0xd61a_95c1_2018,
        92 => 0xd4f1_9355_482d,
        93 => 0xd3cd_90fa_6c2c,
        94 => 0xd2ad_8eae_25e1,
        95 => 0xd192_8c72_2c96,
        96 => 0xd07b_8a44_292a,
        97 => 0xcf69_8825_cbe5,
        98 => 0xce5a_8612_d926,
        99 => 0xcd50_840e_f787,
        100 => 0xcc4a_8217_ec0a,
        101 => 0xcb48_802d_754a,
        102 => 0xca49_7e4d_73d9,
        103 => 0xc94f_7c7b_6cf2,
        104 => 0xc858_7ab3_68f1,
        105 => 0xc764_78f5_3994,
        106 => 0xc674_7742_7efe,
        107 => 0xc587_7599_368d,
        108 => 0xc49d_73f9_34d3,
        109 => 0xc3b7_7264_101b,
        110 => 0xc2d4_70d7_d5a3,
        111 => 0xc1f4_6f54_5cb8,
        112 => 0xc116_6dd7_c889,
        113 => 0xc03c_6c65_5fa8,
        114 => 0xbf65_6afb_42f0,
        115 => 0xbe90_6997_a348,
        116 => 0xbdbe_683c_0cc7,
        117 => 0xbcef_66e8_5b36,
        118 => 0xbc23_659c_6b1c,
        119 => 0xbb59_6456_7e6c,
        120 => 0xba91_6316_7d5f,
        121 => 0xb9cc_61dd_e514,
        122 => 0xb90a_60ac_9497,
        123 => 0xb84a_5f80_dda6,
        124 => 0xb78c_5e5a_aa3f,
        125 => 0xb6d0_5d39_e4bc,
        126 => 0xb617_5c1f_fc5d,
        127 => 0xb560_5b0b_518a,
        _ => 0,
    }
}

// 2 ^ 58 / sqrt(n), or less by at most a 2 ^ 15th of it: Newton's step for the reciprocal square root from t * 2 ^ 16, (3 * t - t * t * t * n / 2 ^ 84) * 2 ^ 15.
// The 3 that is taken off makes up for the two floors, here and in `newton_step`: the result is never above.
#[tactic(auto, using(crate::proofs::Reciprocals::estimate_fits, crate::proofs::Reciprocals::estimated))]
fn estimate(n: u64, i: u64) -> u64
    requires { InSegment i n }
    ensures { Reciprocal n result (2 ^ 102 + 2 ^ 89) }
{
    let p = seed(i);
    let w = ((p % 0x1_0000_0000) * (n >> 22)) >> 31;
    (p >> 32) * 0x1_8000 - 3 - w
}

// Newton's step for the reciprocal square root from r, r * (3 - r * r * n / 2 ^ 116) / 2: 2 ^ 58 / sqrt(n), or less by at most a 2 ^ 28th of it.
#[tactic(auto, using(crate::proofs::Reciprocals::product_fits, crate::proofs::Reciprocals::smaller, crate::proofs::Reciprocals::square_fits, crate::proofs::Reciprocals::refined))]
fn newton_step(n: u64, r: u64) -> u64
    requires { (2 ^ 52 ≤ n) × (n < 2 ^ 54) × Reciprocal n r (2 ^ 102 + 2 ^ 89) }
    ensures { Reciprocal n result (2 ^ 89 + 2 ^ 78) }
{
    let w = (((r * r) >> 32) * (n >> 22)) >> 32;
    let u = 0xbfff_fffd - w;
    (r * u) >> 31
}

// The root of n * 2 ^ 52, rounded to the nearest, from s, at most the root of 1024 * n and less than 24 below it, and r, about 2 ^ 63 / s.
// q is s * 2 ^ 21 + l, where l is about d * 2 ^ 20 / s, by a product with r. The root is from q to below q + 3 / 2, so it is compared with q + 1 / 2.
fn rounded_root(n: u64, s: u64, r: u64) -> u64
    requires { RootEstimate n s r }
    ensures { result ≡ (isqrt (n * 2 ^ 54) + 1) / 2 }
{
    let d = n * 1024 - s * s;
    let l = ((d >> 6) * r) >> 37;
    let q = s * 0x20_0000 + l;
    if s * (2 * l + 1) + ((l * (l + 1)) >> 21) < d * 0x20_0000 {
        q + 1
    } else {
        q
    }
}

// The root of n * 2 ^ 52, rounded to the nearest, for an n of 53 or 54 bits in the segment i.
fn sqrt_significand(n: u64, i: u64) -> u64
    requires { InSegment i n }
    ensures { result ≡ (isqrt (n * 2 ^ 54) + 1) / 2 }
{
    let r = newton_step(n, estimate(n, i));
    rounded_root(n, ((n >> 22) * r) >> 31, r)
}

// A finite positive value as m * 2 ^ (f - 2096), with a significand m of 53 bits, and the segment i of its radicand.
#[derive(Clone, Copy)]
struct Normalized {
    m: u64,
    f: u64,
    i: u64,
}

// The value with the bits b, normalized: a subnormal one is shifted up.
fn normalize(b: u64) -> Normalized
    requires { (0 < b) × (b < infinity_bits) }
    ensures { IsNormalized b result.m result.f × (result.i + 64 * (result.f % 2) ≡ result.m / 2 ^ 46) }
{
    let e = b >> 52;
    if e == 0 {
        let z = u64::leading_zeros(b);
        let m = b << (z - 11);
        let f = 1033 - z as u64;
        let i = (m >> 46) - 64 * (f % 2);
        Normalized { m, f, i }
    } else {
        Normalized {
            m: b % HIDDEN_BIT + HIDDEN_BIT,
            f: e + 1021,
            i: (b >> 46) % 128,
        }
    }
}

// The integer whose root is taken, so that the exponent is even: m or 2 * m.
fn radicand(m: u64, f: u64) -> u64
    requires { m < 2 ^ 53 }
    ensures { result ≡ m * (f % 2 + 1) }
{
    if f % 2 == 0 { m } else { 2 * m }
}

// The bits of the root of a finite positive value, from its bits b.
fn sqrt_bits(b: u64) -> u64
    requires { (0 < b) × (b < infinity_bits) }
    ensures { (result < infinity_bits) × (of_bits binary64 result ≡ sqrt_of (of_bits binary64 b)) }
{
    let x = normalize(b);
    let q = sqrt_significand(radicand(x.m, x.f), x.i);
    x.f / 2 * HIDDEN_BIT + q
}

// IEEE 754-2019's squareRoot at binary64 with roundTiesToEven, for every f64.
pub fn sqrt(x: f64) -> f64
    ensures root { result ≡ sqrt_of x }
    ensures ieee { IsRoot x result }
    ensures only { OnlyRoot x result }
{
    if x > 0.0 {
        let b = f64::to_bits(x);
        if b == INFINITY_BITS {
            return x;
        }
        return f64::from_bits(sqrt_bits(b));
    }
    if x == 0.0 {
        return x;
    }
    0.0 / 0.0
}
