// sinf and cosf, from FreeBSD's msun (s_sinf.c, s_cosf.c, k_sinf.c, k_cosf.c and the medium range of
// e_rem_pio2f.c): worked out in `f64`, and rounded to `f32` once.
//
// The ranges are told by the pattern of x's size, as in the source.
ghost use Rattle.std.specs.Prelude.{◌≡◌, ◌+◌, ◌%◌, ◌<◌, if◌then◌else◌};
ghost use Rattle.std.specs.Float.{binary32};
ghost use Rattle.floats.specs.Narrow.{convert};
ghost use Rattle.floats.specs.Ops.{◌⊞◌, ◌⊟◌};
ghost use Rattle.floats.specs.SinCos.{k_sinf, k_cosf, quadrant, rem_pio2f, negative, by_quadrant, sinf_near, sinf_far, sinf, cosf_near, cosf_far, cosf};

use crate::bits::TINY;
use crate::{bits, compare, narrow};
use std::f64::consts;

// π/2.
const PIO2_TIMES_1: f64 = consts::FRAC_PI_2;

// π.
const PIO2_TIMES_2: f64 = consts::PI;

// 3π/2.
const PIO2_TIMES_3: f64 = 4.71238898038469;

// 2π.
const PIO2_TIMES_4: f64 = consts::TAU;

// 2/π.
const INV_PIO2: f64 = consts::FRAC_2_PI;

// 1.5 * 2^52: at this size the last digit of an `f64` is worth 1.
const TOINT: f64 = 6755399441055744.0;

// The first 25 bits of π/2.
const PIO2_1: f64 = 1.5707963109016418;

// What π/2 has beyond them.
const PIO2_1T: f64 = 0.000000015893254773528196;

// 1.5 * 2^28: at this size the last digit of an `f64` is worth 2^-24, as that of an `f32` from 1/2 to 1.
const ALIGN: f64 = 402653184.0;

// The pattern of the largest `f32` below π/4, 0.7853981.
const UPTO_PI_4: u32 = 0x3F49_0FDA;

// The pattern of the largest `f32` below 3π/4, 2.3561943.
const UPTO_3PI_4: u32 = 0x4016_CBE3;

// The pattern of the largest `f32` below 5π/4, 3.9269907.
const UPTO_5PI_4: u32 = 0x407B_53D1;

// The pattern of the largest `f32` below 7π/4, 5.497787.
const UPTO_7PI_4: u32 = 0x40AF_EDDF;

// The pattern of the largest `f32` below 9π/4, 7.068583.
const UPTO_9PI_4: u32 = 0x40E2_31D5;

// The sine of x in [-π/4, π/4].
#[tactic(auto, unfolding(crate::specs::SinCos::k_sinf), using(crate::proofs::Laws::Fields::negated))]
fn k_sinf(x: f64) -> f32
    ensures { result ≡ k_sinf x }
{
    let z = x * x;
    let w = z * z;
    let r = -0.00019839334836096632 + z * 0.000002718311493989822;
    let s = z * x;
    narrow::narrow(x + s * (-0.16666666641626524 + z * 0.008333329385889463) + s * w * r)
}

// y as the nearest `f32`. From 1/2 to 1, where the cosines below lie, an addition rounds it.
fn narrow_cosine(y: f64) -> f32
    ensures { result ≡ convert binary32 y }
{
    if 0.5 <= y && y < 1.0 {
        return (y + ALIGN - ALIGN) as f32;
    }
    narrow::narrow(y)
}

// The cosine of x in [-π/4, π/4].
#[tactic(auto, unfolding(crate::specs::SinCos::k_cosf), using(crate::proofs::Laws::Fields::negated))]
fn k_cosf(x: f64) -> f32
    ensures { result ≡ k_cosf x }
{
    let z = x * x;
    let w = z * z;
    let r = -0.001388676377460993 + z * 0.00002439044879627741;
    narrow_cosine(1.0 + z * -0.499999997251031 + w * 0.04166662332373906 + w * z * r)
}

// How many quarter turns are nearest to x, modulo 4.
#[tactic(auto, unfolding(crate::specs::SinCos::quadrant))]
fn quadrant(x: f64) -> u64
    ensures value { result ≡ quadrant x }
    ensures upper_bound { result < 4 }
{
    std::num::f64_to_bits_with_nan(x * INV_PIO2 + TOINT) % 4
}

// x without these quarter turns. Past 2^28 π/2 in size the source goes on to another method, and this one
// is only total.
#[tactic(auto, unfolding(crate::specs::SinCos::rem_pio2f))]
fn rem_pio2f(x: f64) -> f64
    ensures { result ≡ rem_pio2f x }
{
    let n = x * INV_PIO2 + TOINT - TOINT;
    x - n * PIO2_1 - n * PIO2_1T
}

// x with an angle taken off its size.
fn nearer(x: f32, angle: f64) -> f64
    ensures { result ≡ (if negative x then (x ⊞ angle) else (x ⊟ angle)) }
{
    let wide = std::num::f32_to_f64_with_nan(x);
    if x < 0.0 {
        return wide + angle;
    }
    wide - angle
}

// The sine of x with a size between π/4 and 5π/4. This one, `sinf_far`, `cosf_near` and `cosf_far` differ
// in kernels, signs and angles: a form for all four would be passed all of these.
#[tactic(auto, unfolding(crate::specs::SinCos::sinf_near), using(crate::proofs::Laws::Sizes::by_pattern))]
fn sinf_near(x: f32) -> f32
    ensures { result ≡ sinf_near x }
{
    if UPTO_3PI_4 < bits::size_bits(x) {
        return k_sinf(-nearer(x, PIO2_TIMES_2));
    }
    compare::with_sign(x < 0.0, k_cosf(nearer(x, PIO2_TIMES_1)))
}

// The sine of x with a size between 5π/4 and 9π/4.
#[tactic(auto, unfolding(crate::specs::SinCos::sinf_far), using(crate::proofs::Laws::Sizes::by_pattern, crate::proofs::Laws::Order::neg_neg))]
fn sinf_far(x: f32) -> f32
    ensures { result ≡ sinf_far x }
{
    if UPTO_7PI_4 < bits::size_bits(x) {
        return k_sinf(nearer(x, PIO2_TIMES_4));
    }
    -compare::with_sign(x < 0.0, k_cosf(nearer(x, PIO2_TIMES_3)))
}

// The sine of y in [-π/4, π/4] and n quarter turns, for an n from 0 to 3: a number, since it is one more
// for a cosine.
#[tactic(auto, unfolding(crate::specs::SinCos::by_quadrant))]
fn by_quadrant(n: u64, y: f64) -> f32
    ensures { result ≡ by_quadrant n y }
{
    match n {
        0 => k_sinf(y),
        1 => k_cosf(y),
        2 => k_sinf(-y),
        _ => -k_cosf(y),
    }
}

// The sine of x of any size and `turns` quarter turns, by the quarter turns of both.
fn reduced(x: f32, turns: u64) -> f32
    requires { turns < 4 }
    ensures { result ≡ by_quadrant ((quadrant x + turns) % 4) (rem_pio2f x) }
{
    let wide = std::num::f32_to_f64_with_nan(x);
    by_quadrant((quadrant(wide) + turns) % 4, rem_pio2f(wide))
}

// The sine of x radians, up to 2^28 π/2 in size. A NaN and an infinity give a NaN, and a zero itself. `cosf`
// tests the same ranges and answers otherwise in each: a form for both would be passed four
// functions and a number of turns.
#[tactic(auto, unfolding(crate::specs::SinCos::sinf), using(crate::proofs::Laws::Sizes::by_pattern, crate::proofs::Laws::SinCos::no_turn, crate::proofs::Laws::SinCos::sinf_nan))]
pub fn sinf(x: f32) -> f32
    ensures { result ≡ sinf x }
{
    if x.is_nan() {
        return x;
    }
    let size = bits::size_bits(x);
    if size <= UPTO_PI_4 {
        if size < TINY {
            return x;
        }
        return k_sinf(std::num::f32_to_f64_with_nan(x));
    }
    if size <= UPTO_5PI_4 {
        return sinf_near(x);
    }
    if size <= UPTO_9PI_4 {
        return sinf_far(x);
    }
    reduced(x, 0)
}

// The cosine of x with a size between π/4 and 5π/4.
#[tactic(auto, unfolding(crate::specs::SinCos::cosf_near), using(crate::proofs::Laws::Sizes::by_pattern, crate::proofs::Laws::SinCos::near_size))]
fn cosf_near(x: f32) -> f32
    ensures { result ≡ cosf_near x }
{
    if UPTO_3PI_4 < bits::size_bits(x) {
        return -k_cosf(nearer(x, PIO2_TIMES_2));
    }
    k_sinf(PIO2_TIMES_1 - std::num::f32_to_f64_with_nan(compare::abs(x)))
}

// The cosine of x with a size between 5π/4 and 9π/4.
#[tactic(auto, unfolding(crate::specs::SinCos::cosf_far), using(crate::proofs::Laws::Sizes::by_pattern, crate::proofs::Laws::SinCos::far_size))]
fn cosf_far(x: f32) -> f32
    ensures { result ≡ cosf_far x }
{
    if UPTO_7PI_4 < bits::size_bits(x) {
        return k_cosf(nearer(x, PIO2_TIMES_4));
    }
    k_sinf(std::num::f32_to_f64_with_nan(compare::abs(x)) - PIO2_TIMES_3)
}

// The cosine of x radians, up to 2^28 π/2 in size. A NaN and an infinity give a NaN.
#[tactic(auto, unfolding(crate::specs::SinCos::cosf, crate::specs::SinCos::cosf_reduced), using(crate::proofs::Laws::Sizes::by_pattern, crate::proofs::Laws::SinCos::cosf_nan))]
pub fn cosf(x: f32) -> f32
    ensures { result ≡ cosf x }
{
    if x.is_nan() {
        return x;
    }
    let size = bits::size_bits(x);
    if size <= UPTO_PI_4 {
        if size < TINY {
            return 1.0;
        }
        return k_cosf(std::num::f32_to_f64_with_nan(x));
    }
    if size <= UPTO_5PI_4 {
        return cosf_near(x);
    }
    if size <= UPTO_9PI_4 {
        return cosf_far(x);
    }
    // The sine a quarter turn on.
    reduced(x, 1)
}
