// The square root, rounded to the nearest `f32`. std's `sqrt` is the processor's instruction, which is
// taken at its word; this one is proved.
ghost use Rattle.std.specs.Prelude.{◌≡◌, ◌^◌, ◌<◌, true, T, from_bits, to_bits};
ghost use Rattle.std.specs.Float.{binary32};
ghost use Rattle.std.specs.Float.Ieee.{le};
ghost use Rattle.std.specs.Float.Ieee.Positive.{positive};
ghost use Rattle.floats.specs.Sqrt.{sqrt, whole_root};

use crate::bits::LEAD;

// The weight of an `f64`'s leading digit, and of its exponent's field: 2^52.
const LEAD64: u64 = 4503599627370496;

// The same of an `f32`, 2^23.
const LEAD32: u64 = LEAD as u64;

// A number near √n, for an n from 2^48 to 2^50. Only its range is promised: `whole_root` mends any
// guess, and the better the guess, the sooner.
fn guess(n: u64) -> u64
    ensures { result < 2 ^ 32 }
{
    // n / 2^48 is from 1 to 4, and `near` is off by at most 1/190 of its root.
    let z = ((n % LEAD64) as f64) / 281474976710656.0;
    let near = (0.526 - 0.03954 * z) * z + 0.51856;
    // A step of Heron's method squares that share and halves it. The second one, times 2^24.
    let once = 0.5 * (near + z / near);
    let twice = (once + z / once) * 8388608.0;
    // A sum with 2^52 is whole. Half less is added, so that it is mostly the whole part.
    std::num::f64_to_bits_with_nan(twice + 4503599627370495.5) % 4294967296
}

// The largest number whose square is at most n.
fn whole_root(n: u64) -> u64
    ensures { result ≡ whole_root n }
{
    let mut r = guess(n);
    // From the guess, which is near, down and up to the root. (std's `isqrt` halves a range 32 times:
    // with it the root of a subnormal takes three times as long.)
    while r * r > n {
        r -= 1;
    }
    while n - r * r > 2 * r {
        r += 1;
    }
    r
}

// The root of any x, digit by digit. A zero is its own root, and so is infinity. A NaN has no root,
// nor has a number below zero.
fn sqrtf_by_digits(x: f32) -> f32
    ensures { result ≡ sqrt binary32 x }
{
    if x == 0.0 {
        return x;
    }
    if !(0.0 < x) {
        return f32::NAN;
    }
    if x == f32::INFINITY {
        return x;
    }
    // As an `f64` x is normal: `digits` * 2^(`exponent` - 1075). The last 29 of the 53 digits are 0.
    let bits = f64::to_bits(x as f64);
    let exponent = bits / LEAD64;
    let digits = bits % LEAD64 + LEAD64;
    // x is n * 4^((`exponent` + 1) / 2 - 536), with an n from 2^48 to 2^50.
    let n = digits >> (3 + exponent % 2);
    let root = whole_root(n);
    // The root of n has 25 digits, and 24 are kept. It is never halfway, since n is even: so an odd
    // `root` is rounded up.
    f32::from_bits((((exponent + 1) / 2 - 386) * LEAD32 + (root + 1) / 2) as u32)
}

// A number near 2^-896 * √z, for a z above zero that is a normal `f32` with the pattern `bits`. Nothing
// is promised of it.
#[tactic(auto, using(crate::proofs::Laws::Sqrt::Special::upto_infinity))]
fn near(z: f64, bits: u32) -> f64 {
    // Half of a pattern has half of the exponent: y is off from 1/√z by at most 1/21 of it.
    let y = f64::from_bits(0x43e6_9000_0000_0000 - (bits as u64) * 268435456);
    // √z is z * y / √(1 - h). The factors are those of a polynomial in h for 1 / √(1 - h).
    let h = 1.0 - z * (y * y);
    let first = z * 5.425950008968803e-271 * y * (h + 1.3037139091641625);
    let second = h * (h + 1.146967453961299) + 1.687615262438932;
    let third = h * h + (1.5855953128975564 - h * 1.5010472731018851);
    first * (second * third)
}

// Whether `pattern` is found to be that of the root of x, a normal number above zero.
fn is_root(x: f32, pattern: u64) -> bool
    requires above_zero { T (positive x) }
    requires normal { T (le (from_bits binary32 8388608) x) }
    ensures { result ≡ true → pattern ≡ to_bits binary32 (sqrt binary32 x) }
{
    let bits = f32::to_bits(x);
    let exponent = bits / LEAD;
    // x is k * 4^((`exponent` + 1) / 2 - 87), with a k from 2^46 to 2^48. So its root's digits are √k
    // rounded, and its pattern is that number more than `base`.
    let base = ((exponent + 125) / 2 * LEAD) as u64;
    if pattern < base {
        return false;
    }
    let q = pattern - base;
    let k = ((bits % LEAD + LEAD) as u64) << (24 - exponent % 2);
    if 33554432 <= q {
        return false;
    }
    // q is √k rounded where (q - 1/2)² < k < (q + 1/2)²: where k is above q² - q and at most q² + q.
    q * q < k + q && k <= q * q + q
}

// For most x above zero a guess is checked. Where it fails, and for any other x, the digits decide.
pub fn sqrtf(x: f32) -> f32
    ensures { result ≡ sqrt binary32 x }
{
    // From 10^-37 to 3 * 10^38, so that x is normal.
    if 1e-37 <= x && x <= 3e38 {
        let s = near(x as f64, f32::to_bits(x));
        if !s.is_nan() {
            // The exponent's field of s is that of the root as an `f32`. So the pattern of s less its
            // last 29 digits, rounded, is that of the root.
            let pattern = (f64::to_bits(s) / 268435456 + 1) / 2;
            if is_root(x, pattern) {
                return f32::from_bits(pattern as u32);
            }
        }
    }
    sqrtf_by_digits(x)
}
